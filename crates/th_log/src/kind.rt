//! A kind of channel: its table of calls, and what its replies tell.
ghost use Rattle.std.specs.Prelude.{◌≡◌, ℕ, Bool, Option, IfOk, IfErr, IsOk, not};
ghost use Rattle.th_model.specs.declared.handles.RxId.{RxId};
ghost use Rattle.th_model.specs.declared.handles.TxId.{TxId};
ghost use Rattle.th_model.specs.declared.verb.Question.{Question};
ghost use Rattle.th_model.specs.declared.verb.ReceiverVerb.{ReceiverVerb};
ghost use Rattle.th_model.specs.declared.verb.SenderVerb.{SenderVerb};
ghost use Rattle.th_model.specs.declared.verb.Start.{Start};
ghost use Rattle.th_log.specs.CallLaws.{IsBy, IsLast, OnlyNewsEndsWaits, StaysBeside};
ghost use Rattle.th_log.specs.Replies.{made_by};

use crate::object::{Event, Object};
use th_model::{Question, ReceiverVerb, RxId, SenderVerb, Short, Start, TxId};

/// A kind of channel, whose handles have numbers. A call that it does not have is `None`.
pub trait Kind: Object {
    /// The values that it carries.
    type Value: Drop;

    /// Whether a picture shows this sender.
    ghost has_sender: { Self.State → TxId → Bool };

    /// Whether a picture shows this receiver.
    ghost has_receiver: { Self.State → RxId → Bool };

    /// A call waits where its reply would be that there is nothing to tell yet.
    ghost waits: { Self.Call → Self.Reply → Bool };

    /// The call of a sender by a verb.
    ghost by_sender: { SenderVerb Self.Value → TxId → Option Self.Call };

    /// The call that asks a question through a sender.
    ghost asked: { Question → TxId → Option Self.Call };

    /// The call of a receiver by a verb.
    ghost by_receiver: { ReceiverVerb → RxId → Option Self.Call };

    /// The call through a sender that makes a receiver which begins so.
    ghost subscribing: { Start → TxId → Option Self.Call };

    /// The call of a receiver that makes another.
    ghost resubscribing: { RxId → Option Self.Call };

    /// The call of a sender that makes another.
    ghost cloning: { TxId → Self.Call };

    /// The last call of a sender.
    ghost last_of_sender: { TxId → Self.Call };

    /// The last call of a receiver.
    ghost last_of_receiver: { RxId → Self.Call };

    /// The number of the handle that makes a call.
    ghost handle_of: { Self.Call → ℕ };

    /// The number of the sender that makes a call, of those calls that neither make nor spend a handle.
    ghost sender_of: { Self.Call → Option ℕ };

    /// The number of the receiver that makes a call, of the same.
    ghost receiver_of: { Self.Call → Option ℕ };

    /// The sender that a reply tells of.
    ghost made_tx: { Self.Reply → Option TxId };

    /// The receiver that a reply tells of.
    ghost made_rx: { Self.Reply → Option RxId };

    /// Whether nothing will come any more for a receiver that was told so.
    ghost ends: { Self.Reply → Bool };

    /// Whether a call that was answered so put something into the channel for which receivers wait.
    ghost is_news: { Self.Call → Self.Reply → Bool };

    /// The reply to the last call of a handle.
    ghost done: { Self.Reply };

    /// Whether this sender is live.
    fn has_sender(&self, tx: TxId) -> bool
        ensures { result ≡ has_sender (Self.shows self.now) tx };

    /// Whether this receiver is live.
    fn has_receiver(&self, rx: RxId) -> bool
        ensures { result ≡ has_receiver (Self.shows self.now) rx };

    /// Whether the call would wait.
    fn waits(&self, call: &Self::Call) -> bool
        ensures waits { result ≡ waits call.now
            (Self.machine.answer (Self.shows self.now) call.now).0 }
        ensures ready { Self.machine.ready (Self.shows self.now) call.now ≡ not result };

    /// The event of a call, with what its log keeps of it: `apply`, behind two copies of the call and
    /// its reply foreseen. Where memory is refused the call comes back, and nothing has changed.
    fn event(
        &mut self,
        call: Self::Call,
    ) -> Result<Event<Self::Call, Self::Reply>, Short<Self::Call>>
        requires { Self.lawful }
        ensures step { IfOk result (λ e.
            Self.machine.answer (Self.shows self.old) call ≡ (e.reply, Self.shows self.new)) }
        ensures call { IfOk result (λ e. e.call ≡ call) }
        ensures entry { IfOk result (λ e. e.entry ≡ (call, e.reply)) }
        ensures short { IfErr result (λ short.
            (short.call ≡ call) × (Self.shows self.new ≡ Self.shows self.old)) }
        ensures always { Self.takes_none call → IsOk result };

    /// The call of a sender by a verb.
    fn by_sender(verb: SenderVerb<Self::Value>, tx: TxId) -> Option<Self::Call>
        ensures { result ≡ by_sender verb tx };

    /// The call that asks a question through a sender.
    fn asked(question: Question, tx: TxId) -> Option<Self::Call>
        ensures { result ≡ asked question tx };

    /// The call of a receiver by a verb.
    fn by_receiver(verb: ReceiverVerb, rx: RxId) -> Option<Self::Call>
        ensures { result ≡ by_receiver verb rx };

    /// The call through a sender that makes a receiver which begins so.
    fn subscribing(start: Start, tx: TxId) -> Option<Self::Call>
        ensures { result ≡ subscribing start tx };

    /// The call of a receiver that makes another.
    fn resubscribing(rx: RxId) -> Option<Self::Call>
        ensures { result ≡ resubscribing rx };

    /// The call of a sender that makes another.
    fn cloning(tx: TxId) -> Self::Call
        ensures { result ≡ cloning tx };

    /// The last call of a sender.
    fn last_of_sender(tx: TxId) -> Self::Call
        ensures { result ≡ last_of_sender tx };

    /// The last call of a receiver.
    fn last_of_receiver(rx: RxId) -> Self::Call
        ensures { result ≡ last_of_receiver rx };

    /// The sender that was made, where one was.
    fn made_tx(reply: &Self::Reply) -> Option<TxId>
        ensures { result ≡ made_tx reply.now };

    /// The receiver that was made, where one was.
    fn made_rx(reply: &Self::Reply) -> Option<RxId>
        ensures { result ≡ made_rx reply.now };

    /// Whether nothing will come any more.
    fn ends(reply: &Self::Reply) -> bool
        ensures { result ≡ ends reply.now };

    /// Whether the call, which was answered so, put something into the channel for which receivers wait.
    fn is_news(call: &Self::Call, reply: &Self::Reply) -> bool
        ensures { result ≡ is_news call.now reply.now };

    /// A sender makes its calls of the table.
    ghost by_sender_ok: { (verb : SenderVerb Self.Value) (tx : TxId)
        → IsBy sender_of tx.0 (by_sender verb tx) };

    /// A sender asks the questions that are asked through it.
    ghost asked_ok: { (question : Question) (tx : TxId)
        → IsBy sender_of tx.0 (asked question tx) };

    /// A receiver makes its calls of the table.
    ghost by_receiver_ok: { (verb : ReceiverVerb) (rx : RxId)
        → IsBy receiver_of rx.0 (by_receiver verb rx) };

    /// The last call of a live sender spends it.
    ghost sender_ends_ok: { (tx : TxId)
        → IsLast Self.machine done (λ p. has_sender p tx) (last_of_sender tx) };

    /// The last call of a live receiver spends it.
    ghost receiver_ends_ok: { (rx : RxId)
        → IsLast Self.machine done (λ p. has_receiver p rx) (last_of_receiver rx) };

    /// A receiver that made another is still live.
    ghost stays_ok: { (rx : RxId) → StaysBeside Self.machine (made_by made_tx made_rx)
        (λ p. has_receiver p rx) (resubscribing rx) };

    /// A handle's wait ends by news from another, or where no sender is left.
    ghost news_ok: { OnlyNewsEndsWaits Self.machine Self.is_sound handle_of is_news };
}

/// The number of the handle that was made, where one was.
pub fn made<K: Kind>(reply: &K::Reply) -> Option<u64>
    ensures { result ≡ made_by K.made_tx K.made_rx reply.now }
{
    match K::made_tx(reply) {
        Some(tx) => Some(tx.0),
        None => Some(K::made_rx(reply)?.0),
    }
}
