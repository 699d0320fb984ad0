//! Which calls a kind of channel has.
ghost use Rattle.std.specs.Prelude.{◌≡◌};
ghost use Rattle.th_registry.specs.Calls.{answers, receives, sends, starts, waits};

use th_model::{Kind, Question, ReceiverVerb, SenderVerb, Start, Value};

/// Whether this kind of channel has receivers that begin so.
pub fn starts(kind: Kind, start: Start) -> bool
    ensures { result ≡ starts kind start }
{
    match (kind, start) {
        (Kind::Watch, Start::Oldest) => false,
        _ => true,
    }
}

/// Whether senders of this kind of channel have the verb.
pub fn sends(kind: Kind, verb: &SenderVerb<Value>) -> bool
    ensures { result ≡ sends kind verb.now }
{
    match (kind, verb) {
        (Kind::Broadcast, SenderVerb::Send(_)) => true,
        (Kind::Broadcast, _) => false,
        (Kind::Watch, _) => true,
    }
}

/// Whether this kind of channel answers the question.
pub fn answers(kind: Kind, question: Question) -> bool
    ensures { result ≡ answers kind question }
{
    match (kind, question) {
        (Kind::Watch, Question::Queued) => false,
        _ => true,
    }
}

/// Whether receivers of this kind of channel have the verb.
pub fn receives(kind: Kind, verb: ReceiverVerb) -> bool
    ensures { result ≡ receives kind verb }
{
    let is_broadcast = match verb {
        ReceiverVerb::TryRecv | ReceiverVerb::Recv | ReceiverVerb::Left => true,
        _ => false,
    };
    match kind {
        Kind::Broadcast => is_broadcast,
        Kind::Watch => !is_broadcast,
    }
}

/// Whether the verb waits for its answer.
pub fn waits(verb: ReceiverVerb) -> bool
    ensures { result ≡ waits verb }
{
    match verb {
        ReceiverVerb::Recv | ReceiverVerb::Changed => true,
        _ => false,
    }
}
