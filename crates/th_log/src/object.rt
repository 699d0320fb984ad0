//! What can be logged.
ghost use Rattle.std.specs.Prelude.{◌≡◌, ◌<◌, ◌↔◌, Bool, IfOk, IfErr, IsTrue, IsOk};
ghost use Rattle.th_model.specs.WatchMachine.{IsExact};
ghost use Rattle.th_log.specs.History.{Machine, live_after};

use std::alloc::Global;
use th_model::Short;

/// An event as it is noted twice: by its log, and by the receipt of whoever made it.
#[derive(Drop)]
pub struct Event<C, R> {
    /// The call and its reply, for the log.
    pub entry: (C, R),
    /// The call, for the receipt.
    pub call: C,
    /// The reply, for the receipt.
    pub reply: R,
}

/// A channel for one thread, which does what a machine does that remembers everything.
///
/// `copy_call` and `foresee` give what a log keeps of an event before the event is made, so that
/// after it nothing is left that may be refused.
pub trait Object: Drop {
    /// A call, by the number of the handle that makes it.
    type Call: Drop;

    /// The reply to a call.
    type Reply: Drop;

    /// What is seen of the object, as plain data.
    type State: Drop;

    /// The states of the machine.
    ghost Endless: { Type 0 };

    /// Its steps, on its own states and on what is seen of them.
    ghost machine: { Machine Endless Self.State Self.Call Self.Reply };

    /// What is always true of the machine's states.
    ghost is_proper: { Endless → Type 0 };

    /// The pictures that such a state may show.
    ghost is_sound: { Self.State → Type 0 };

    /// What is seen of the object.
    ghost shows: { Self → Self.State };

    /// What the calls that copy or compare values ask of the values' type: copies are equal, and
    /// tests exact.
    ghost lawful: { Type 0 };

    /// The calls that are copied, foreseen and answered without memory.
    ghost takes_none: { Self.Call → Type 0 };

    /// Whether the call has its answer now.
    fn ready(&self, call: &Self::Call) -> bool
        ensures { result ≡ machine.ready (shows self.now) call.now };

    /// The machine's reply. Where memory is refused the call comes back, and nothing has changed.
    fn apply(&mut self, call: Self::Call) -> Result<Self::Reply, Short<Self::Call>>
        requires { lawful }
        ensures step { IfOk result (λ reply.
            machine.answer (shows self.old) call ≡ (reply, shows self.new)) }
        ensures short { IfErr result (λ short.
            (short.call ≡ call) × (shows self.new ≡ shows self.old)) }
        ensures always { takes_none call → IsOk result };

    /// The reply that `apply` would give now.
    fn foresee(&self, call: &Self::Call) -> Result<Self::Reply, Short<()>>
        requires { lawful }
        ensures reply { IfOk result (λ reply.
            reply ≡ (machine.answer (shows self.now) call.now).0) }
        ensures always { takes_none call.now → IsOk result };

    /// The same call, a value in it as a clone.
    fn copy_call(call: &Self::Call) -> Result<Self::Call, Short<()>>
        requires { lawful }
        ensures copy { IfOk result (λ copy. copy ≡ call.now) }
        ensures always { takes_none call.now → IsOk result };

    /// What is seen of the object now.
    fn picture(&self, alloc: Global) -> Result<Self::State, Short<()>>
        requires { lawful }
        ensures { IfOk result (λ state. state ≡ shows self.now) };

    /// An object that looks like this. Where memory is refused, the picture comes back.
    fn resume(alloc: Global, state: Self::State) -> Result<Self, Short<Self::State>>
        requires { is_sound state }
        ensures ok { IfOk result (λ object. shows object ≡ state) }
        ensures short { IfErr result (λ short. short.call ≡ state) };

    /// How many handles are live.
    fn live(&self) -> u64
        ensures live { result ≡ machine.live (shows self.now) }
        ensures sound { is_sound (shows self.now) };

    /// How many handles would be live after the call.
    fn live_after(&self, call: &Self::Call) -> u64
        ensures sound { is_sound (shows self.now) }
        ensures after { result ≡ live_after machine (shows self.now) call.now };

    /// Whether no sender is left.
    fn closed(&self) -> bool
        ensures { result ≡ machine.closed (shows self.now) };

    /// A sound picture is seen of the state that remembers no more.
    ghost whole_ok: { (p : Self.State) → is_sound p
        → is_proper (machine.whole p) × (machine.see (machine.whole p) ≡ p) };

    /// The machine's step stays within its states.
    ghost step_ok: { (e : Endless) (c : Self.Call) → is_proper e
        → is_proper (machine.step e c).1 };

    /// The answer from a picture is the machine's step, seen.
    ghost answer_ok: { (e : Endless) (c : Self.Call) → is_proper e
        → machine.answer (machine.see e) c
        ≡ ((machine.step e c).0, machine.see (machine.step e c).1) };

    /// A call that spends a handle takes no memory.
    ghost spends_ok: { (p : Self.State) (c : Self.Call) → is_sound p
        → live_after machine p c < machine.live p → takes_none c };
}

/// One event, with what its log keeps of it. It is drawn into each place that calls it, and knows the call there.
#[inline(always)]
pub(crate) fn noted<O: Object>(
    object: &mut O,
    call: O::Call,
) -> Result<Event<O::Call, O::Reply>, Short<O::Call>>
    requires { O.lawful }
    ensures step { IfOk result (λ e.
        O.machine.answer (O.shows object.old) call ≡ (e.reply, O.shows object.new)) }
    ensures call { IfOk result (λ e. e.call ≡ call) }
    ensures entry { IfOk result (λ e. e.entry ≡ (call, e.reply)) }
    ensures short { IfErr result (λ short.
        (short.call ≡ call) × (O.shows object.new ≡ O.shows object.old)) }
    ensures always { O.takes_none call → IsOk result }
{
    let Ok(kept) = O::copy_call(&call) else {
        return Err(Short { call });
    };
    let Ok(told) = O::copy_call(&call) else {
        return Err(Short { call });
    };
    let Ok(foreseen) = object.foresee(&call) else {
        return Err(Short { call });
    };
    match object.apply(call) {
        Ok(reply) => Ok(Event {
            entry: (kept, foreseen),
            call: told,
            reply,
        }),
        Err(short) => Err(short),
    }
}

/// One event, with what its log keeps of it and nothing else: one copy of the call. It is drawn into each place that
/// calls it, and knows the call there.
#[inline(always)]
pub(crate) fn kept<O: Object>(
    object: &mut O,
    call: O::Call,
) -> Result<(O::Call, O::Reply), Short<O::Call>>
    requires { O.lawful }
    ensures step { IfOk result (λ entry.
        O.machine.answer (O.shows object.old) call ≡ (entry.1, O.shows object.new)) }
    ensures call { IfOk result (λ entry. entry.0 ≡ call) }
    ensures short { IfErr result (λ short.
        (short.call ≡ call) × (O.shows object.new ≡ O.shows object.old)) }
    ensures always { O.takes_none call → IsOk result }
{
    let Ok(copy) = O::copy_call(&call) else {
        return Err(Short { call });
    };
    match object.apply(call) {
        Ok(reply) => Ok((copy, reply)),
        Err(short) => Err(short),
    }
}

/// An object whose calls, replies and pictures are compared.
pub trait Compared: Object {
    /// What the test of calls tells.
    ghost call_eq: { Self.Call → Self.Call → Bool };

    /// What the test of replies tells.
    ghost reply_eq: { Self.Reply → Self.Reply → Bool };

    /// What the tests ask of the values' type: that its test of equality is exact.
    ghost exact: { Type 0 };

    /// Whether it is the same call.
    fn same_call(one: &Self::Call, other: &Self::Call) -> bool
        ensures { result ≡ call_eq one.now other.now };

    /// Whether it is the same reply.
    fn same_reply(one: &Self::Reply, other: &Self::Reply) -> bool
        ensures { result ≡ reply_eq one.now other.now };

    /// Whether it is the same picture.
    fn same_state(one: &Self::State, other: &Self::State) -> bool
        requires { exact }
        ensures { IsTrue result ↔ (one.now ≡ other.now) };

    /// A law, and no work: the tests of calls and replies are exact.
    fn are_exact()
        requires { exact }
        ensures calls { IsExact call_eq }
        ensures replies { IsExact reply_eq };
}
