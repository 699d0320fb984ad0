//! Calls of a channel of either kind, with their replies as C sees them.
ghost use Rattle.std.specs.Prelude.{◌≡◌, IfOk, IsOk, OnErr};
ghost use Rattle.th_c.specs.Outcomes.{Answers, Records};
ghost use Rattle.th_c.specs.declared.reply.Reply.{Reply};

use crate::outcome::{Refusal, Told};
use crate::reply::Reply;
use th_log::Kind;
use th_model::Short;
use th_registry::NoEvent;
use th_registry::recorded::Recorded;

/// A kind of channel whose replies go to C.
pub trait Tells: Kind {
    /// What has to be known before a call, to say how many values it lets go of.
    type Note: Drop;

    /// What C is told of a call in a channel that looks so.
    ghost tells: { Self.State → Self.Call → Reply };

    /// The note of a call in a channel that looks so.
    ghost noted: { Self.State → Self.Call → Self.Note };

    /// The calls that are answered without memory, in a channel that looks so.
    ghost takes_none_now: { Self.State → Self.Call → Type 0 };

    /// Makes the call. Where memory is refused, nothing has changed.
    fn make(&mut self, call: Self::Call) -> Result<Self::Reply, Short<Self::Call>>
        requires { Self.lawful }
        ensures step { IfOk result (λ reply.
            Self.machine.answer (Self.shows self.old) call ≡ (reply, Self.shows self.new)) }
        ensures short { OnErr result (Self.shows self.new ≡ Self.shows self.old) }
        ensures always { takes_none_now (Self.shows self.old) call → IsOk result };

    /// What has to be known before the call.
    fn note(&self, call: &Self::Call) -> Self::Note
        ensures { result ≡ noted (Self.shows self.now) call.now };

    /// What C is told of the reply, in a channel as it is after the call.
    fn told(&self, note: Self::Note, reply: &Self::Reply) -> Reply
        ensures { (before : Self.State) (call : Self.Call) → Self.is_sound before
            → note ≡ noted before call
            → Self.machine.answer before call ≡ (reply.now, Self.shows self.now)
            → result ≡ tells before call };
}

/// Makes a call of a channel that keeps no history.
#[inline(always)]
pub(crate) fn answered<O: Tells>(channel: &mut O, call: O::Call) -> Told
    requires { O.lawful }
    ensures { Answers O.machine O.tells O.takes_none_now
        (O.shows channel.old) call result (O.shows channel.new) }
{
    if !channel.ready(&call) {
        return Err(Refusal::WouldWait);
    }
    // Its contract says that the picture is sound.
    let _live = channel.live();
    let note = channel.note(&call);
    match channel.make(call) {
        Ok(reply) => Ok(channel.told(note, &reply)),
        Err(_) => Err(Refusal::NoMemory),
    }
}

/// Makes a call of a channel that keeps its history.
#[inline(always)]
pub(crate) fn recorded<O: Tells>(channel: &mut Recorded<O>, call: O::Call) -> Told
    requires { O.lawful }
    ensures { Records O.machine O.tells channel.old call result channel.new }
{
    if !channel.object().ready(&call) {
        return Err(Refusal::WouldWait);
    }
    // Its contract says that the picture is sound.
    let _live = channel.object().live();
    let note = channel.object().note(&call);
    match channel.record(call) {
        Ok(receipt) => Ok(channel.object().told(note, receipt.reply())),
        Err(NoEvent::LogFull) => Err(Refusal::LogFull),
        Err(NoEvent::Short) => Err(Refusal::NoMemory),
        Err(_) => unreachable!(),
    }
}
