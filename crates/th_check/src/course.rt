//! A channel that goes through the entries of a trace again.
ghost use Rattle.std.specs.Prelude.{◌≡◌, ◌+◌, ℕ, IfErr, IfOk};
ghost use Rattle.th_traces.specs.Entries.{end_of};
ghost use Rattle.th_check.specs.Judging.{EndsAt, IsFrom, IsShown, Shows, TurnsTo, seen, taken, unbegun};
ghost use Rattle.th_check.specs.Stages.{CallDue, IsKnown, ReplyDue, Stage, words_of};

use crate::fault::Stop;
use crate::judged::{JudgedCall, another};
use std::alloc::Global;
use std::mem::replace;
use th_bcast::Broadcast;
use th_lines::LineFault;
use th_log::{MOST_ENTRIES, Object};
use th_model::Value;
use th_ring::RingShelf;
use th_traces::read_end;
use th_watch::Watch;

/// A broadcast channel of values, over a ring.
pub type RingBroadcast = Broadcast<Value, RingShelf<Value>>;

/// A watch channel of values.
pub type ValueWatch = Watch<Value>;

/// How far the entries of a trace were judged, with the channel that goes through them again.
#[derive(Drop)]
pub struct Course<O, C> {
    // The channel after the entries that were judged.
    pub(crate) channel: O,
    // So many entries were begun: each call that was read adds one.
    pub(crate) count: u64,
    // What the next line has to be. It is taken out while a line is judged.
    pub(crate) due: Due<C>,
}

/// What the next line of a trace has to be, below its picture.
#[derive(Drop)]
pub enum Due<C> {
    /// A call, or the end line.
    Call,
    /// The reply to this call.
    Reply(C),
    /// None: the trace has ended.
    Nothing,
}

// The channel that looks like a picture, before the entries of its trace; beside it the picture, as it is kept.
pub(crate) fn begin<C: JudgedCall, K: Object<Call = C, Reply = C::Reply>>(
    alloc: Global,
    picture: K::State,
) -> Result<(K::State, Course<K, C>), Stop>
    requires lawful { K.lawful }
    requires sound { K.is_sound picture }
    ensures kept { IfOk result (λ begun. IsFrom K.is_sound picture begun.0) }
    ensures begun { IfOk result (λ begun. seen K.shows begun.1 ≡ unbegun picture) }
    ensures short { IfErr result (λ why. why ≡ Stop.Short) }
{
    let Ok(channel) = K::resume(alloc, picture) else {
        return Err(Stop::Short);
    };
    // What is true of every channel's picture is said here.
    let _live = channel.live();
    let Ok(from) = channel.picture(alloc) else {
        return Err(Stop::Short);
    };
    let course = Course {
        channel,
        count: 0,
        due: Due::Call,
    };
    Ok((from, course))
}

// Judges one more line, without its line end. The course goes on in place.
#[inline(always)]
pub(crate) fn take_line<C: JudgedCall, K: Object<Call = C, Reply = C::Reply>>(
    alloc: Global,
    form: C::Form,
    course: &mut Course<K, C>,
    line: &[u8],
) -> Result<(), Stop>
    requires lawful { K.lawful }
    requires known { IsKnown K.machine C.answers }
    ensures { (stage : Stage K.Endless C)
        → Shows K.machine K.is_proper stage (seen K.shows course.old)
        → TurnsTo K.machine K.is_proper (words_of C.grammar C.told form)
        stage line.now (taken result (seen K.shows course.new)) }
{
    match replace(&mut course.due, Due::Nothing) {
        Due::Call => take_call(alloc, form, course, line),
        Due::Reply(call) => take_reply(course, call, line),
        Due::Nothing => Err(Stop::Bad),
    }
}

// Judges a line where a call is due, or the end line.
fn take_call<C: JudgedCall, K: Object<Call = C, Reply = C::Reply>>(
    alloc: Global,
    form: C::Form,
    course: &mut Course<K, C>,
    line: &[u8],
) -> Result<(), Stop>
    requires { course.old.due ≡ Due.Nothing }
    ensures { (state : K.Endless)
        → IsShown K.machine K.is_proper state (K.shows course.old.channel)
        → TurnsTo K.machine K.is_proper (words_of C.grammar C.told form)
        (CallDue state course.old.count) line.now (taken result (seen K.shows course.new)) }
{
    let call = match C::read_call(alloc, form, line) {
        Ok(call) => call,
        Err(LineFault::BadLine) => return take_end(course.count, line),
        Err(LineFault::Short) => return Err(Stop::Short),
    };
    if course.count >= MOST_ENTRIES {
        return Err(Stop::Bad);
    }
    course.count += 1;
    course.due = Due::Reply(call);
    Ok(())
}

// Judges a line that is no call, where the end line is due.
fn take_end(count: u64, line: &[u8]) -> Result<(), Stop>
    ensures { EndsAt count (end_of line.now) result }
{
    let Some(told) = read_end(line) else {
        return Err(Stop::Bad);
    };
    if told != count {
        return Err(Stop::Bad);
    }
    Ok(())
}

// Judges a line where the reply to this call is due, by which there are so many entries. The channel's own
// reply is compared as it is spelled; of another line only its form is asked.
fn take_reply<C: JudgedCall, K: Object<Call = C, Reply = C::Reply>>(
    course: &mut Course<K, C>,
    call: C,
    line: &[u8],
) -> Result<(), Stop>
    requires lawful { K.lawful }
    requires known { IsKnown K.machine C.answers }
    ensures { (form : C.Form) (state : K.Endless) (before : ℕ)
        → IsShown K.machine K.is_proper state (K.shows course.old.channel)
        → course.old.count ≡ before + 1
        → TurnsTo K.machine K.is_proper (words_of C.grammar C.told form)
        (ReplyDue state before call) line.now (taken result (seen K.shows course.new)) }
{
    let gives = call.gives_value();
    if !course.channel.ready(&call) {
        return Err(another::<C>(gives, line, C::tell_none()));
    }
    let Ok(reply) = course.channel.apply(call) else {
        return Err(Stop::Short);
    };
    C::judge_reply(gives, line, reply)?;
    course.due = Due::Call;
    Ok(())
}
