//! What a session does only while it owes nobody a wake: who waits for what it did is not to wait for this too.
ghost use Rattle.std.specs.Prelude.{◌≡◌, false, true};
ghost use Rattle.th_lines.specs.Output.{AddsOrFails, Flushes, output};
ghost use Rattle.th_session.specs.Answer.{PutsTold};
ghost use Rattle.th_session.specs.Rows.{told_by};

use crate::answer::append_told;
use crate::session::{Answer, Session};
use std::io::Write;
use std::thread::sleep;
use std::time::{Clock, Duration};
use th_lines::{Counted, WriteBuffer, WriteFailed};
use th_registry::Desk;
use th_registry::channel::TopicReceipt;

/// Wakes who is owed it, where what comes next may take time.
#[inline(always)]
pub(crate) fn pay_if<D: Desk>(desk: &mut D, owed: &mut D::Owed, may_take_time: bool)
    ensures desk { desk.new ≡ desk.old }
    ensures paid { may_take_time ≡ true → D.owes owed.new ≡ false }
{
    if may_take_time {
        desk.wake(owed);
    }
}

/// Sleeps.
pub(crate) fn pause<C: Clock, D: Desk>(clock: &C, time: Duration, _owed: &D::Owed)
    requires paid { D.owes _owed.now ≡ false }
{
    sleep(clock, time);
}

/// Writes all that waits, and flushes the writer.
pub(crate) fn flush<D: Desk, W: Write>(
    waiting: &mut WriteBuffer,
    writer: &mut Counted<W>,
    _owed: &D::Owed,
) -> Result<(), WriteFailed>
    requires paid { D.owes _owed.now ≡ false }
    ensures { Flushes (output W.contents writer.old waiting.old)
        (output W.contents writer.new waiting.new) result }
{
    waiting.flush(writer)
}

/// Puts the text of the answer that the session was given last behind what waits, and may write if it is told so.
#[inline(always)]
pub(crate) fn put_answer<D: Desk, W: Write>(
    session: &Session<D>,
    answer: Answer,
    waiting: &mut WriteBuffer,
    writer: &mut Counted<W>,
    may_write: bool,
    _owed: &D::Owed,
) -> Result<(), WriteFailed>
    requires paid { may_write ≡ true → D.owes _owed.now ≡ false }
    ensures { PutsTold answer session.now
        (output W.contents writer.old waiting.old)
        (output W.contents writer.new waiting.new) result }
{
    session.put_answer(answer, waiting, writer)
}

/// Puts the text of what a topic replied behind what waits, by its receipt, and may write if it is told so.
#[inline(always)]
pub(crate) fn put_told<D: Desk, W: Write>(
    receipt: &TopicReceipt,
    waiting: &mut WriteBuffer,
    writer: &mut Counted<W>,
    may_write: bool,
    _owed: &D::Owed,
) -> Result<(), WriteFailed>
    requires paid { may_write ≡ true → D.owes _owed.now ≡ false }
    ensures { AddsOrFails (told_by receipt.now)
        (output W.contents writer.old waiting.old)
        (output W.contents writer.new waiting.new) result }
{
    append_told(receipt, waiting, writer)
}
