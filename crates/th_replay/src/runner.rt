//! A schedule that is being carried out.
ghost use Rattle.std.specs.Prelude.{◌≡◌, ◌≤◌, ◌+◌, ℕ, IfOk};
ghost use Rattle.th_lines.specs.Feeding as feeding;
ghost use Rattle.th_lines.specs.Feeding.{failures_by};
ghost use Rattle.th_replay.specs.Outcome.{Comes, devices, reader_failures, writer_failures};
ghost use Rattle.th_replay.specs.Progress.{beginning, end_by, may_wait};
ghost use Rattle.th_replay.specs.Schedule.{answers, seen_start};

use crate::actors::Hub;
use crate::fault::ReplayFault;
use std::alloc::{AllocError, Global};
use std::io::{Read, Write};
use std::marker::Model;
use th_lines::{Counted, Fed, Feeder, TakesLines, WriteBuffer, WriteFailed};

/// The hub of a schedule, and the replies that wait to be written.
///
/// To let go of it gives back the memory of each event in turn. A program that ends with its schedule may forget it
/// (`std::mem::forget`): the end of its process gives back all at once.
#[derive(Drop)]
pub struct Runner {
    // The topics and the actors. Each line that is answered changes them.
    hub: Hub,
    // The answers' texts that are not written yet.
    out: WriteBuffer,
}

impl Model for Runner {
    ghost use Rattle.th_replay.specs.Progress.{Progress};

    ghost Value = { Progress };

    ghost view = { λ r. record { hub = r.hub; waiting = r.out } };
}

impl<W: Write> TakesLines<(), Counted<W>> for Runner {
    ghost use Rattle.std.specs.Prelude.{◌≡◌, []};
    ghost use Rattle.th_replay.specs.Progress.{IsBroken, Took};

    type Stop = WriteFailed;

    ghost took = { Took W.contents };

    ghost halts = { IsBroken W.contents };

    ghost is_settled = { λ p. p.0.waiting ≡ [] };

    // Writes all replies that wait, and flushes the writer.
    fn settle(
        &mut self,
        _desk: &mut (),
        writer: &mut Counted<W>,
        _taken: u64,
    ) -> Result<(), WriteFailed> {
        self.out.flush(writer)
    }

    // Answers a line.
    #[inline(always)]
    fn take(
        &mut self,
        alloc: Global,
        _desk: &mut (),
        writer: &mut Counted<W>,
        _taken: u64,
        line: Option<&[u8]>,
    ) -> Result<(), WriteFailed> {
        self.hub.answer(alloc, line, &mut self.out, writer)
    }
}

impl Runner {
    /// With an empty hub. It makes the buffer of the replies.
    pub(crate) fn new(alloc: Global) -> Result<Runner, AllocError>
        ensures { IfOk result (λ r. r ≡ beginning) }
    {
        let hub = Hub::new(alloc)?;
        let out = WriteBuffer::new(alloc)?;
        Ok(Runner { hub, out })
    }

    /// Reads on to the end of the input by at most so many reads, answers the lines as they come, and answers how many
    /// they were. Before each read all replies are written.
    pub(crate) fn run<R: Read, W: Write>(
        &mut self,
        feeder: &mut Feeder,
        alloc: Global,
        reader: &mut Counted<R>,
        writer: &mut Counted<W>,
        reads: u64,
    ) -> Result<u64, ReplayFault>
        requires run { self.old ≡ beginning }
        requires feeder { feeder.old ≡ feeding.beginning feeder.old.limit }
        ensures comes { Comes answers seen_start feeder.old.limit reads
            (devices R.remaining reader.old W.contents writer.old)
            (devices R.remaining reader.new W.contents writer.new) result }
        ensures reads { reader.new.calls ≤ reader.old.calls + reads }
        ensures reader { reader.new.failures ≡ reader_failures reader.old.failures result }
        ensures writer { writer.new.failures ≡ writer_failures writer.old.failures result }
    {
        let fed = feeder.feed(self, alloc, &mut (), writer, reader, reads);
        let end = end_by(fed, feeder.taken());
        if !may_wait(&end) {
            return end;
        }
        match self.out.flush(writer) {
            Ok(()) => end,
            Err(_) => Err(ReplayFault::Write),
        }
    }
}

// What comes of a run after so many lines, by why no further line is fed.
fn end_by(fed: Fed<WriteFailed>, count: u64) -> Result<u64, ReplayFault>
    ensures end { result ≡ end_by fed count }
    ensures reader { (n : ℕ) → failures_by n fed ≡ reader_failures n result }
{
    match fed {
        Fed::Ended => Ok(count),
        Fed::Stopped(_) => Err(ReplayFault::Write),
        Fed::Failed => Err(ReplayFault::Read),
        Fed::Full | Fed::Spent => Err(ReplayFault::TooLong),
    }
}

// Whether replies may wait still where a run ended so.
fn may_wait(end: &Result<u64, ReplayFault>) -> bool
    ensures { result ≡ may_wait end.now }
{
    match end {
        Ok(_) => true,
        Err(ReplayFault::TooLong) => true,
        Err(_) => false,
    }
}
