//! The lines of a trace, as they come, and what they were judged to be.
ghost use Rattle.std.specs.Prelude.{◌≡◌, ℕ, ◌<◌, ◌≤◌, ◌+◌, ◌-◌, ◌^◌, IfErr, IfOk};
ghost use Rattle.th_lines.specs.Feeding.{beginning, failures_by};
ghost use Rattle.th_traces.specs.declared.place.Place.TheVariants.{Nothing};
ghost use Rattle.th_check.specs.declared.point.Spot.TheVariants as spot;
ghost use Rattle.th_check.specs.Checked.{Checked, Stopped, failures_of, within_most};
ghost use Rattle.th_check.specs.Judging.{Concludes, EndSays, Holds, IsHeldAfter};
ghost use Rattle.th_check.specs.Points.{Point};

use crate::fault::{CheckFault, Expected, Stop};
use crate::point::{Spot, ended_with, take_line};
use crate::verdict::Verdict;
use std::alloc::{AllocError, Global};
use std::io::Read;
use th_lines::{Counted, Fed, Feeder, MOST_READS, TakesLines};
use th_traces::Draft;

/// More lines than any check has, since each has a byte.
const NO_BOUND: u64 = u64::MAX - 1;

/// A trace that was judged.
#[derive(Drop)]
pub struct Checker {
    // What the lines that were judged led to.
    pub(crate) spot: Spot,
    // What was read.
    pub(crate) feeder: Feeder,
    // How many of its lines were judged.
    pub(crate) judged: u64,
    // The channel's own reply, where a line with another one has stopped the check.
    pub(crate) expected: Option<Expected>,
}

impl TakesLines<(), ()> for Spot {
    ghost use Rattle.th_check.specs.Judging.{Halts, IsReached, Passes};

    type Stop = Stop;

    ghost took = { Passes };

    ghost halts = { Halts };

    ghost is_settled = { IsReached };

    fn settle(&mut self, _desk: &mut (), _writer: &mut (), _taken: u64) -> Result<(), Stop> {
        Ok(())
    }

    // Judges a line.
    #[inline(always)]
    fn take(
        &mut self,
        alloc: Global,
        _desk: &mut (),
        _writer: &mut (),
        _taken: u64,
        line: Option<&[u8]>,
    ) -> Result<(), Stop> {
        take_line(alloc, self, line)
    }
}

impl Checker {
    // Before the first line. It makes the buffer for what comes.
    fn new(alloc: Global) -> Result<Checker, AllocError>
        ensures { IfOk result (λ c.
            (c.spot ≡ spot.InPicture Nothing) × (c.feeder ≡ beginning (2 ^ 64 - 2))) }
    {
        let feeder = Feeder::new(alloc, NO_BOUND)?;
        Ok(Checker {
            spot: Spot::InPicture(Draft::new()),
            feeder,
            judged: 0,
            expected: None,
        })
    }

    // The line that was judged last; `None` where it is too long.
    pub fn line(&self) -> Option<&[u8]> {
        self.feeder.line()
    }

    // Reads and judges, by at most so many reads.
    fn run<R: Read>(
        &mut self,
        alloc: Global,
        reader: &mut Counted<R>,
        reads: u64,
    ) -> Result<Verdict, CheckFault>
        requires spot { self.old.spot ≡ spot.InPicture Nothing }
        requires feeder { self.old.feeder ≡ beginning (2 ^ 64 - 2) }
        requires reads { reads ≤ 2 ^ 32 }
        ensures verdict { IfOk result (λ said. Checked
            (R.remaining reader.old.device) (R.remaining reader.new.device) said) }
        ensures held { IfOk result (λ said. IsHeldAfter
            (R.remaining reader.old.device) (R.remaining reader.new.device) said self.new.spot) }
        ensures fault { IfErr result (λ e. Stopped
            (R.remaining reader.old.device) (R.remaining reader.new.device)
            reader.old.calls reader.new.calls reads e) }
        ensures reads { reader.new.calls ≤ reader.old.calls + reads }
        ensures reader { reader.new.failures ≡ failures_of reader.old.failures result }
    {
        let Checker { spot, feeder, .. } = self;
        let fed = feeder.feed(spot, alloc, &mut (), &mut (), reader, reads);
        self.judged = self.feeder.taken();
        match conclude(fed, &self.spot, self.judged) {
            Ok((verdict, expected)) => {
                self.expected = expected;
                Ok(verdict)
            }
            Err(fault) => Err(fault),
        }
    }
}

// The verdict at the end of the input, once so many lines lead on.
fn verdict(spot: &Spot, judged: u64) -> Verdict
    requires { judged + 1 < 2 ^ 64 }
    ensures { (here : Point) → Holds here spot.now → EndSays here judged result }
{
    match ended_with(spot) {
        Some(count) => Verdict::Legal(count),
        None => Verdict::BadTrace(judged + 1),
    }
}

// What comes of a check, by why no further line is fed, and the reply that was expected, if one was.
fn conclude(
    fed: Fed<Stop>,
    spot: &Spot,
    judged: u64,
) -> Result<(Verdict, Option<Expected>), CheckFault>
    requires { fed ≡ Fed.Ended → judged + 1 < 2 ^ 64 }
    ensures concludes { Concludes fed spot.now judged result }
    ensures failures { (n : ℕ) → failures_by n fed ≡ failures_of n result }
{
    match fed {
        Fed::Ended => Ok((verdict(spot, judged), None)),
        Fed::Stopped(Stop::Bad) => Ok((Verdict::BadTrace(judged), None)),
        Fed::Stopped(Stop::Illegal(expected)) => Ok((Verdict::Illegal(judged), Some(expected))),
        Fed::Stopped(Stop::Short) => Err(CheckFault::Short),
        Fed::Failed => Err(CheckFault::Read),
        Fed::Full | Fed::Spent => Err(CheckFault::TooLong),
    }
}

// Checks a trace by at most so many reads, and answers also how it was judged.
pub fn judge<R: Read>(
    alloc: Global,
    reader: &mut Counted<R>,
    reads: u64,
) -> Result<(Verdict, Checker), CheckFault>
    ensures verdict { IfOk result (λ said. Checked
        (R.remaining reader.old.device) (R.remaining reader.new.device) said.0) }
    ensures held { IfOk result (λ said. IsHeldAfter
        (R.remaining reader.old.device) (R.remaining reader.new.device) said.0 said.1.spot) }
    ensures fault { IfErr result (λ e. Stopped
        (R.remaining reader.old.device) (R.remaining reader.new.device)
        reader.old.calls reader.new.calls (within_most reads) e) }
    ensures reads { reader.new.calls ≤ reader.old.calls + within_most reads }
    ensures reader { reader.new.failures ≡ failures_of reader.old.failures result }
{
    let Ok(mut checker) = Checker::new(alloc) else {
        return Err(CheckFault::Short);
    };
    match checker.run(alloc, reader, reads.min(MOST_READS)) {
        Ok(verdict) => Ok((verdict, checker)),
        Err(fault) => Err(fault),
    }
}
