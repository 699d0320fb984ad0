//! Traces that are one history, checked one after the other.
ghost use Rattle.std.specs.Prelude.{◌≡◌, ◌↔◌, ◌+◌, ◌≤◌, ◌^◌, IfErr, IfOk, IsTrue, None, OnErr, Some, false, true};
ghost use Rattle.th_check.specs.Checked.{Stopped, failures_of};
ghost use Rattle.th_check.specs.Explaining.{ExplainsNext};
ghost use Rattle.th_check.specs.Joined.{BeginsAt, Joins, is_first, is_opened, is_opening, is_over, is_spent, reach_by};
ghost use Rattle.th_check.specs.Spans.{IsEnded, IsSpan};

use crate::checker::judge;
use crate::course::{RingBroadcast, ValueWatch};
use crate::explain::explain;
use crate::fault::CheckFault;
use crate::point::Spot;
use crate::verdict::Verdict;
use std::alloc::Global;
use std::io::Read;
use std::marker::Model;
use th_lines::{Counted, MOST_READS};
use th_log::{Compared, Object};
use th_traces::Picture;

/// What a check says of a text that comes next in a history.
#[derive(Clone, Copy, Debug, Drop, PartialEq, Eq)]
pub enum Joined {
    /// What is said of it alone. Where it is legal, it begins where the history has ended.
    Judged(Verdict),
    /// It is legal, and begins elsewhere.
    Apart,
}

/// The pictures at which the entries of a trace begin and end.
#[derive(Drop)]
struct Span {
    from: Picture,
    to: Picture,
}

/// A history whose texts are checked one after the other. It keeps the picture at which it has ended: its memory does not
/// grow with the texts or their entries.
#[derive(Drop)]
pub struct Joining {
    // Whether its channel was just opened where it begins. It says nothing before the first text.
    is_opened: bool,
    // Where the history has ended; none before its first text.
    end: Option<Picture>,
}

impl Model for Joining {
    ghost use Rattle.std.specs.Prelude.{Option};
    ghost use Rattle.th_check.specs.Joined.{Reach, reach_of};

    ghost Value = { Option Reach };

    ghost view = { λ j. reach_of j.is_opened j.end };
}

// Whether so many live handles, the next of which gets this number, are one sender that is the only one ever made.
fn is_first(senders: usize, receivers: usize, next: u64) -> bool
    ensures { result ≡ is_first senders receivers next }
{
    senders == 1 && receivers == 0 && next == 2
}

// Whether the channel was just opened.
fn is_opening(picture: &Picture) -> bool
    ensures { result ≡ is_opening picture.now }
{
    match picture {
        Picture::Broadcast(parts) => is_first(
            parts.senders().len(),
            parts.window().places().len(),
            parts.next_number(),
        ),
        Picture::Watch(parts) => {
            is_first(
                parts.senders().len(),
                parts.readers().len(),
                parts.next_number(),
            ) && parts.version() == 1
        }
    }
}

// Whether no handle of the channel is live.
fn is_spent(picture: &Picture) -> bool
    ensures { result ≡ is_spent picture.now }
{
    match picture {
        Picture::Broadcast(parts) => {
            parts.senders().is_empty() && parts.window().places().is_empty()
        }
        Picture::Watch(parts) => parts.senders().is_empty() && parts.readers().is_empty(),
    }
}

// Whether it is the same picture.
fn is_same(one: &Picture, other: &Picture) -> bool
    ensures { IsTrue result ↔ (one.now ≡ other.now) }
{
    match (one, other) {
        (Picture::Broadcast(one), Picture::Broadcast(other)) => {
            RingBroadcast::same_state(one, other)
        }
        (Picture::Watch(one), Picture::Watch(other)) => ValueWatch::same_state(one, other),
        _ => false,
    }
}

// The pictures of a trace that has ended.
fn ends_of(alloc: Global, spot: Spot) -> Result<Span, CheckFault>
    requires ended { IsEnded spot }
    ensures span { IfOk result (IsSpan spot) }
    ensures short { IfErr result (λ fault. fault ≡ CheckFault.Short) }
{
    match spot {
        Spot::InPicture(_) => unreachable!(),
        Spot::InBroadcast(_version, from, course) => match course.channel.picture(alloc) {
            Ok(to) => Ok(Span {
                from: Picture::Broadcast(from),
                to: Picture::Broadcast(to),
            }),
            Err(_) => Err(CheckFault::Short),
        },
        Spot::InWatch(from, course) => match course.channel.picture(alloc) {
            Ok(to) => Ok(Span {
                from: Picture::Watch(from),
                to: Picture::Watch(to),
            }),
            Err(_) => Err(CheckFault::Short),
        },
    }
}

impl Joining {
    /// A history without a text yet.
    pub fn new() -> Joining
        ensures { result ≡ None }
    {
        Joining {
            is_opened: false,
            end: None,
        }
    }

    /// Whether the history begins with the picture of a channel that was just opened. One without a text has not begun.
    pub fn is_opened(&self) -> bool
        ensures { result ≡ is_opened self.now }
    {
        self.end.is_some() && self.is_opened
    }

    /// Whether the history has ended with no live handle. One without a text has not.
    pub fn is_over(&self) -> bool
        ensures { result ≡ is_over self.now }
    {
        match &self.end {
            Some(end) => is_spent(end),
            None => false,
        }
    }

    // Whether a part with these pictures begins where the history has ended. Then the history ends where the part does.
    fn takes(&mut self, span: Span) -> bool
        ensures on { result ≡ true → BeginsAt self.old span.from
            × (self.new ≡ Some (reach_by self.old span.from span.to)) }
        ensures apart { result ≡ false →
            (BeginsAt self.old span.from → ⊥) × (self.new ≡ self.old) }
    {
        match &self.end {
            Some(end) => {
                if !is_same(&span.from, end) {
                    return false;
                }
            }
            None => self.is_opened = is_opening(&span.from),
        }
        self.end = Some(span.to);
        true
    }

    /// Checks the trace that the reader tells as the next part of the history, by at most 2^32 reads: first by itself, as
    /// [`check`](crate::check) does, and where it is legal, whether it begins with the picture at which the history has
    /// ended. If so, the history ends where the trace does; else, and at a fault, it is as before. What is wrong with
    /// a trace that is not legal is appended to the text, as [`check_explained`](crate::check_explained) does.
    ///
    /// # Errors
    ///
    /// Those of [`check_bounded`](crate::check_bounded); `Short` also where there is no memory for the two pictures.
    pub fn add<R: Read>(
        &mut self,
        alloc: Global,
        reader: &mut Counted<R>,
        text: &mut Vec<u8>,
    ) -> Result<Joined, CheckFault>
        ensures joins { IfOk result (λ said. Joins
            (R.remaining reader.old.device) (R.remaining reader.new.device)
            self.old said self.new) }
        ensures fault { IfErr result (λ e. Stopped
            (R.remaining reader.old.device) (R.remaining reader.new.device)
            reader.old.calls reader.new.calls (2 ^ 32) e) }
        ensures reads { reader.new.calls ≤ reader.old.calls + 2 ^ 32 }
        ensures reader { reader.new.failures ≡ failures_of reader.old.failures result }
        ensures text { IfOk result (λ said. ExplainsNext said text.old.items text.new.items) }
        ensures same { OnErr result (self.new ≡ self.old) }
        ensures silent { OnErr result (text.new ≡ text.old) }
    {
        let (verdict, checker) = match judge(alloc, reader, MOST_READS) {
            Ok(judged) => judged,
            Err(fault) => return Err(fault),
        };
        let Verdict::Legal(_) = verdict else {
            explain(alloc, &checker, verdict, text);
            return Ok(Joined::Judged(verdict));
        };
        let span = match ends_of(alloc, checker.spot) {
            Ok(span) => span,
            Err(fault) => return Err(fault),
        };
        if self.takes(span) {
            Ok(Joined::Judged(verdict))
        } else {
            Ok(Joined::Apart)
        }
    }
}
