//! A channel with its history, at a desk of one thread.
ghost use Rattle.std.specs.Prelude.{◌≡◌, ◌↔◌, ◌<◌, ◌≤◌, true, false, IfOk, OnOk, IfErr, IsOk, option_copied};
ghost use Rattle.th_log.specs.History.{IsLimit, last_reply, live_after};
ghost use Rattle.th_registry.specs.History.{cut, is_full, opened, recorded, segment};
ghost use Rattle.th_registry.specs.Receipts.{receipt_of};
ghost use Rattle.th_registry.specs.Refusals.{RefusesEvent};

use crate::outcome::NoEvent;
use std::alloc::Global;
use std::marker::Model;
use th_log::{Kind, Logged, MakeFault, Object, Receipt, Refused, Segment};
use th_model::Short;
use th_seats::Share;

/// A channel, its log, and the one share through which all its events are made: nobody but the desk of its thread calls
/// it.
#[derive(Drop)]
pub struct Recorded<O: Object> {
    // The channel with its log.
    log: Logged<O>,
    // It is of the log's book, and counts each event.
    share: Share,
}

impl<O: Object> Model for Recorded<O> {
    ghost use Rattle.std.specs.Prelude.{◌≡◌, ◌≤◌};
    ghost use Rattle.th_registry.specs.History.{History, history_of};

    ghost Value = { History O.State O.State O.Call O.Reply };

    ghost view = { λ r. history_of r.log };

    ghost invariant = { λ r.
        (r.share.key ≡ r.log.tally.key) × (r.share.count ≤ r.log.tally.total) };
}

impl<O: Object> Recorded<O> {
    /// The channel with no event yet. A segment has at most `limit` entries.
    pub fn new(alloc: Global, object: O, limit: u64, key: u64) -> Result<Recorded<O>, MakeFault>
        requires { O.lawful }
        ensures new { IfOk result (λ r. r ≡ opened limit key (O.shows object) (O.shows object)) }
        ensures limit { OnOk result (IsLimit limit (O.machine.live (O.shows object))) }
        ensures bad { IfErr result (λ fault.
            fault ≡ MakeFault.BadLimit ↔ ¬ (IsLimit limit (O.machine.live (O.shows object)))) }
    {
        let (log, share) = Logged::new(alloc, object, limit, key)?;
        Ok(Recorded { log, share })
    }

    /// The channel itself, to be looked at.
    pub fn object(&self) -> &O
        ensures { O.shows result.now ≡ self.now.state }
    {
        self.log.object()
    }

    /// What the last event of the segment was answered, if there was one.
    #[inline(always)]
    pub fn last_reply(&self) -> Option<&O::Reply>
        ensures { option_copied result ≡ last_reply self.now.entries }
    {
        self.log.last_reply()
    }

    /// Hands out the segment so far, and begins the next one.
    pub fn cut(&mut self) -> Result<Segment<O>, Short<()>>
        requires { O.lawful }
        ensures segment { IfOk result (λ s. s ≡ segment self.old self.old.state) }
        ensures next { OnOk result (self.new ≡ cut self.old self.old.state) }
        ensures same { IfErr result (λ short. self.new ≡ self.old) }
    {
        // What is kept of every log is said here.
        let _entries = self.log.len();
        self.log.cut()
    }
}

impl<O: Kind> Recorded<O> {
    /// Makes one event, and one entry of it: `LogFull` exactly where there is no room for it beside the entries that
    /// spend the handles live then, else `Short` where memory is refused. A call that spends a live handle is neither.
    pub fn record(&mut self, call: O::Call) -> Result<Receipt<O>, NoEvent>
        requires lawful { O.lawful }
        requires ready { O.machine.ready self.old.state call ≡ true }
        ensures event { IfOk result (λ receipt.
            recorded self.old call (O.machine.answer self.old.state call)
            ≡ (receipt.reply, self.new)) }
        ensures receipt { IfOk result (λ receipt.
            receipt ≡ receipt_of self.old call receipt.reply) }
        ensures room { OnOk result
            (is_full self.old (live_after O.machine self.old.state call) ≡ false) }
        ensures refused { IfErr result (λ why. RefusesEvent self.old self.new
            (live_after O.machine self.old.state call) why) }
        ensures spends { live_after O.machine self.old.state call < O.machine.live self.old.state
            → IsOk result }
    {
        // What is kept of every log is said here.
        let _entries = self.log.len();
        let _number = self.log.key();
        match self.log.apply(&mut self.share, call) {
            Ok(receipt) => Ok(receipt),
            Err(Refused::LogFull(_)) => Err(NoEvent::LogFull),
            Err(Refused::Short(_)) => Err(NoEvent::Short),
            Err(Refused::Foreign(_)) => unreachable!(),
        }
    }

    /// As [`Recorded::record`], for whoever keeps no receipt: the reply stands in the last entry.
    #[inline(always)]
    pub fn keep(&mut self, call: O::Call) -> Result<(), NoEvent>
        requires lawful { O.lawful }
        requires ready { O.machine.ready self.old.state call ≡ true }
        ensures event { let s = O.machine.answer self.old.state call in
            OnOk result (recorded self.old call s ≡ (s.0, self.new)) }
        ensures room { OnOk result
            (is_full self.old (live_after O.machine self.old.state call) ≡ false) }
        ensures refused { IfErr result (λ why. RefusesEvent self.old self.new
            (live_after O.machine self.old.state call) why) }
    {
        // What is kept of every log is said here.
        let _entries = self.log.len();
        let _number = self.log.key();
        match self.log.keep(&mut self.share, call) {
            Ok(()) => Ok(()),
            Err(Refused::LogFull(_)) => Err(NoEvent::LogFull),
            Err(Refused::Short(_)) => Err(NoEvent::Short),
            Err(Refused::Foreign(_)) => unreachable!(),
        }
    }
}
