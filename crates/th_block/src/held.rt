//! What a channel's lock keeps.
ghost use Rattle.std.specs.Prelude.{◌≡◌, ◌⊎◌, [], ◌∷◌, ◌++◌, ◌↔◌, ◌||◌, ◌+◌, ◌-◌, ◌^◌, ◌<◌, ◌≤◌, if◌then◌else◌, is_some, length, min, not, true, IfOk, IfErr, IfSome, IsNone, IsOk, None, IsSome, IsTrue, OnOk, OnErr, MatchOption, MatchResult};
ghost use Rattle.th_log.specs.History.{IsLegal, live_after, next_of};
ghost use Rattle.th_log.specs.Outcome.{IsFull, IsSame, added, ticked, with_share};
ghost use Rattle.th_block.specs.Few.{IsFullAtLast};
ghost use Rattle.th_block.specs.Handles.{IsBack, IsFullAsSeen, call_of, unused};
ghost use Rattle.th_block.specs.Locked.{Entered, Fits, GoesOn, HandsOn, HasNoPlace, IsDue, RefusesEvent, Spends, parts_of};
ghost use Rattle.th_block.specs.Returned.{TakesBack};

use crate::account::Account;
use crate::cuts::{Cut, Cuts};
use crate::posted::Posted;
use crate::wake::Wake;
use std::marker::Model;
use std::sync::Arc;
use th_log::{Kind, Logged, MOST_ENTRIES, Object, Receipt, Refused, Segment};
use th_model::Short;
use th_seats::Share;

// Groups of so many events have room in one part.
const UNPARTED: u64 = 1_024;

// From so many events on a log may be full that calls cut: 2^63 - 1 less those that end the handles, and the next one.
const NEARLY_ALL: u64 = 9_223_372_036_854_644_737;

/// A channel with its log and its pen, and whether anyone waits for it. Contracts see the log, and how many wait: what
/// the pen says of the log is kept by `Posted`.
///
/// Nothing else of this crate touches a log: each of its events is made by `event` or `last_event`.
#[derive(Drop)]
pub(crate) struct Held<O: Object> {
    // The channel with its log, and the pen of its word.
    posted: Posted<O>,
    // How many callers looked at the channel in vain since they were last woken. A caller that looks counts himself
    // before he sleeps, and whoever wakes the sleepers begins to count anew: both under the lock, so that no sleeper is
    // left out.
    waiting: u64,
    // From so many entries on the log is long: a call cuts it, where calls do.
    most: u64,
    // The shares of handles that are gone, as one.
    gone: Option<Share>,
}

impl<O: Object> Model for Held<O> {
    ghost use Rattle.th_block.specs.Locked.{Guarded};

    ghost Value = { Guarded O.State O.Call O.Reply };

    ghost view = { λ h. record {
      log = h.posted.log;
      waiting = h.waiting;
      most = h.most;
      gone = h.gone;
    } };
}

impl<O: Kind> Held<O> {
    /// A log for which nobody waits yet, and which is long from so many entries on.
    pub(crate) fn new(posted: Posted<O>, most: u64) -> Held<O>
        ensures { result ≡ record {
          log = posted.log;
          waiting = 0;
          most = most;
          gone = None;
        } }
    {
        Held {
            posted,
            waiting: 0,
            most,
            gone: None,
        }
    }

    /// From now on the log is long from so many entries on.
    pub(crate) fn be_long_from(&mut self, most: u64)
        ensures { self.new ≡ record self.old { most = most } }
    {
        self.most = most;
    }

    // Whether it is as long as it is to grow.
    #[inline(always)]
    fn is_long(&self) -> bool
        ensures { IsTrue result ↔ (self.now.most ≤ length self.now.log.piece.entries) }
    {
        self.posted.log().len() >= self.most
    }

    /// Cuts the log, and the part is to go into this queue, if it is to be cut, or has no room for so many events more, after which
    /// so many handles are live. So a part with no room for them is left only where a new one has none. Nothing has changed where
    /// there was no memory. What was cut is lent a place by the caller: handed back by value it would be moved through memory at
    /// each call, and hardly any call cuts. What lies there already stays, before it.
    #[inline(always)]
    fn make_room(
        &mut self,
        cuts: &Arc<Cuts<O>>,
        is_long: bool,
        count: u64,
        live: u64,
        cut: &mut Option<Cut<O>>,
    ) -> Result<(), Short<()>>
        requires { O.lawful }
        ensures goes_on { GoesOn self.old.log self.new.log }
        ensures part { HandsOn self.old.log.piece cut.old cut.new (λ p. self.new.log.piece ≡ p) }
        ensures room { OnOk result (self.old.log.limit ≡ 1000000
            → IsFull self.new.log count live → HasNoPlace self.old.log count live) }
        ensures long { OnOk result (is_long ≡ true
            → self.new.log.piece ≡ next_of self.old.log.piece self.old.log.tally.total) }
        ensures same { OnErr result (self.new ≡ self.old) }
        ensures last { self.new.log.piece.last ≡ self.old.log.piece.last }
        ensures waiting { self.new.waiting ≡ self.old.waiting }
        ensures most { self.new.most ≡ self.old.most }
        ensures gone { self.new.gone ≡ self.old.gone }
    {
        let entries = self.posted.log().len();
        let room = MOST_ENTRIES.saturating_sub(live).saturating_sub(count);
        if !is_long && entries <= room {
            return Ok(());
        }
        cut_into(&mut self.posted, cuts, cut)
    }

    /// The log, once nobody waits any more.
    pub(crate) fn into_log(self) -> Logged<O>
        ensures { result ≡ self.log }
    {
        self.posted.into_log()
    }

    /// Whether the call has to wait. Then it is one more that does.
    #[inline(always)]
    pub(crate) fn waits(&mut self, call: &O::Call) -> bool
        ensures waits { result ≡ not (O.machine.ready self.new.log.piece.last call.now) }
        ensures log { self.new.log ≡ self.old.log }
        ensures waiting { self.new.waiting ≡ (if result
            then min (self.old.waiting + 1) (2 ^ 64 - 1) else self.old.waiting) }
        ensures most { self.new.most ≡ self.old.most }
        ensures gone { self.new.gone ≡ self.old.gone }
    {
        let waits = !self.posted.log().ready(call);
        if waits {
            self.waiting = self.waiting.saturating_add(1);
        }
        waits
    }

    /// Whether the call has its answer now. Nobody waits for it yet.
    #[inline(always)]
    pub(crate) fn is_ready(&self, call: &O::Call) -> bool
        ensures { result ≡ O.machine.ready self.now.log.piece.last call.now }
    {
        self.posted.log().ready(call)
    }

    /// Whether there is anyone to wake. They count as woken then.
    #[inline(always)]
    pub(crate) fn wakes(&mut self) -> Wake
        ensures wakes { IsTrue result ↔ 0 < self.old.waiting }
        ensures log { self.new.log ≡ self.old.log }
        ensures waiting { self.new.waiting ≡ 0 }
        ensures most { self.new.most ≡ self.old.most }
        ensures gone { self.new.gone ≡ self.old.gone }
    {
        let wakes = self.waiting > 0;
        self.waiting = 0;
        Wake::new(wakes)
    }

    /// The same, where there is news for them; else they wait on.
    #[inline(always)]
    pub(crate) fn wakes_if(&mut self, is_news: bool) -> Wake
        ensures wakes { IsTrue result ↔ (IsTrue is_news × (0 < self.old.waiting)) }
        ensures log { self.new.log ≡ self.old.log }
        ensures waiting { self.new.waiting ≡ (if result then 0 else self.old.waiting) }
        ensures most { self.new.most ≡ self.old.most }
        ensures gone { self.new.gone ≡ self.old.gone }
    {
        // Mostly nobody waits.
        if self.waiting > 0 && is_news {
            return self.wakes();
        }
        Wake::new(false)
    }

    /// Whether this event, the last one, is what callers may wait for: it is news, or no sender is left.
    #[inline(always)]
    pub(crate) fn is_awaited(&self, receipt: &Receipt<O>) -> bool
        ensures { result ≡ O.machine.closed self.now.log.piece.last
            || O.is_news receipt.now.call receipt.now.reply }
    {
        self.posted.log().object().closed() || O::is_news(receipt.call(), receipt.reply())
    }

    /// Whether there is anyone to wake for what this call has changed: always where somebody waits, and the call made ready
    /// what another handle waits for. They count as woken then.
    #[inline(always)]
    pub(crate) fn wakes_after(&mut self, answer: &Result<Receipt<O>, Refused<O::Call>>) -> Wake
        ensures due { IfOk answer.now (λ r.
            IsDue O.machine O.is_sound O.handle_of self.old r → IsTrue result) }
        ensures log { self.new.log ≡ self.old.log }
        ensures waiting { self.new.waiting ≡ (if result then 0 else self.old.waiting) }
        ensures most { self.new.most ≡ self.old.most }
        ensures gone { self.new.gone ≡ self.old.gone }
    {
        let Ok(receipt) = answer else {
            return Wake::new(false);
        };
        // Mostly nobody waits.
        if self.waiting > 0 && self.is_awaited(receipt) {
            return self.wakes();
        }
        Wake::new(false)
    }

    /// One event of a handle, and its store; the handle's eye looks later. `Foreign` where the handle is of another
    /// channel, as far as its share and what it has seen can tell; else what the log says.
    #[inline(always)]
    pub(crate) fn event(
        &mut self,
        account: &mut Account,
        call: O::Call,
    ) -> Result<Receipt<O>, Refused<O::Call>>
        requires lawful { O.lawful }
        requires ready { O.machine.ready self.old.log.piece.last call ≡ true }
        ensures told { MatchResult result (Entered account.old account.new call)
            (IsBack account.old account.new call) }
        ensures place { IfOk result (λ r. r.place ≡ self.old.log.tally.total) }
        ensures step { IfOk result (λ r.
            O.machine.answer self.old.log.piece.last call ≡ (r.reply, self.new.log.piece.last)) }
        ensures sound { OnOk result (O.is_sound self.old.log.piece.last) }
        ensures entry { IfOk result (λ r.
            self.new.log.piece ≡ added self.old.log.piece call r.reply self.new.log.piece.last) }
        ensures tally { OnOk result (self.new.log.tally ≡ ticked self.old.log.tally) }
        ensures fits { OnOk result (Fits account.old self.old.log.tally) }
        ensures refused { IfErr result (λ e. RefusesEvent self.old.log account.old call
            (live_after O.machine self.old.log.piece.last call) e) }
        ensures spends { Fits account.old self.old.log.tally
            → Spends O.machine self.old.log.piece.last call → IsOk result }
        ensures same { OnErr result (IsSame self.old.log self.new.log) }
        ensures limit { self.new.log.limit ≡ self.old.log.limit }
        ensures waiting { self.new.waiting ≡ self.old.waiting }
        ensures most { self.new.most ≡ self.old.most }
        ensures gone { self.new.gone ≡ self.old.gone }
    {
        if self.posted.log().total() < account.seen() {
            return Err(Refused::Foreign(call));
        }
        self.posted.apply(&mut account.share, call)
    }

    /// Before so many events that are made together, cuts the log if that is due, and there is memory. A group of no more than
    /// `UNPARTED` events that make no handle is one part's then.
    #[inline(always)]
    pub(crate) fn spare(
        &mut self,
        cuts: &Option<Arc<Cuts<O>>>,
        count: usize,
        cut: &mut Option<Cut<O>>,
    )
        requires { O.lawful }
        ensures goes_on { GoesOn self.old.log self.new.log }
        ensures part { HandsOn self.old.log.piece cut.old cut.new (λ p. self.new.log.piece ≡ p) }
        ensures last { self.new.log.piece.last ≡ self.old.log.piece.last }
        ensures waiting { self.new.waiting ≡ self.old.waiting }
        ensures most { self.new.most ≡ self.old.most }
        ensures gone { self.new.gone ≡ self.old.gone }
    {
        if let Some(cuts) = cuts {
            let live = self.posted.log().object().live();
            let is_long = self.is_long();
            let _ = self.make_room(cuts, is_long, (count as u64).min(UNPARTED), live, cut);
        }
    }

    /// One event of a handle as `event` makes it, on a log that was cut before where that is due, if calls cut it: the parts are
    /// to go into this queue. Such a log is never full before the channel has had nearly 2^63 events: a channel has few handles
    /// (`laws::few_handles`). Until the handle has seen that, it is told `Short`. An event of a group goes on in a long part, and
    /// cuts one that has no room.
    #[inline(always)]
    pub(crate) fn enter(
        &mut self,
        cuts: &Option<Arc<Cuts<O>>>,
        account: &mut Account,
        call: O::Call,
        is_grouped: bool,
        cut: &mut Option<Cut<O>>,
    ) -> Result<Receipt<O>, Refused<O::Call>>
        requires lawful { O.lawful }
        requires ready { O.machine.ready self.old.log.piece.last call ≡ true }
        ensures told { MatchResult result (Entered account.old account.new call)
            (IsBack account.old account.new call) }
        ensures place { IfOk result (λ r. r.place ≡ self.old.log.tally.total) }
        ensures step { IfOk result (λ r.
            O.machine.answer self.old.log.piece.last call ≡ (r.reply, self.new.log.piece.last)) }
        ensures sound { OnOk result (O.is_sound self.old.log.piece.last) }
        ensures tally { OnOk result (self.new.log.tally ≡ ticked self.old.log.tally) }
        ensures fits { OnOk result (Fits account.old self.old.log.tally) }
        ensures last { OnErr result (self.new.log.piece.last ≡ self.old.log.piece.last) }
        ensures book { OnErr result (self.new.log.tally ≡ self.old.log.tally) }
        ensures limit { self.new.log.limit ≡ self.old.log.limit }
        ensures full { IfErr result (IsFullAtLast O.machine (is_some cuts.now) self.new.log) }
        ensures seen { IfErr result (IsFullAsSeen (is_some cuts.now) account.old) }
        ensures part { HandsOn self.old.log.piece cut.old cut.new (λ p. MatchResult result
            (λ r. self.new.log.piece ≡ added p call r.reply self.new.log.piece.last)
            (λ _. self.new.log.piece ≡ p)) }
        ensures waiting { self.new.waiting ≡ self.old.waiting }
        ensures most { self.new.most ≡ self.old.most }
        ensures gone { self.new.gone ≡ self.old.gone }
    {
        let Some(cuts) = cuts else {
            return self.event(account, call);
        };
        let live = self.posted.log().object().live_after(&call);
        let is_long = !is_grouped && self.is_long();
        if self.make_room(cuts, is_long, 1, live, cut).is_err() {
            return Err(Refused::Short(call));
        }
        match self.event(account, call) {
            Err(Refused::LogFull(call)) => Err(full_as_seen(account, call)),
            told => told,
        }
    }

    /// The last event of a handle. It is refused only as `Foreign`: where the handle is of another channel, or its
    /// number is not live.
    pub(crate) fn last_event(
        &mut self,
        account: &mut Account,
        call: O::Call,
    ) -> Result<Receipt<O>, Refused<O::Call>>
        requires lawful { O.lawful }
        requires ready { O.machine.ready self.old.log.piece.last call ≡ true }
        ensures told { MatchResult result (Entered account.old account.new call)
            (IsBack account.old account.new call) }
        ensures place { IfOk result (λ r. r.place ≡ self.old.log.tally.total) }
        ensures step { IfOk result (λ r.
            O.machine.answer self.old.log.piece.last call ≡ (r.reply, self.new.log.piece.last)) }
        ensures sound { OnOk result (O.is_sound self.old.log.piece.last) }
        ensures entry { IfOk result (λ r.
            self.new.log.piece ≡ added self.old.log.piece call r.reply self.new.log.piece.last) }
        ensures tally { OnOk result (self.new.log.tally ≡ ticked self.old.log.tally) }
        ensures spends { IsOk result
            ↔ (Fits account.old self.old.log.tally
            × Spends O.machine self.old.log.piece.last call) }
        ensures foreign { IfErr result (λ e. e ≡ Refused.Foreign call) }
        ensures same { OnErr result (IsSame self.old.log self.new.log) }
        ensures limit { self.new.log.limit ≡ self.old.log.limit }
        ensures waiting { self.new.waiting ≡ self.old.waiting }
        ensures most { self.new.most ≡ self.old.most }
        ensures gone { self.new.gone ≡ self.old.gone }
    {
        let object = self.posted.log().object();
        if object.live_after(&call) >= object.live() {
            return Err(Refused::Foreign(call));
        }
        match self.event(account, call) {
            Ok(receipt) => Ok(receipt),
            Err(Refused::Foreign(call)) => Err(Refused::Foreign(call)),
            Err(Refused::Short(_)) => unreachable!(),
            Err(Refused::LogFull(_)) => unreachable!(),
        }
    }

    /// The share of a new handle.
    pub(crate) fn split(&mut self) -> Share
        ensures share { result ≡ unused self.old.log.tally.key }
        ensures piece { self.new.log.piece ≡ self.old.log.piece }
        ensures tally { self.new.log.tally ≡ with_share self.old.log.tally }
        ensures waiting { self.new.waiting ≡ self.old.waiting }
        ensures most { self.new.most ≡ self.old.most }
        ensures gone { self.new.gone ≡ self.old.gone }
    {
        self.posted.split()
    }

    /// Keeps the share of a handle that is gone with those that came back before, as one. It comes back where it is not of this
    /// channel, as far as its numbers tell.
    pub(crate) fn take_back(&mut self, share: Share) -> Result<(), Share>
        ensures takes { TakesBack self.old.log.tally self.old.gone share result
            self.new.log.tally self.new.gone }
        ensures piece { self.new.log.piece ≡ self.old.log.piece }
        ensures waiting { self.new.waiting ≡ self.old.waiting }
        ensures most { self.new.most ≡ self.old.most }
    {
        let Some(gone) = self.gone.take() else {
            let log = self.posted.log();
            if share.key() != log.key() || share.count() > log.total() {
                return Err(share);
            }
            self.gone = Some(share);
            return Ok(());
        };
        match self.posted.rejoin(gone, share) {
            Ok(joined) => {
                self.gone = Some(joined);
                Ok(())
            }
            Err((gone, share)) => {
                self.gone = Some(gone);
                Err(share)
            }
        }
    }

    /// Hands out the shares that came back, as one, if there are any.
    pub(crate) fn returned(&mut self) -> Option<Share>
        ensures returned { result ≡ self.old.gone }
        ensures gone { self.new.gone ≡ None }
        ensures log { self.new.log ≡ self.old.log }
        ensures waiting { self.new.waiting ≡ self.old.waiting }
        ensures most { self.new.most ≡ self.old.most }
    {
        self.gone.take()
    }

    /// How many events the channel has.
    pub(crate) fn total(&self) -> u64
        ensures { result ≡ self.now.log.tally.total }
    {
        self.posted.log().total()
    }

    /// Hands out the entries so far, and begins the next segment. No event is made.
    pub(crate) fn cut(&mut self) -> Result<Segment<O>, Short<()>>
        requires { O.lawful }
        ensures segment { IfOk result (λ s. s ≡ self.old.log.piece) }
        ensures legal { IfOk result (λ s. IsLegal O.machine O.is_sound s) }
        ensures next { OnOk result
            (self.new.log.piece ≡ next_of self.old.log.piece self.old.log.tally.total) }
        ensures tally { self.new.log.tally ≡ self.old.log.tally }
        ensures waiting { self.new.waiting ≡ self.old.waiting }
        ensures most { self.new.most ≡ self.old.most }
        ensures gone { self.new.gone ≡ self.old.gone }
        ensures same { OnErr result (self.new ≡ self.old) }
    {
        let segment = self.posted.cut()?;
        // What a segment always is.
        let _entries = segment.len();
        Ok(segment)
    }
    /// The same, where the channel has this key. Of another one nothing is cut.
    pub(crate) fn cut_of(&mut self, key: u64) -> Option<Result<Segment<O>, Short<()>>>
        requires { O.lawful }
        ensures cut { IsSome result ↔ (self.old.log.piece.key ≡ key) }
        ensures segment { IfSome result (λ said. IfOk said (λ s. s ≡ self.old.log.piece)) }
        ensures legal { IfSome result (λ said. IfOk said (λ s. IsLegal O.machine O.is_sound s)) }
        ensures other { IsNone result → self.new ≡ self.old }
        ensures tally { self.new.log.tally ≡ self.old.log.tally }
        ensures waiting { self.new.waiting ≡ self.old.waiting }
        ensures most { self.new.most ≡ self.old.most }
        ensures gone { self.new.gone ≡ self.old.gone }
    {
        if self.posted.log().key() != key {
            return None;
        }
        Some(self.cut())
    }
}

// A log that calls cut is full: that is told to a handle that has seen that its channel is at the end of its numbers.
#[inline(never)]
fn full_as_seen<C: Drop>(account: &Account, call: C) -> Refused<C>
    ensures call { call_of result ≡ call }
    ensures seen { IsFullAsSeen true account.now result }
{
    if account.seen() >= NEARLY_ALL {
        Refused::LogFull(call)
    } else {
        Refused::Short(call)
    }
}

// Cuts the log, and lays the part behind those that were cut under the same lock.
#[inline(never)]
fn cut_into<O: Kind>(
    posted: &mut Posted<O>,
    cuts: &Arc<Cuts<O>>,
    cut: &mut Option<Cut<O>>,
) -> Result<(), Short<()>>
    requires { O.lawful }
    ensures part { OnOk result (parts_of cut.new ≡ parts_of cut.old ++ posted.old.log.piece ∷ []) }
    ensures next { OnOk result
        (posted.new.log.piece ≡ next_of posted.old.log.piece posted.old.log.tally.total) }
    ensures tally { posted.new.log.tally ≡ posted.old.log.tally }
    ensures limit { posted.new.log.limit ≡ posted.old.log.limit }
    ensures same { OnErr result ((posted.new ≡ posted.old) × (cut.new ≡ cut.old)) }
{
    let Some(before) = cut else {
        let Ok(cuts) = Arc::try_clone(cuts) else {
            return Err(Short { call: () });
        };
        let part = posted.cut()?;
        *cut = Some(Cut::new(part, cuts));
        return Ok(());
    };
    let Ok(()) = before.more.reserve(1) else {
        return Err(Short { call: () });
    };
    let part = posted.cut()?;
    let Ok(()) = before.more.push(part) else {
        unreachable!()
    };
    Ok(())
}
