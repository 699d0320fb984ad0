//! A log with the pen of its channel's word: the one place where the two meet.
ghost use Rattle.std.specs.Prelude.{◌≡◌, ◌+◌, ◌<◌, ◌≤◌, ◌∷◌, [], true, false, IfOk, IfErr, IsOk, OnOk, OnErr};
ghost use Rattle.th_glance.specs.Lists.{glance_of};
ghost use Rattle.th_log.specs.History.{live_after, next_of};
ghost use Rattle.th_log.specs.Outcome.{IsFull, IsOwn, IsSame, Meets, Refuses, added, counted, ticked, with_share};
ghost use Rattle.th_block.specs.Locked.{Stores, TellsClosed};
ghost use Rattle.th_block.specs.Returned.{Rejoins};

use std::alloc::Global;
use std::marker::Model;
use th_glance::{Eye, Pen};
use th_log::{Kind, Logged, Object, Receipt, Refused, Segment};
use th_model::Short;
use th_seats::Share;

/// What a channel's word says follows the log: how many events it has, and whether no sender is left; and what it said at
/// each place of the log's present segment follows from the entries. That is true of every value of this type, so of what
/// lies under a lock whenever the lock is free.
#[derive(Drop)]
pub(crate) struct Posted<O: Object> {
    // The channel with its log.
    log: Logged<O>,
    // It stores once after each event, and at no other time.
    pen: Pen,
}

impl<O: Object> Model for Posted<O> {
    ghost use Rattle.th_block.specs.Locked.{IsPosted, Post};

    ghost Value = { Post O.State O.Call O.Reply };

    ghost view = { λ p. record { log = p.log; pen = p.pen } };

    ghost invariant = { λ p. IsPosted O.machine (record { log = p.log; pen = p.pen }) };
}

impl<O: Kind> Posted<O> {
    /// The log of a channel that has had no event and has a sender, with its pen and its first eye.
    pub(crate) fn open(alloc: Global, log: Logged<O>) -> Result<(Posted<O>, Eye), Short<()>>
        requires new { log.tally.total ≡ 0 }
        requires open { O.machine.closed log.piece.last ≡ false }
        ensures log { IfOk result (λ r. r.0.log ≡ log) }
        ensures pen { IfOk result (λ r. r.0.pen.list ≡ glance_of 0 false ∷ []) }
        ensures eye { IfOk result (λ r. r.1 ≡ r.0.pen) }
    {
        // What a log always is.
        let _entries = log.len();
        match Pen::open(alloc) {
            Ok((pen, eye)) => Ok((Posted { log, pen }, eye)),
            Err(short) => Err(short),
        }
    }

    /// The log, to be looked at.
    pub(crate) fn log(&self) -> &Logged<O>
        ensures { result.now ≡ self.now.log }
    {
        &self.log
    }

    /// The log, without its pen.
    pub(crate) fn into_log(self) -> Logged<O>
        ensures { result ≡ self.log }
    {
        self.log
    }

    /// One event, as `Logged::apply` makes it, and then the pen's store.
    #[inline(always)]
    pub(crate) fn apply(
        &mut self,
        share: &mut Share,
        call: O::Call,
    ) -> Result<Receipt<O>, Refused<O::Call>>
        requires lawful { O.lawful }
        requires ready { O.machine.ready self.old.log.piece.last call ≡ true }
        ensures receipt { IfOk result (λ r. (r.place ≡ self.old.log.tally.total)
            × (r.call ≡ call) × (r.key ≡ self.old.log.tally.key)) }
        ensures step { IfOk result (λ r.
            O.machine.answer self.old.log.piece.last call ≡ (r.reply, self.new.log.piece.last)) }
        ensures meets { IfOk result (λ r. Meets O.machine O.is_proper self.old.log.piece.last
            call r.reply self.new.log.piece.last) }
        ensures entry { IfOk result (λ r. self.new.log.piece
            ≡ added self.old.log.piece call r.reply self.new.log.piece.last) }
        ensures ticks { OnOk result ((self.new.log.tally ≡ ticked self.old.log.tally)
            × (share.new ≡ counted share.old)) }
        ensures sound { OnOk result (O.is_sound self.old.log.piece.last) }
        ensures own { OnOk result (IsOwn share.old self.old.log.tally) }
        ensures space { OnOk result (IsFull self.old.log 1
            (live_after O.machine self.old.log.piece.last call) → ⊥) }
        ensures stores { OnOk result (Stores O.machine self.old self.new) }
        ensures refused { IfErr result (λ r. Refuses self.old.log share.old call
            (live_after O.machine self.old.log.piece.last call) r) }
        ensures same { OnErr result (IsSame self.old.log self.new.log
            × (share.new ≡ share.old) × (self.new.pen ≡ self.old.pen)) }
        ensures table { self.new.pen.table ≡ self.old.pen.table }
        ensures limit { self.new.log.limit ≡ self.old.log.limit }
        ensures room { self.old.log.room ≤ self.new.log.room + 1 }
        ensures always { IsOwn share.old self.old.log.tally
            → (IsFull self.old.log 1 (live_after O.machine self.old.log.piece.last call) → ⊥)
            → O.takes_none call
            → live_after O.machine self.old.log.piece.last call + 1 ≤ self.old.log.room
            → IsOk result }
        ensures spends { IsOwn share.old self.old.log.tally
            → live_after O.machine self.old.log.piece.last call
            < O.machine.live self.old.log.piece.last
            → IsOk result }
    {
        match self.log.apply(share, call) {
            Ok(receipt) => {
                // What a log always is.
                let _entries = self.log.len();
                self.pen.store(self.log.object().closed());
                Ok(receipt)
            }
            Err(refused) => Err(refused),
        }
    }

    /// A share for a new handle, with no event, so with no store.
    pub(crate) fn split(&mut self) -> Share
        ensures share { result ≡ record { key = self.old.log.tally.key; count = 0 } }
        ensures tally { self.new.log.tally ≡ with_share self.old.log.tally }
        ensures piece { self.new.log.piece ≡ self.old.log.piece }
        ensures pen { self.new.pen ≡ self.old.pen }
    {
        self.log.split()
    }

    /// Two shares of this channel as one, as `Logged::rejoin` does. It is no event, so nothing is stored.
    pub(crate) fn rejoin(&mut self, one: Share, other: Share) -> Result<Share, (Share, Share)>
        ensures rejoins { Rejoins self.old.log.tally one other result self.new.log.tally }
        ensures piece { self.new.log.piece ≡ self.old.log.piece }
        ensures limit { self.new.log.limit ≡ self.old.log.limit }
        ensures pen { self.new.pen ≡ self.old.pen }
        ensures same { OnErr result (self.new ≡ self.old) }
    {
        self.log.rejoin(one, other)
    }

    /// Hands out the entries so far, and begins the next segment. It is no event, so nothing is stored. What the word has
    /// said at the segment's places, and at its end, follows from the segment.
    pub(crate) fn cut(&mut self) -> Result<Segment<O>, Short<()>>
        requires { O.lawful }
        ensures segment { IfOk result (λ s. s ≡ self.old.log.piece) }
        ensures next { OnOk result
            (self.new.log.piece ≡ next_of self.old.log.piece self.old.log.tally.total) }
        ensures tally { self.new.log.tally ≡ self.old.log.tally }
        ensures limit { self.new.log.limit ≡ self.old.log.limit }
        ensures pen { self.new.pen ≡ self.old.pen }
        ensures told { IfOk result (λ s. TellsClosed O.machine s self.old.pen.list) }
        ensures err { OnErr result (self.new ≡ self.old) }
    {
        let segment = self.log.cut()?;
        // What a log always is.
        let _entries = self.log.len();
        Ok(segment)
    }
}
