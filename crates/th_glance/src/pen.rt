//! The pen of a channel, which lies beside it under its lock.
ghost use Rattle.std.specs.Prelude.{◌≡◌, ◌+◌, ◌-◌, ◌^◌, ◌<◌, ◌≤◌, false, [], ◌∷◌, ◌++◌, IfOk};
ghost use mathlib.Core.List.{IsPrefix};
ghost use Rattle.th_glance.specs.Lists.{glance_of, last_of, last_count, IsCounted};

use crate::eye::Eye;
use crate::glance::Glance;
use crate::rule::{Copied, Cover, Learned, Posts, Write};
use crate::sight::Sight;
use atomic_table::{Seat, Table};
use std::alloc::Global;
use std::marker::Model;
use std::sync::Arc;
use th_model::Short;

/// A channel's word, which its pen and its eyes own in common: a table of one word and no slots.
/// The word's lowest bit is 1 where the channel has no senders, and the other 63 are its count.
pub(crate) type Board = Table<(), Sight, (), Posts, Global>;

/// It writes a channel's word. Contracts see which word that is, and the list of all glances that
/// it ever said.
#[derive(Drop)]
pub struct Pen {
    // Its own share in the word: what lies under a lock is known by its type alone.
    board: Arc<Board, Global>,
    // The first seat of the table, whose list the rule ties to the word. It has no bytes.
    seat: Seat<(), Sight>,
    // The count that the word says. The pen alone writes, so it need not look.
    count: u64,
}

impl Model for Pen {
    ghost use Rattle.std.specs.Prelude.{◌≡◌};
    ghost use Rattle.std.specs.Arc.{arc_value};
    ghost use Rattle.th_glance.specs.Lists.{last_count, IsCounted};
    ghost use Rattle.th_glance.specs.Seats.{Known};

    ghost Value = { Known };

    ghost view = { λ p. record { table = p.seat.table_id; list = p.seat.me.0.seen } };

    ghost invariant = { λ p.
        (p.seat.table_id ≡ (arc_value p.board).shared.table_id) × (p.seat.table_id.words ≡ 1)
        × (p.seat.id ≡ 0) × (p.count ≡ last_count p.seat.me.0.seen)
        × IsCounted p.seat.me.0.seen };
}

impl Pen {
    /// A channel's word, its pen and its first eye. The count is 0, and it is not closed.
    pub fn open(alloc: Global) -> Result<(Pen, Eye), Short<()>>
        ensures pen { IfOk result (λ r. r.0.list ≡ glance_of 0 false ∷ []) }
        ensures eye { IfOk result (λ r. r.1 ≡ r.0) }
    {
        let Ok((table, mut seat)) = Board::of_words(alloc, &[0], &()) else {
            return Err(Short { call: () });
        };
        let Ok(board) = Arc::new(alloc, table) else {
            return Err(Short { call: () });
        };
        let Ok(other) = Arc::try_clone(&board) else {
            return Err(Short { call: () });
        };
        let new = board.shared.split_seat::<Copied>(&mut seat);
        let pen = Pen {
            board,
            seat,
            count: 0,
        };
        let eye = Eye {
            board: other,
            seat: new,
            count: 0,
        };
        Ok((pen, eye))
    }

    /// One event more: the count grows by one, and `closed` says whether no sender is left. One
    /// store.
    pub fn store(&mut self, closed: bool)
        requires { last_count self.old.list < 2 ^ 63 - 1 }
        ensures table { self.new.table ≡ self.old.table }
        ensures list { self.new.list ≡
            self.old.list ++ glance_of (last_count self.old.list + 1) closed ∷ [] }
        ensures last { last_of self.new.list ≡ glance_of (last_count self.old.list + 1) closed }
        ensures counted { IsCounted self.new.list }
    {
        let count = self.count + 1;
        let word = Glance { count, closed }.word();
        self.board.shared.store::<Write>(&mut self.seat, 0, word);
        self.count = count;
    }

    /// A law: what an eye of this word has seen begins what the pen wrote. It costs three loads,
    /// and changes nothing.
    pub fn covers(&mut self, eye: &mut Eye)
        requires { eye.old.table ≡ self.old.table }
        ensures begins { IsPrefix eye.old.list self.old.list }
        ensures most { last_count eye.old.list ≤ last_count self.old.list }
        ensures pen { self.new ≡ self.old }
        ensures eye { eye.new ≡ eye.old }
    {
        let note = self.board.shared.split_seat::<Copied>(&mut eye.seat);
        self.board.shared.join_seat::<Learned>(&mut self.seat, note);
        self.board.shared.load::<Cover>(&mut self.seat, 0);
    }
}
