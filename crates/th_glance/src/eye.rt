//! An eye on a channel, which each of its handles has.
ghost use Rattle.std.specs.Prelude.{◌≡◌, ◌<◌, ◌≤◌, ◌↔◌, IfOk, IsTrue};
ghost use mathlib.Core.List.{IsPrefix};
ghost use Rattle.th_glance.specs.Lists.{last_of, last_count, IsCounted};

use crate::glance::Glance;
use crate::pen::Board;
use crate::rule::{Copied, See};
use crate::sight::Sight;
use atomic_table::Seat;
use crossbeam_utils::Backoff;
use std::alloc::Global;
use std::marker::Model;
use std::sync::{Arc, Wait};
use th_model::Short;

/// It reads a channel's word. Contracts see which word that is, and the list of the glances that
/// this eye has seen, which begins the pen's.
#[derive(Drop)]
pub struct Eye {
    // Its own share in the word.
    pub(crate) board: Arc<Board, Global>,
    // What it has seen, for proofs. It has no bytes.
    pub(crate) seat: Seat<(), Sight>,
    // The last count that it saw.
    pub(crate) count: u64,
}

impl Model for Eye {
    ghost use Rattle.std.specs.Prelude.{◌≡◌};
    ghost use Rattle.std.specs.Arc.{arc_value};
    ghost use Rattle.th_glance.specs.Lists.{last_count, IsCounted};
    ghost use Rattle.th_glance.specs.Seats.{Known};

    ghost Value = { Known };

    ghost view = { λ e. record { table = e.seat.table_id; list = e.seat.me.0.seen } };

    ghost invariant = { λ e.
        (e.seat.table_id ≡ (arc_value e.board).shared.table_id) × (e.seat.table_id.words ≡ 1)
        × (e.count ≡ last_count e.seat.me.0.seen) × IsCounted e.seat.me.0.seen };
}

impl Eye {
    /// One look: the last glance of a list that begins the pen's and goes on from what this eye has
    /// seen. That list is then what it has seen. One load, and no waiting.
    pub fn glance(&mut self) -> Glance
        ensures table { self.new.table ≡ self.old.table }
        ensures later { IsPrefix self.old.list self.new.list }
        ensures counted { IsCounted self.new.list }
        ensures last { result ≡ last_of self.new.list }
        ensures rises { last_count self.old.list ≤ result.count }
    {
        let word = self.board.shared.load::<See>(&mut self.seat, 0);
        let glance = Glance::of_word(word);
        self.count = glance.count;
        glance
    }

    /// The last count that it saw. It does not look.
    pub fn count(&self) -> u64
        ensures last { result ≡ last_count self.now.list }
        ensures counted { IsCounted self.now.list }
    {
        self.count
    }

    /// One look as in `glance`, and whether this eye's count is then at least the given one.
    pub fn learn(&mut self, count: u64) -> bool
        ensures table { self.new.table ≡ self.old.table }
        ensures later { IsPrefix self.old.list self.new.list }
        ensures counted { IsCounted self.new.list }
        ensures learnt { IsTrue result ↔ (count ≤ last_count self.new.list) }
        ensures rises { last_count self.old.list ≤ last_count self.new.list }
    {
        self.glance().count >= count
    }

    /// Looks until this eye's count is above the place, with pauses between the looks. If the pen has
    /// stored the event of that place before, the first look finds it; else this waits.
    #[inline(always)]
    pub fn catch_up<R: Wait>(&mut self, rt: &R, place: u64)
        ensures table { self.new.table ≡ self.old.table }
        ensures later { IsPrefix self.old.list self.new.list }
        ensures counted { IsCounted self.new.list }
        ensures above { place < last_count self.new.list }
        ensures rises { last_count self.old.list ≤ last_count self.new.list }
    {
        if self.glance().count <= place {
            self.look_on(rt, place);
        }
    }

    // Pauses and looks, until this eye's count is above the place.
    fn look_on<R: Wait>(&mut self, rt: &R, place: u64)
        ensures table { self.new.table ≡ self.old.table }
        ensures later { IsPrefix self.old.list self.new.list }
        ensures counted { IsCounted self.new.list }
        ensures above { place < last_count self.new.list }
        ensures rises { last_count self.old.list ≤ last_count self.new.list }
    {
        let backoff = Backoff::new();
        for _ in rt.forever() {
            backoff.snooze();
            if self.glance().count > place {
                return;
            }
        }
        unreachable!()
    }

    /// Another eye on the same word, which has seen as much. Neither sees anything new by it.
    pub fn split(&mut self) -> Result<Eye, Short<()>>
        ensures same { self.new ≡ self.old }
        ensures new { IfOk result (λ eye. eye ≡ self.old) }
    {
        let Ok(board) = Arc::try_clone(&self.board) else {
            return Err(Short { call: () });
        };
        let seat = board.shared.split_seat::<Copied>(&mut self.seat);
        Ok(Eye {
            board,
            seat,
            count: self.count,
        })
    }
}
