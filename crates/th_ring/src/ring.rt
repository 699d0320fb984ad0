//! The ring.
ghost use Rattle.std.specs.Prelude.{◌≡◌, ◌+◌, ◌%◌, ◌^◌, ◌<◌, ◌≤◌, ℕ, length, replicate, IfOk, IfErr, true};
ghost use Rattle.th_model.specs.Limits.{IsCapacity};
ghost use Rattle.th_model.specs.Places.{low_of};
ghost use Rattle.th_ring.specs.Readers.{AreToCome};
ghost use Rattle.th_ring.specs.Slot.{vacant, less_one, more_one};
ghost use Rattle.th_ring.specs.Ring.{IsRing, ring_window, slot_at, filled_slot, AreOthersSame};

use crate::readers::count_readers;
use crate::slot::{Slot, pass, read, wait};
use std::alloc::{AllocError, Global};
use std::collections::{BTreeMap, VecDeque};
use std::marker::Model;
use th_model::{Capacity, RxId, Short};
use th_numbered::ByNumber;
use th_shelf::places::skip_to;
use th_shelf::{Received, Shelf, WindowParts};

/// A slot for each position of the window, and the places by the receivers' numbers.
///
/// `push`, `value` and the readers of a number cost a constant, `low` a logarithm of the capacity.
/// `receive`, `take`, `jump`, `place` and `next_reader` find a receiver by its number, at once where no
/// number is missing and by halving else, and none of them looks at the window. So does `join`, which
/// costs no more where the number is the highest, but for a list that grows; else it moves the places
/// behind. `leave` and `join_oldest` are linear in the kept values that the receiver has still to read.
/// `reader_at(k)` is linear in `k` and the gaps on the way. `from_window` is linear in the capacity and
/// the receivers. All slots are made with the shelf: afterwards only `join` and `join_oldest` take memory,
/// and a read for its clones: the last one of a value needs none.
#[derive(Drop)]
pub struct RingShelf<T> {
    // The most values that are kept: a power of two, and the number of slots. It never changes.
    capacity: u64,
    // The position of the next value. A push adds one.
    tail: u64,
    // The slot of a position is the one at its low bits. It has the value, and how many receivers
    // have still to read it; a push takes the slot of the position that leaves the window.
    slots: Vec<Slot<T>>,
    // The position that each live receiver reads next, by its number. None is past the tail; one
    // may be behind the window, until its receiver is told so.
    places: ByNumber<u64>,
}

impl<T> Model for RingShelf<T> {
    ghost use Rattle.th_model.specs.Window.{Window};
    ghost use Rattle.th_ring.specs.Ring.{IsRing, ring_window};

    ghost Value = { Window T };

    ghost view = { λ a. ring_window a.capacity a.tail a.slots.items a.places.entries };

    ghost invariant = { λ a. IsRing a.capacity a.tail a.slots.items a.places.entries };
}

// The low bits of a position.
fn low_bits(position: u64, capacity: u64) -> usize
    requires { IsCapacity capacity }
    ensures { result ≡ position % capacity }
{
    (position & (capacity - 1)) as usize
}

// The least position of the window that a receiver has still to read, or the tail. The counts rise
// with the position, so it is found by halving.
fn least_awaited<T>(slots: &Vec<Slot<T>>, capacity: u64, tail: u64, places: &ByNumber<u64>) -> u64
    requires { IsRing capacity tail slots.now.items places.now.entries }
    ensures { result ≡ low_of tail capacity places.now.entries }
{
    let mut low = tail.saturating_sub(capacity);
    let mut high = tail;
    while low < high {
        let middle = low + (high - low) / 2;
        let at = low_bits(middle, capacity);
        if slots[at].to_come == 0 {
            low = middle + 1;
        } else {
            high = middle;
        }
    }
    low
}

// Slots with no value.
fn vacant_slots<T: Drop>(alloc: Global, capacity: u64) -> Result<Vec<Slot<T>>, AllocError>
    ensures { IfOk result (λ slots. slots.items ≡ replicate capacity vacant) }
{
    let mut slots = Vec::with_capacity(alloc, capacity as usize)?;
    for _ in 0..capacity {
        slots.push(Slot {
            value: None,
            to_come: 0,
        })?;
    }
    Ok(slots)
}

// Puts the values from `low` to the tail into their slots.
fn fill<T: Drop>(
    slots: &mut Vec<Slot<T>>,
    capacity: u64,
    low: u64,
    mut kept: VecDeque<T>,
    tail: u64,
    places: &BTreeMap<u64, u64>,
    counts: &Vec<u64>,
)
    requires capacity { IsCapacity capacity }
    requires size { length slots.old.items ≡ capacity }
    requires values { low + length kept.items ≡ tail }
    requires window { tail ≤ low + capacity }
    requires counts { AreToCome low tail places.now.entries counts.now.items }
    ensures size { length slots.new.items ≡ capacity }
    ensures filled { (i : ℕ) → low ≤ i → i < tail
        → slot_at slots.new.items capacity i ≡ filled_slot low kept.items places.now.entries i }
    ensures others { AreOthersSame capacity low tail slots.old.items slots.new.items }
{
    for i in low..tail {
        let value = kept.pop_front();
        let at = low_bits(i, capacity);
        slots[at] = Slot {
            value,
            to_come: counts[(i - low) as usize],
        };
    }
}

// One receiver less has still to read the positions from `first` to the tail.
fn pass_from<T: Drop>(slots: &mut Vec<Slot<T>>, capacity: u64, first: u64, tail: u64)
    requires capacity { IsCapacity capacity }
    requires size { length slots.old.items ≡ capacity }
    requires waits { (i : ℕ) → first ≤ i → i < tail
        → 0 < (slot_at slots.old.items capacity i).to_come }
    requires window { tail ≤ first + capacity }
    requires ends { first ≤ tail }
    ensures size { length slots.new.items ≡ capacity }
    ensures passed { (i : ℕ) → first ≤ i → i < tail
        → slot_at slots.new.items capacity i ≡ less_one (slot_at slots.old.items capacity i) }
    ensures others { AreOthersSame capacity first tail slots.old.items slots.new.items }
{
    for i in first..tail {
        let at = low_bits(i, capacity);
        pass(&mut slots[at]);
    }
}

// One receiver more has still to read the positions from `first` to the tail.
fn wait_from<T>(slots: &mut Vec<Slot<T>>, capacity: u64, first: u64, tail: u64)
    requires capacity { IsCapacity capacity }
    requires size { length slots.old.items ≡ capacity }
    requires fits { (i : ℕ) → first ≤ i → i < tail
        → (slot_at slots.old.items capacity i).to_come + 1 < 2 ^ 64 }
    requires window { tail ≤ first + capacity }
    requires ends { first ≤ tail }
    ensures size { length slots.new.items ≡ capacity }
    ensures waited { (i : ℕ) → first ≤ i → i < tail
        → slot_at slots.new.items capacity i ≡ more_one (slot_at slots.old.items capacity i) }
    ensures others { AreOthersSame capacity first tail slots.old.items slots.new.items }
{
    for i in first..tail {
        let at = low_bits(i, capacity);
        wait(&mut slots[at]);
    }
}

impl<T: Clone> Shelf<T> for RingShelf<T> {
    ghost window = { λ s. s };

    ghost sure = { true };

    fn new(alloc: Global, capacity: Capacity, base: u64) -> Result<Self, Short<()>> {
        let in_force = capacity.in_force();
        let Ok(slots) = vacant_slots(alloc, in_force) else {
            return Err(Short { call: () });
        };
        Ok(RingShelf {
            capacity: in_force,
            tail: base,
            slots,
            places: ByNumber::new(alloc),
        })
    }

    fn from_window(alloc: Global, parts: WindowParts<T>) -> Result<Self, Short<WindowParts<T>>>
        ensures ok { IfOk result (λ shelf. shelf ≡ parts) }
        ensures short { IfErr result (λ short. short.call ≡ parts) }
    {
        let capacity = parts.capacity();
        let tail = parts.tail();
        let Ok(mut slots) = vacant_slots(alloc, capacity) else {
            return Err(Short { call: parts });
        };
        let Ok(own) = ByNumber::copied_from(alloc, parts.places()) else {
            return Err(Short { call: parts });
        };
        let low = tail - parts.kept().len() as u64;
        let Ok(counts) = count_readers(alloc, parts.places(), low, tail) else {
            return Err(Short { call: parts });
        };
        let (kept, places) = parts.into_parts();
        fill(&mut slots, capacity, low, kept, tail, &places, &counts);
        Ok(RingShelf {
            capacity,
            tail,
            slots,
            places: own,
        })
    }

    fn capacity(&self) -> u64 {
        self.capacity
    }

    fn tail(&self) -> u64 {
        self.tail
    }

    fn low(&self) -> u64 {
        least_awaited(&self.slots, self.capacity, self.tail, &self.places)
    }

    fn readers(&self) -> u64 {
        self.places.len() as u64
    }

    fn place(&self, rx: RxId) -> Option<u64> {
        self.places.get(rx.0).copied()
    }

    fn value(&self, position: u64) -> Option<&T> {
        if position >= self.tail || position < self.tail.saturating_sub(self.capacity) {
            return None;
        }
        self.slots[low_bits(position, self.capacity)].value.as_ref()
    }

    fn reader_at(&self, k: u64) -> Option<(RxId, u64)> {
        match self.places.nth(k) {
            Some((rx, place)) => Some((RxId(rx), *place)),
            None => None,
        }
    }

    fn next_reader(&self, after: Option<RxId>) -> Option<(RxId, u64)> {
        let number = match after {
            Some(rx) => Some(rx.0),
            None => None,
        };
        match self.places.next_after(number) {
            Some((rx, place)) => Some((RxId(rx), *place)),
            None => None,
        }
    }

    // A receiver at the tail has nothing to read, so no count changes.
    fn join(&mut self, rx: RxId) -> Result<(), Short<RxId>> {
        let Ok(()) = self.places.insert(rx.0, self.tail) else {
            return Err(Short { call: rx });
        };
        Ok(())
    }

    // Each kept value has one receiver more to come. There are fewer receivers than numbers for
    // them, so that the counts fit.
    fn join_oldest(&mut self, rx: RxId) -> Result<(), Short<RxId>> {
        let low = least_awaited(&self.slots, self.capacity, self.tail, &self.places);
        let _ = self.places.len();
        let Ok(()) = self.places.insert(rx.0, low) else {
            return Err(Short { call: rx });
        };
        wait_from(&mut self.slots, self.capacity, low, self.tail);
        Ok(())
    }

    fn leave(&mut self, rx: RxId) {
        let Some(place) = self.places.remove(rx.0) else {
            unreachable!()
        };
        let first = place.max(self.tail.saturating_sub(self.capacity));
        pass_from(&mut self.slots, self.capacity, first, self.tail);
    }

    // Every live receiver has still to read the new value, which takes the slot of the one that
    // leaves the window.
    fn push(&mut self, value: T) -> Result<(), T> {
        let to_come = self.places.len() as u64;
        let at = low_bits(self.tail, self.capacity);
        self.slots[at] = Slot {
            value: Some(value),
            to_come,
        };
        self.tail += 1;
        Ok(())
    }

    // Who skips to the window's beginning had all of the window to come, and has it still.
    #[inline(always)]
    fn receive_with_copy(
        &mut self,
        rx: RxId,
        wanted: bool,
    ) -> Result<(Received<T>, Option<T>), Short<RxId>> {
        let Some(place) = self.places.get_mut(rx.0) else {
            return Ok((Received::Nobody, None));
        };
        let at = *place;
        if at == self.tail {
            return Ok((Received::Nothing, None));
        }
        let first = self.tail.saturating_sub(self.capacity);
        if at < first {
            return Ok((Received::Missed(skip_to(place, first)), None));
        }
        let index = low_bits(at, self.capacity);
        let Ok((value, copy)) = read(&mut self.slots[index], wanted) else {
            return Err(Short { call: rx });
        };
        *place += 1;
        Ok((Received::Value(value), copy))
    }

    fn jump(&mut self, rx: RxId) -> u64 {
        let Some(place) = self.places.get_mut(rx.0) else {
            unreachable!()
        };
        skip_to(place, self.tail - self.capacity)
    }
}
