//! What a shelf can be made from.
ghost use Rattle.std.specs.Prelude.{◌≡◌, ◌↔◌, IsTrue};
ghost use Rattle.th_model.specs.WatchMachine.{IsExact};
ghost use Rattle.th_model.specs.Window.{IsWindow};
ghost use Rattle.th_shelf.specs.Plain.{queue_window};

use std::collections::{BTreeMap, VecDeque};
use std::marker::Model;
use th_model::Capacity;

/// A window, as plain data: the kept values, in order up to the tail, and the place of each live
/// receiver. It is taken apart again by `into_parts`. Neither takes memory.
#[derive(Drop)]
pub struct WindowParts<T> {
    // The most values that are kept.
    pub(crate) capacity: u64,
    // The position of the next value.
    pub(crate) tail: u64,
    // The values that some receiver has still to read, the last of them before the tail.
    pub(crate) kept: VecDeque<T>,
    // The position that each live receiver reads next, by its number.
    pub(crate) places: BTreeMap<u64, u64>,
}

impl<T> Model for WindowParts<T> {
    ghost use Rattle.th_model.specs.Window.{Window, IsWindow};
    ghost use Rattle.th_shelf.specs.Plain.{queue_window};

    ghost Value = { Window T };

    ghost view = { λ a. queue_window a.capacity a.tail a.kept.items a.places.entries };

    ghost invariant = { λ a.
        IsWindow (queue_window a.capacity a.tail a.kept.items a.places.entries) };
}

impl<T> WindowParts<T> {
    /// The window of these values and places.
    pub fn new(
        capacity: Capacity,
        tail: u64,
        kept: VecDeque<T>,
        places: BTreeMap<u64, u64>,
    ) -> WindowParts<T>
        requires { IsWindow (queue_window capacity tail kept.items places.entries) }
        ensures { result ≡ queue_window capacity tail kept.items places.entries }
    {
        WindowParts {
            capacity: capacity.in_force(),
            tail,
            kept,
            places,
        }
    }

    /// The most values that are kept.
    pub fn capacity(&self) -> u64
        ensures { result ≡ self.now.capacity }
    {
        self.capacity
    }

    /// The position of the next value.
    pub fn tail(&self) -> u64
        ensures tail { result ≡ self.now.tail }
        ensures sound { IsWindow self.now }
    {
        self.tail
    }

    /// The kept values, in order up to the tail.
    pub fn kept(&self) -> &VecDeque<T>
        ensures { result.now.items ≡ self.now.kept }
    {
        &self.kept
    }

    /// The place of each live receiver, by its number.
    pub fn places(&self) -> &BTreeMap<u64, u64>
        ensures { result.now.entries ≡ self.now.places }
    {
        &self.places
    }

    /// The kept values, and the place of each live receiver.
    pub fn into_parts(self) -> (VecDeque<T>, BTreeMap<u64, u64>)
        ensures kept { result.0.items ≡ self.kept }
        ensures places { result.1.entries ≡ self.places }
    {
        (self.kept, self.places)
    }
}

impl<T: PartialEq> WindowParts<T> {
    /// Whether it is the same window. Linear in values and receivers.
    pub fn is_same(&self, other: &WindowParts<T>) -> bool
        requires { IsExact T.eq }
        ensures { IsTrue result ↔ (self.now ≡ other.now) }
    {
        let capacity = self.capacity == other.capacity;
        let tail = self.tail == other.tail;
        let places = self.places == other.places;
        let kept = self.kept == other.kept;
        capacity & tail & places & kept
    }
}
