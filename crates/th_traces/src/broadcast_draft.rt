//! A broadcast channel's picture, of which some lines were read.
ghost use Rattle.std.specs.Prelude.{◌≡◌, ◌≤◌, max, true};
ghost use Rattle.th_lines.specs.Reads.{rest_of};
ghost use Rattle.th_traces.specs.BroadcastDrafts.{body, has_values, is_whole, place_last, start, value_field};
ghost use Rattle.th_traces.specs.Drafts.{TakesLine};
ghost use Rattle.th_model.specs.Places.{least_place, low_of};
ghost use Rattle.th_traces.specs.Tables.{by_table};

use crate::fields::{last_numbers, last_value};
use crate::live_handles::{LiveHandles, last_next};
use std::alloc::Global;
use std::collections::{BTreeMap, VecDeque};
use std::marker::Model;
use th_bcast::PictureParts;
use th_lines::LineFault;
use th_lines::fields::{cut, number_and_rest};
use th_model::{Capacity, Value};
use th_shelf::WindowParts;

// A picture of which the line of the start was read, and maybe some below it.
#[derive(Drop)]
pub struct BroadcastDraft {
    // The capacity in force.
    capacity: Capacity,
    // The least kept position.
    low: u64,
    // The position of the next value.
    tail: u64,
    // The kept values so far.
    kept: VecDeque<Value>,
    // The live handles so far, with the receivers' places.
    handles: LiveHandles<u64>,
}

impl Model for BroadcastDraft {
    ghost use Rattle.th_model.specs.BroadcastPicture.{Picture};
    ghost use Rattle.th_traces.specs.BroadcastDrafts.{IsDraft, parts};
    ghost use Rattle.th_traces.specs.Spelled.{Bytes};

    ghost Value = { Picture Bytes };

    ghost view = { λ d. parts d.capacity d.low d.tail d.kept.items d.handles };

    ghost invariant = { λ d. IsDraft (parts d.capacity d.low d.tail d.kept.items d.handles) };
}

// The least of the places and the tail, or `first` if some place is not above it, where the search
// then ends.
fn least_from(places: &BTreeMap<u64, u64>, tail: u64, first: u64) -> u64
    requires { first ≤ tail }
    ensures { result ≡ max first (least_place tail places.now.entries) }
{
    let mut least = tail;
    for (_, place) in places {
        if *place <= first {
            return first;
        }
        if *place < least {
            least = *place;
        }
    }
    least
}

impl BroadcastDraft {
    // What the fields of `AT` tell, in a trace of this capacity.
    pub fn start(alloc: Global, capacity: Capacity, rest: Option<&[u8]>) -> Option<BroadcastDraft>
        ensures { result ≡ start capacity (rest_of rest.entry) }
    {
        let (low, rest) = number_and_rest(rest?)?;
        let (tail, rest) = number_and_rest(rest?)?;
        let next = last_next(rest)?;
        if low > tail || tail - low > capacity.in_force() || next == 0 {
            return None;
        }
        Some(BroadcastDraft {
            capacity,
            low,
            tail,
            kept: VecDeque::new(alloc),
            handles: LiveHandles::new(alloc, next),
        })
    }

    // What a line below that of the start tells: false where it is more of the picture, true where it
    // is that the picture is whole.
    #[tactic(auto, unfolding(crate::specs::BroadcastDrafts::body))]
    pub fn take_line(&mut self, alloc: Global, line: &[u8]) -> Result<bool, LineFault>
        ensures { TakesLine result self.old self.new (by_table (body self.old) line.now) }
    {
        let (word, rest) = cut(line);
        if word == b"KEEP".as_slice() {
            return self.take_value(alloc, rest);
        }
        let has_values = self.has_values();
        if word == b"TX".as_slice() {
            return self.handles.take_sender(has_values, rest);
        }
        if word == b"RX".as_slice() {
            let receiver = self.last_place(rest);
            return self.handles.take_receiver(has_values, receiver);
        }
        if word == b"BEGIN".as_slice() && rest.is_none() && self.is_whole() {
            return Ok(true);
        }
        Err(LineFault::BadLine)
    }

    // The picture, of which all was told.
    pub fn into_parts(self) -> PictureParts<Value>
        requires { is_whole self ≡ true }
        ensures { result ≡ self }
    {
        let (senders, places, next) = self.handles.into_parts();
        let window = WindowParts::new(self.capacity, self.tail, self.kept, places);
        PictureParts::new(window, senders, next)
    }

    // All kept values were told.
    fn has_values(&self) -> bool
        ensures { result ≡ has_values self.now }
    {
        self.kept.len() as u64 == self.tail - self.low
    }

    // The least position that these receivers keep.
    #[tactic(auto, unfolding(th_model::specs::Places::low_of))]
    fn least_kept(&self) -> u64
        ensures { let w = self.now.window in result ≡ low_of w.tail w.capacity w.places }
    {
        let first = self.tail.saturating_sub(self.capacity.in_force());
        least_from(self.handles.receivers(), self.tail, first)
    }

    // All that its receivers keep was told.
    fn is_whole(&self) -> bool
        ensures { result ≡ is_whole self.now }
    {
        self.has_values() && self.low == self.least_kept()
    }

    // A receiver and its place, as the last fields.
    fn last_place(&self, rest: Option<&[u8]>) -> Option<(u64, u64)>
        ensures { result ≡ place_last self.now (rest_of rest.entry) }
    {
        let (rx, place) = last_numbers(rest)?;
        if place > self.tail {
            return None;
        }
        Some((rx, place))
    }

    // The field of `KEEP`.
    fn take_value(&mut self, alloc: Global, rest: Option<&[u8]>) -> Result<bool, LineFault>
        ensures { TakesLine result self.old self.new (value_field self.old (rest_of rest.entry)) }
    {
        if self.kept.len() as u64 >= self.tail - self.low {
            return Err(LineFault::BadLine);
        }
        let value = match last_value(alloc, rest) {
            Ok(value) => value,
            Err(fault) => return Err(fault),
        };
        let Ok(()) = self.kept.push_back(value) else {
            return Err(LineFault::Short);
        };
        Ok(false)
    }
}
