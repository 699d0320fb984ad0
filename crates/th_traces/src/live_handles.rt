//! The live handles of a picture of either kind, as its lines tell them.
ghost use Rattle.std.specs.Prelude.{◌≡◌, ◌<◌, Option, [], ℕ};
ghost use Rattle.std.specs.Map.{keys_of};
ghost use Rattle.th_lines.specs.Reads.{rest_of};
ghost use Rattle.th_model.specs.Handles.{AreLive};
ghost use Rattle.th_traces.specs.Drafts.{TakesLine};
ghost use Rattle.th_traces.specs.LiveHandles.{live, next_last, receiver_fields, sender_field, takes_receiver, takes_sender};

use crate::fields::last_number;
use crate::groups::{last_id, last_key};
use std::alloc::Global;
use std::collections::{BTreeMap, BTreeSet};
use std::marker::Model;
use th_lines::LineFault;
use th_lines::fields::cut;
use th_model::MOST_HANDLES;

// The live handles, of which maybe not all were told.
#[derive(Drop)]
pub struct LiveHandles<X> {
    // The live senders so far.
    senders: BTreeSet<u64>,
    // The live receivers so far, and how each stands.
    receivers: BTreeMap<u64, X>,
    // The next handle number.
    next: u64,
}

impl<X> Model for LiveHandles<X> {
    ghost use Rattle.std.specs.Map.{keys_of};
    ghost use Rattle.th_model.specs.Handles.{AreLive};
    ghost use Rattle.th_traces.specs.LiveHandles.{Live, live};

    ghost Value = { Live X };

    ghost view = { λ h. live h.senders.keys h.receivers.entries h.next };

    ghost invariant = { λ h. AreLive h.next h.senders.keys (keys_of h.receivers.entries) };
}

// `NEXT next`, as the last fields.
pub fn last_next(rest: Option<&[u8]>) -> Option<u64>
    ensures { result ≡ next_last (rest_of rest.entry) }
{
    let (word, rest) = cut(rest?);
    if word != b"NEXT".as_slice() {
        return None;
    }
    last_number(rest)
}

impl<X: Drop> LiveHandles<X> {
    // No handle, where this is the next number.
    pub fn new(alloc: Global, next: u64) -> LiveHandles<X>
        requires { 0 < next }
        ensures { result ≡ live [] [] next }
    {
        LiveHandles {
            senders: BTreeSet::new(alloc),
            receivers: BTreeMap::new(alloc),
            next,
        }
    }

    // The live receivers so far, and how each stands.
    pub fn receivers(&self) -> &BTreeMap<u64, X>
        ensures { result.now.entries ≡ self.now.receivers }
    {
        &self.receivers
    }

    // The senders, the receivers, and the next number.
    pub fn into_parts(self) -> (BTreeSet<u64>, BTreeMap<u64, X>, u64)
        ensures parts { live result.0.keys result.1.entries result.2 ≡ self }
        ensures sound { AreLive self.next self.senders (keys_of self.receivers) }
    {
        (self.senders, self.receivers, self.next)
    }

    fn takes_sender(&self, has_values: bool, tx: u64) -> bool
        ensures { result ≡ takes_sender has_values self.now tx }
    {
        has_values
            && (self.receivers.len() == 0
                && (last_id(&self.senders) < tx
                    && (tx < self.next && self.senders.len() < MOST_HANDLES)))
    }

    fn takes_receiver(&self, has_values: bool, rx: u64) -> bool
        ensures { result ≡ takes_receiver has_values self.now rx }
    {
        has_values
            && ((last_key(&self.receivers) < rx
                && (rx < self.next && self.receivers.len() < MOST_HANDLES))
                && !self.senders.contains(&rx))
    }

    // The field of `TX`, where all values were told or not.
    pub fn take_sender(&mut self, has_values: bool, rest: Option<&[u8]>) -> Result<bool, LineFault>
        ensures { TakesLine result self.old self.new
            (sender_field (λ h. h) has_values self.old (rest_of rest.entry)) }
    {
        let Some(tx) = last_number(rest) else {
            return Err(LineFault::BadLine);
        };
        if !self.takes_sender(has_values, tx) {
            return Err(LineFault::BadLine);
        }
        let Ok(_) = self.senders.insert(tx) else {
            return Err(LineFault::Short);
        };
        Ok(false)
    }

    // The fields of `RX`, if they were read: a receiver, and how it stands.
    pub fn take_receiver(
        &mut self,
        has_values: bool,
        fields: Option<(u64, X)>,
    ) -> Result<bool, LineFault>
        ensures { TakesLine result self.old self.new
            (receiver_fields (λ h. h) has_values self.old fields) }
    {
        let Some((rx, standing)) = fields else {
            return Err(LineFault::BadLine);
        };
        if !self.takes_receiver(has_values, rx) {
            return Err(LineFault::BadLine);
        }
        let Ok(_) = self.receivers.insert(rx, standing) else {
            return Err(LineFault::Short);
        };
        Ok(false)
    }
}
