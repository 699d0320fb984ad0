//! Calls of th_ring.
use th_ring::slot::{Slot, pass, read, wait};

pub fn pass_by(slot: &mut Slot<u64>) {
    if slot.to_come > 0 {
        pass(slot);
    }
}

pub fn wait_for(slot: &mut Slot<u64>) {
    if slot.to_come < 7 {
        wait(slot);
    }
}

pub fn read_from(slot: &mut Slot<u64>) {
    if slot.to_come > 0 && slot.value.is_some() {
        let _ = read(slot, true);
    }
}
