//! A slot of the ring.
ghost use Rattle.std.specs.Prelude.{◌≡◌, ◌+◌, ◌<◌, ◌^◌, Some, IsSome, IsOk, IfOk, OnOk, OnErr, IsTrue, false};
ghost use Rattle.th_model.specs.Limits.{ClonesAreEqual};
ghost use Rattle.th_ring.specs.Slot.{less_one, more_one};

use std::alloc::AllocError;
use th_shelf::received::copy_of;

/// What stands at a position.
#[derive(Drop)]
pub struct Slot<T> {
    // The value, while a receiver has still to read it.
    pub value: Option<T>,
    // How many receivers have still to read it. A read, a receiver that leaves, and one that lags
    // past it take one away, one that joins before it adds one; at zero the value is let go.
    pub to_come: u64,
}

// One receiver less has still to read the value. The last one lets it go.
pub fn pass<T: Drop>(slot: &mut Slot<T>)
    requires { 0 < slot.old.to_come }
    ensures { slot.new ≡ less_one slot.old }
{
    slot.to_come -= 1;
    if slot.to_come == 0 {
        slot.value = None;
    }
}

// One receiver more has still to read the value.
pub fn wait<T>(slot: &mut Slot<T>)
    requires { slot.old.to_come + 1 < 2 ^ 64 }
    ensures { slot.new ≡ more_one slot.old }
{
    slot.to_come += 1;
}

// One receiver reads the value: the last one takes it, and each other a clone. Where it is wanted, a
// copy comes beside it.
#[inline(always)]
pub fn read<T: Clone>(slot: &mut Slot<T>, wanted: bool) -> Result<(T, Option<T>), AllocError>
    requires clones { ClonesAreEqual T.is_clone }
    requires waits { 0 < slot.old.to_come }
    requires there { IsSome slot.old.value }
    ensures value { IfOk result (λ r. slot.old.value ≡ Some r.0) }
    ensures copy { IfOk result (λ r. IsTrue wanted → r.1 ≡ Some r.0) }
    ensures ok { OnOk result (slot.new ≡ less_one slot.old) }
    ensures short { OnErr result (slot.new ≡ slot.old) }
    ensures last { wanted ≡ false → slot.old.to_come ≡ 1 → IsOk result }
{
    let Some(kept) = &slot.value else {
        unreachable!()
    };
    let Ok(copy) = copy_of(kept, wanted) else {
        return Err(AllocError);
    };
    if slot.to_come == 1 {
        slot.to_come = 0;
        match slot.value.take() {
            Some(value) => Ok((value, copy)),
            None => unreachable!(),
        }
    } else {
        let Ok(value) = kept.clone() else {
            return Err(AllocError);
        };
        slot.to_come -= 1;
        Ok((value, copy))
    }
}
