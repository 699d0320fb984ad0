//! A copy of what a shelf holds, as plain data.
ghost use Rattle.std.specs.Prelude.{◌≡◌, IfOk};
ghost use Rattle.std.specs.Map.{keys_of};
ghost use Rattle.th_model.specs.Limits.{ClonesAreEqual};
ghost use Rattle.th_model.specs.Handles.{IsRising};

use crate::parts::WindowParts;
use crate::shelf::Shelf;
use std::alloc::{AllocError, Global};
use std::collections::{BTreeMap, VecDeque};

// Clones of the kept values, in order up to the tail.
fn copy_kept<T: Clone, S: Shelf<T>>(alloc: Global, shelf: &S) -> Result<VecDeque<T>, AllocError>
    requires { ClonesAreEqual T.is_clone }
    ensures { IfOk result (λ kept. kept.items ≡ (S.window shelf.now).kept) }
{
    let low = shelf.low();
    let tail = shelf.tail();
    let mut kept = VecDeque::with_capacity(alloc, (tail - low) as usize)?;
    for position in low..tail {
        let Some(value) = shelf.value(position) else {
            unreachable!()
        };
        kept.push_back(value.clone()?)?;
    }
    Ok(kept)
}

// The place of each receiver, gone through by their numbers.
fn copy_places<T: Clone, S: Shelf<T>>(
    alloc: Global,
    shelf: &S,
) -> Result<BTreeMap<u64, u64>, AllocError>
    requires { IsRising (keys_of (S.window shelf.now).places) }
    ensures { IfOk result (λ places. places.entries ≡ (S.window shelf.now).places) }
{
    let mut places = BTreeMap::new(alloc);
    let mut last = None;
    for _ in 0..shelf.readers() {
        let Some((rx, place)) = shelf.next_reader(last) else {
            unreachable!()
        };
        places.insert(rx.0, place)?;
        last = Some(rx);
    }
    Ok(places)
}

/// What the shelf holds, as plain data, with a clone of each kept value. It costs about as much as
/// `Shelf::from_window` of what it gives.
pub fn copy_window<T: Clone, S: Shelf<T>>(
    alloc: Global,
    shelf: &S,
) -> Result<WindowParts<T>, AllocError>
    requires clones { ClonesAreEqual T.is_clone }
    requires rising { IsRising (keys_of (S.window shelf.now).places) }
    ensures { IfOk result (λ parts. parts ≡ S.window shelf.now) }
{
    let kept = copy_kept(alloc, shelf)?;
    let places = copy_places(alloc, shelf)?;
    // What a window always is, which that of the parts needs.
    let _low = shelf.low();
    Ok(WindowParts {
        capacity: shelf.capacity(),
        tail: shelf.tail(),
        kept,
        places,
    })
}
