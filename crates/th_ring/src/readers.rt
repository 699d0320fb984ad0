//! How many receivers have still to read each kept value, counted at once for all of them.
ghost use Rattle.std.specs.Prelude.{◌≡◌, ◌-◌, ◌≤◌, replicate, IfOk};
ghost use Rattle.th_ring.specs.Readers.{AreFirst, AreToCome};

use std::alloc::{AllocError, Global};
use std::collections::BTreeMap;

// So many zeros.
fn zeros(alloc: Global, count: u64) -> Result<Vec<u64>, AllocError>
    ensures { IfOk result (λ zeros. zeros.items ≡ replicate count 0) }
{
    let mut zeros = Vec::with_capacity(alloc, count as usize)?;
    for _ in 0..count {
        zeros.push(0)?;
    }
    Ok(zeros)
}

// For each position from `low` to the tail, how many receivers read it first of these.
fn count_first(
    alloc: Global,
    places: &BTreeMap<u64, u64>,
    low: u64,
    tail: u64,
) -> Result<Vec<u64>, AllocError>
    requires { low ≤ tail }
    ensures { IfOk result (λ counts. AreFirst low tail places.now.entries counts.items) }
{
    // A map has fewer entries than numbers, so that the counts fit.
    let _ = places.len();
    let mut counts = zeros(alloc, tail - low)?;
    for (_, place) in places {
        let first = (*place).max(low);
        if first < tail {
            counts[(first - low) as usize] += 1;
        }
    }
    Ok(counts)
}

/// For each position from `low` to the tail, how many receivers have still to read it. Linear in these and the receivers.
///
/// # Errors
///
/// There is no memory for the counts.
pub fn count_readers(
    alloc: Global,
    places: &BTreeMap<u64, u64>,
    low: u64,
    tail: u64,
) -> Result<Vec<u64>, AllocError>
    requires { low ≤ tail }
    ensures { IfOk result (λ counts. AreToCome low tail places.now.entries counts.items) }
{
    let _ = places.len();
    let mut counts = count_first(alloc, places, low, tail)?;
    let mut so_far = 0;
    for at in 0..tail - low {
        so_far += counts[at as usize];
        counts[at as usize] = so_far;
    }
    Ok(counts)
}
