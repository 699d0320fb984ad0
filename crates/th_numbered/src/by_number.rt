//! The list.
ghost use Rattle.std.specs.Prelude.{◌≡◌, ◌+◌, ◌^◌, ◌<◌, [], ◌∷◌, Some, length, drop, slice_get, IfOk, IfNone, IfSome, OnOk, OnErr, option_copied};
ghost use Rattle.std.specs.Option.{option_copied_mut, option_map};
ghost use Rattle.std.specs.Borrow.{sem};
ghost use Rattle.std.specs.Ordering.{nat_cmp};
ghost use Rattle.std.specs.Map.{remove_entry};
ghost use Rattle.std.specs.BTreeMap.{insert_entry, is_at};
ghost use Rattle.th_numbered.specs.Numbered.{above, at, IsOrdered};
ghost use Rattle.th_numbered.specs.Slots.{AreRising, Finds, StartsWithGaps, present, slot_at};
ghost use Rattle.th_numbered.specs.Lends.{lends_get};

use std::alloc::{AllocError, Global};
use std::collections::BTreeMap;
use std::marker::Model;

/// Values by number, in a list that is sorted by the numbers.
///
/// A number is looked for first where it stands if none is missing between the list's first number and
/// it, and else by halving. So `get` and `get_mut` cost a constant where the numbers are dense, and at
/// most a logarithm of the list's length. `insert` costs the same where the number is the highest, but
/// for what a vector's growth takes; else it moves the values behind. `remove` costs a look-up, and a
/// constant on average: it leaves a gap, and gaps are closed as soon as they outnumber the values.
/// Calls of `pop_first` in a row cost a constant each on average, whatever gaps stand in front. `nth(k)` is
/// linear in `k`, and `nth` and `next_after` go over the gaps that they meet.
///
/// Only `insert` takes memory: a slot for each value, and a gap keeps its own. A list that shrinks gives
/// none back before it is dropped. To insert in falling order is quadratic in all.
#[derive(Drop)]
pub struct ByNumber<V> {
    // The numbers rise, so that number `n` stands at most `n - first number` behind the first. A gap keeps
    // its number, so that the places of the others stay as they are.
    list: Vec<(u64, Option<V>)>,
    // How many are no gaps.
    len: usize,
    // At least so many slots in front are gaps, so that the first value is looked for behind them: else a
    // run of `pop_first` would go over the same gaps each time.
    first: usize,
}

impl<V> Model for ByNumber<V> {
    ghost use Rattle.std.specs.Prelude.{◌≡◌, length};
    ghost use Rattle.th_numbered.specs.Numbered.{Numbered, numbered_code};
    ghost use Rattle.th_numbered.specs.Slots.{AreRising, StartsWithGaps, present};

    ghost Value = { Numbered V };

    ghost coded = { numbered_code V.code };

    ghost view = { λ a. record { entries = present a.list.items } };

    ghost invariant = { λ a. AreRising a.list.items × (a.len ≡ length (present a.list.items))
        × StartsWithGaps a.first a.list.items };
}

// Where the number stands, or else would. The guess is never too low, since numbers rise: so where it is wrong, only
// the slots before it are searched.
#[inline(always)]
fn find<V>(list: &Vec<(u64, Option<V>)>, n: u64) -> Result<usize, usize>
    requires { AreRising list.now.items }
    ensures { Finds n list.now.items result }
{
    let mut high = list.len();
    if high == 0 {
        return Err(0);
    }
    let first = list[0].0;
    if n < first {
        return Err(0);
    }
    let ahead = n - first;
    if ahead < high as u64 {
        let guess = ahead as usize;
        if list[guess].0 == n {
            return Ok(guess);
        }
        high = guess;
    }
    let mut low = 0;
    while low < high {
        let middle = low + (high - low) / 2;
        let number = list[middle].0;
        if number == n {
            return Ok(middle);
        }
        if number < n {
            low = middle + 1;
        } else {
            high = middle;
        }
    }
    Err(low)
}

// The first entry from the `i`-th slot on, with its slot.
fn entry_from<V>(list: &Vec<(u64, Option<V>)>, i: usize) -> Option<(usize, u64, &V)>
    ensures none { IfNone result (present (drop i list.now.items) ≡ []) }
    ensures some { IfSome result (λ r. present (drop i list.now.items)
        ≡ (r.1, r.2.now) ∷ present (drop (r.0 + 1) list.now.items)) }
    ensures within { IfSome result (λ r. r.0 < length list.now.items) }
    ensures slot { IfSome result (λ r. slot_at list.now.items r.0 ≡ Some r.2.now) }
    ensures gaps { IfSome result (λ r. StartsWithGaps i list.now.items
        → StartsWithGaps r.0 list.now.items) }
{
    let mut k = i;
    while k < list.len() {
        if let Some(value) = &list[k].1 {
            return Some((k, list[k].0, value));
        }
        k += 1;
    }
    None
}

// The first entry from the `i`-th slot on.
fn first_entry<V>(list: &Vec<(u64, Option<V>)>, i: usize) -> Option<(u64, &V)>
    ensures { option_map (λ e. (e.0, e.1.now)) result
        ≡ slice_get (present (drop i list.now.items)) 0 }
{
    match entry_from(list, i) {
        Some((_, n, value)) => Some((n, value)),
        None => None,
    }
}

// The `k`-th entry.
fn nth_entry<V>(list: &Vec<(u64, Option<V>)>, k: u64) -> Option<(u64, &V)>
    ensures { option_map (λ e. (e.0, e.1.now)) result ≡ slice_get (present list.now.items) k }
{
    let mut i = 0;
    let mut left = k;
    while left > 0 {
        let Some((at, _, _)) = entry_from(list, i) else {
            return None;
        };
        left -= 1;
        i = at + 1;
    }
    first_entry(list, i)
}

// The first slot whose number is above this one, or the first of all.
fn behind<V>(list: &Vec<(u64, Option<V>)>, after: Option<u64>) -> usize
    requires { AreRising list.now.items }
    ensures { present (drop result list.now.items) ≡ above after (present list.now.items) }
{
    let Some(n) = after else {
        return 0;
    };
    match find(list, n) {
        Ok(i) => i + 1,
        Err(i) => i,
    }
}

impl<V> ByNumber<V> {
    /// No values. This takes no memory.
    pub fn new(alloc: Global) -> ByNumber<V>
        ensures empty { result.entries ≡ [] }
    {
        ByNumber {
            list: Vec::new(alloc),
            len: 0,
            first: 0,
        }
    }

    /// How many values there are.
    pub fn len(&self) -> usize
        ensures len { result ≡ length self.now.entries }
        ensures small { result < 2 ^ 63 }
        ensures ordered { IsOrdered self.now }
    {
        let _ = self.list.len();
        self.len
    }

    /// The value at a number.
    #[inline(always)]
    pub fn get(&self, n: u64) -> Option<&V>
        ensures { option_copied result ≡ at self.now n }
    {
        match find(&self.list, n) {
            Ok(i) => self.list[i].1.as_ref(),
            Err(_) => None,
        }
    }

    /// The value at a number, for writing.
    #[inline(always)]
    pub fn get_mut(&mut self, n: u64) -> Option<&mut V>
        ensures* writes_back { sem 𝓛 (lends_get V.row self.entry n result) }
        ensures value { option_copied_mut result ≡ at self.old n }
        ensures ordered { IsOrdered self.old }
    {
        match find(&self.list, n) {
            Ok(i) => match self.list[i].1.as_mut() {
                Some(value) => Some(value),
                None => None,
            },
            Err(_) => None,
        }
    }

    /// Puts a value at a number, in place of the one that may be there, which is dropped.
    ///
    /// # Errors
    ///
    /// Memory is refused. All values are as they were, and the new one is dropped.
    pub fn insert(&mut self, n: u64, value: V) -> Result<(), AllocError>
    where
        V: Drop,
        ensures entries { OnOk result
            (self.new.entries ≡ insert_entry nat_cmp self.old.entries n value) }
        ensures err { OnErr result (self.new.entries ≡ self.old.entries) }
    {
        match find(&self.list, n) {
            Ok(i) => match self.list[i].1.replace(value) {
                Some(_) => Ok(()),
                None => {
                    self.len += 1;
                    self.first = self.first.min(i);
                    Ok(())
                }
            },
            Err(i) => match self.list.insert(i, (n, Some(value))) {
                Ok(()) => {
                    self.len += 1;
                    self.first = self.first.min(i);
                    Ok(())
                }
                Err(_) => Err(AllocError),
            },
        }
    }

    /// Takes out the value at a number, if there is one.
    pub fn remove(&mut self, n: u64) -> Option<V>
    where
        V: Drop,
        ensures value { result ≡ at self.old n }
        ensures entries { self.new.entries ≡ remove_entry (is_at (nat_cmp n)) self.old.entries }
    {
        let Ok(i) = find(&self.list, n) else {
            return None;
        };
        let Some(value) = self.list[i].1.take() else {
            return None;
        };
        self.len -= 1;
        self.close_gaps();
        Some(value)
    }

    /// The entry with the `k`-th lowest number, counted from 0.
    pub fn nth(&self, k: u64) -> Option<(u64, &V)>
        ensures { option_map (λ e. (e.0, e.1.now)) result ≡ slice_get self.now.entries k }
    {
        nth_entry(&self.list, k)
    }

    /// The entry with the lowest number above `after`; of all, where that is `None`.
    pub fn next_after(&self, after: Option<u64>) -> Option<(u64, &V)>
        ensures { option_map (λ e. (e.0, e.1.now)) result
            ≡ slice_get (above after self.now.entries) 0 }
    {
        first_entry(&self.list, behind(&self.list, after))
    }

    /// Takes out the entry with the lowest number, if there is one. Calls in a row until nothing is left cost no more
    /// than the list's length, all together.
    pub fn pop_first(&mut self) -> Option<(u64, V)>
    where
        V: Drop,
        ensures removal { IfSome result (λ p. self.old.entries ≡ p ∷ self.new.entries) }
        ensures none { IfNone result ((self.old.entries ≡ []) × (self.new.entries ≡ [])) }
    {
        let Some((at, n, _)) = entry_from(&self.list, self.first) else {
            return None;
        };
        let Some(value) = self.list[at].1.take() else {
            return None;
        };
        self.len -= 1;
        self.first = at + 1;
        self.close_gaps();
        Some((n, value))
    }

    // Closes the gaps where they outnumber the values. A gap was made by one removal, so each pays for a constant.
    fn close_gaps(&mut self)
    where
        V: Drop,
        ensures { self.new.entries ≡ self.old.entries }
    {
        if self.list.len() - self.len > self.len {
            self.list.retain(|slot| slot.1.is_some());
            self.first = 0;
        }
    }
}

impl ByNumber<u64> {
    /// A copy of a map's entries.
    ///
    /// # Errors
    ///
    /// Memory is refused.
    pub fn copied_from(alloc: Global, map: &BTreeMap<u64, u64>) -> Result<ByNumber<u64>, AllocError>
        ensures { IfOk result (λ own. own.entries ≡ map.now.entries) }
    {
        let mut list = Vec::with_capacity(alloc, map.len())?;
        for (n, value) in map {
            list.push((*n, Some(*value)))?;
        }
        Ok(ByNumber {
            list,
            len: map.len(),
            first: 0,
        })
    }
}
