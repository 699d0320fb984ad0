//! Calls of th_numbered, at numbers.
use std::alloc::{AllocError, Global};
use std::collections::BTreeMap;
use th_numbered::ByNumber;

pub fn make(alloc: Global, map: &BTreeMap<u64, u64>) -> Result<ByNumber<u64>, AllocError> {
    let _ = ByNumber::<u64>::new(alloc);
    ByNumber::<u64>::copied_from(alloc, map)
}

pub fn look(list: &ByNumber<u64>) -> usize {
    let _ = list.get(7);
    let _ = list.nth(7);
    let _ = list.next_after(Some(7));
    list.len()
}

pub fn write(list: &mut ByNumber<u64>, n: u64) -> Result<(), AllocError> {
    if let Some(value) = list.get_mut(n) {
        *value = 7;
    }
    list.insert(n, 7)
}

pub fn take(list: &mut ByNumber<u64>, n: u64) -> Option<u64> {
    let _ = list.pop_first();
    list.remove(n)
}
