//! Values by number in a sorted list. A number is found at once where none is missing before it, and by halving else.
//!
//! ```text
//! let mut places: ByNumber<u64> = ByNumber::new(alloc);
//! places.insert(7, 40)?;
//! places.insert(8, 41)?;
//! places.get(7)                               // 40
//! places.remove(7)                            // 40, and leaves a gap
//! places.pop_first()                          // 8 with 41, and the list is empty
//! ```
#![tactic(auto)]

pub mod by_number;

pub use by_number::ByNumber;
