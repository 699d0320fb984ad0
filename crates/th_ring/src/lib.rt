//! A shelf as a ring of counted slots: one slot for each position of the window, all made with the
//! shelf, each with the number of receivers that have still to read it.
//!
//! ```text
//! let mut shelf: RingShelf<u64> = RingShelf::new(alloc, Capacity::new(2)?, 0)?;
//! shelf.join(RxId(2))?;                       // at the tail, which is 0
//! shelf.push(7)?;                             // takes no memory, and so never fails
//! shelf.join_oldest(RxId(3))?;                // at position 0: two receivers have 7 to come now
//! let found = shelf.receive(RxId(2))?;        // Received::Value(7), a clone
//! let value = shelf.take(RxId(3))?;           // 7 itself: nobody has it to come any more
//! ```
#![tactic(auto)]

mod readers;
pub mod ring;
pub mod slot;

pub use ring::RingShelf;
