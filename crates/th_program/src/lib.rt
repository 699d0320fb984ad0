//! What the program `topichub` does: by the words of its command line, over any reader and writers, and how it ends.
//!
//! ```text
//! let mut input = Counted::new(b"a OPEN t B 2\n".as_slice());
//! let mut output = Counted::new(Vec::new(alloc));
//! let mut errors = Counted::new(Vec::new(alloc));
//! let end = run(alloc, &["topichub", "replay"], &mut input, &mut output, &mut errors);
//! // status(&end) is 0, and output.device() has "OK 2\n"
//! ```
#![tactic(auto)]

mod advice;
mod advising;
mod anchors;
mod end;
mod files;
mod folders;
mod help;
mod listed;
mod modes;
mod part_names;
mod program;
mod shown;
mod streams;
mod sums;
mod whole;
mod words;

pub use advising::Advising;
pub use anchors::Anchor;
pub use end::{End, explanation, status};
pub use files::{Opens, check_by_words, check_files, check_joined};
pub use modes::{Manner, Mode, ModeFault, Serving, Sources, Standing, Wanted};
pub use part_names::part_name;
pub use program::{greet, run, run_for, run_not_text, run_short};
pub use streams::{WordsFault, given_words, run_on_streams, texts};
pub use sums::{Sum, sum_of};
pub use words::mode;
