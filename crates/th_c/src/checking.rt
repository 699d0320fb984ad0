//! The check of traces, for C.
ghost use Rattle.std.specs.Prelude.{◌≡◌};
ghost use Rattle.th_c.specs.Checking.{Judges, Tells, number_of, status_of};

use crate::status;
use std::alloc::Global;
use th_check::{Verdict, check};
use th_lines::Counted;

// What a check says of the text; nothing where memory was refused.
fn judged(alloc: Global, text: &[u8]) -> Option<Verdict>
    ensures { Judges text.entry.now result }
{
    let mut reader = Counted::new(text);
    match check(alloc, &mut reader) {
        Ok(verdict) => Some(verdict),
        Err(_) => None,
    }
}

// The status of a verdict, and its number.
fn told(said: Option<Verdict>) -> (u32, u64)
    ensures { result ≡ (status_of said, number_of said) }
{
    match said {
        Some(Verdict::Legal(count)) => (status::LEGAL, count),
        Some(Verdict::Illegal(line)) => (status::ILLEGAL, line),
        Some(Verdict::BadTrace(line)) => (status::BAD_TRACE, line),
        None => (status::NO_MEMORY, 0),
    }
}

/// Whether a text is the trace of a legal history.
#[unsafe(no_mangle)]
pub extern "C" fn topichub_check(alloc: Global, text: &[u8], line: &mut u64) -> u32
    ensures { Tells text.now result line.new }
{
    let (status, number) = told(judged(alloc, text));
    *line = number;
    status
}
