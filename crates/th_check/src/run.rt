//! A trace is read and judged.
ghost use Rattle.std.specs.Prelude.{◌≡◌, ◌+◌, ◌≤◌, ◌^◌, IfErr, IfOk, OnErr};
ghost use Rattle.th_check.specs.Checked.{Checked, Stopped, failures_of, within_most};
ghost use Rattle.th_check.specs.Explaining.{Explains};

use crate::checker::judge;
use crate::explain::explain;
use crate::fault::CheckFault;
use crate::verdict::Verdict;
use std::alloc::Global;
use std::io::Read;
use th_lines::{Counted, MOST_READS};

/// Checks the trace that the reader tells, by at most so many reads and never more than 2^32, of which
/// an interrupted one is made again and counts. It stops reading at the first line that is bad or
/// illegal; that a trace is legal it says once the input has ended.
///
/// The channel of the trace is made from its picture, and goes through the entries. A line takes time
/// with its length and what its call takes. Of the text no more is kept than what one read gave, and
/// what it tells of the channel: memory does not grow with the number of entries.
///
/// # Errors
///
/// `Read` exactly where the reader failed, `TooLong` where one more read would be needed, `Short` where
/// memory was refused.
pub fn check_bounded<R: Read>(
    alloc: Global,
    reader: &mut Counted<R>,
    reads: u64,
) -> Result<Verdict, CheckFault>
    ensures verdict { IfOk result (λ said. Checked
        (R.remaining reader.old.device) (R.remaining reader.new.device) said) }
    ensures fault { IfErr result (λ e. Stopped
        (R.remaining reader.old.device) (R.remaining reader.new.device)
        reader.old.calls reader.new.calls (within_most reads) e) }
    ensures reads { reader.new.calls ≤ reader.old.calls + within_most reads }
    ensures reader { reader.new.failures ≡ failures_of reader.old.failures result }
{
    match judge(alloc, reader, reads) {
        Ok((verdict, _)) => Ok(verdict),
        Err(fault) => Err(fault),
    }
}

/// Checks a trace by at most 2^32 reads, as [`check_bounded`] does.
pub fn check<R: Read>(alloc: Global, reader: &mut Counted<R>) -> Result<Verdict, CheckFault>
    ensures verdict { IfOk result (λ said. Checked
        (R.remaining reader.old.device) (R.remaining reader.new.device) said) }
    ensures fault { IfErr result (λ e. Stopped
        (R.remaining reader.old.device) (R.remaining reader.new.device)
        reader.old.calls reader.new.calls (2 ^ 32) e) }
    ensures reads { reader.new.calls ≤ reader.old.calls + 2 ^ 32 }
    ensures reader { reader.new.failures ≡ failures_of reader.old.failures result }
{
    check_bounded(alloc, reader, MOST_READS)
}

/// Checks a trace as [`check`] does, and appends to the text for people what is wrong with it: of a line that is illegal
/// that line, and below it the reply that the channel gives there; of a bad one that line, or that it is missing. Each
/// ends with LF. Of a line or a reply no more than 200 bytes are shown, and ` ..` behind them; for a byte that is not
/// printable ASCII stands `?`. Where there is no memory for it, nothing is appended.
pub fn check_explained<R: Read>(
    alloc: Global,
    reader: &mut Counted<R>,
    text: &mut Vec<u8>,
) -> Result<Verdict, CheckFault>
    ensures verdict { IfOk result (λ said. Checked
        (R.remaining reader.old.device) (R.remaining reader.new.device) said) }
    ensures fault { IfErr result (λ e. Stopped
        (R.remaining reader.old.device) (R.remaining reader.new.device)
        reader.old.calls reader.new.calls (2 ^ 32) e) }
    ensures reads { reader.new.calls ≤ reader.old.calls + 2 ^ 32 }
    ensures reader { reader.new.failures ≡ failures_of reader.old.failures result }
    ensures text { IfOk result (λ said. Explains said text.old.items text.new.items) }
    ensures same { OnErr result (text.new ≡ text.old) }
{
    match judge(alloc, reader, MOST_READS) {
        Ok((verdict, checker)) => {
            explain(alloc, &checker, verdict, text);
            Ok(verdict)
        }
        Err(fault) => Err(fault),
    }
}
