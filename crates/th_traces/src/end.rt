//! The last line of a trace.
ghost use Rattle.std.specs.Prelude.{◌≡◌, ◌+◌, ◌≤◌, ◌++◌, IsOk, OnOk, OnErr, vec_len, vec_capacity};
ghost use Rattle.th_lines.specs.Replies.{ended};
ghost use Rattle.th_traces.specs.Entries.{end_of};
ghost use Rattle.th_traces.specs.Spelled.{end_line};

use crate::fields::last_number;
use crate::put::put_number;
use std::alloc::AllocError;
use th_lines::fields::cut;

/// Appends the last line of a trace with so many entries, or leaves the text as it was where there
/// is no memory for it. There is, where 4,096 bytes are free.
pub fn print_end(entries: u64, out: &mut Vec<u8>) -> Result<(), AllocError>
    ensures ok { OnOk result (out.new.items ≡ out.old.items ++ ended (end_line entries)) }
    ensures err { OnErr result (out.new.items ≡ out.old.items) }
    ensures most { vec_len out.new ≤ vec_len out.old + 4096 }
    ensures fits { vec_len out.old + 4096 ≤ vec_capacity out.old → IsOk result }
    ensures room { vec_capacity out.old ≤ vec_capacity out.new }
{
    out.reserve(4096)?;
    put_number(b"END ", entries, out);
    Ok(())
}

/// The number of entries that a line, without its line end, says as the last line of a trace; `None`
/// where it is no such line.
pub fn read_end(line: &[u8]) -> Option<u64>
    ensures { result ≡ end_of line.now }
{
    let (word, rest) = cut(line);
    if word != b"END".as_slice() {
        return None;
    }
    last_number(rest)
}
