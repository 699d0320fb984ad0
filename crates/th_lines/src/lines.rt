//! Lines that are printed one after another.
ghost use Rattle.std.specs.Prelude.{◌+◌, ◌≤◌, ℕ, List, IsOk, vec_capacity, vec_len};
ghost use Rattle.th_lines.specs.Printing.{PrintsNext};

use std::alloc::AllocError;

/// Lines that are printed piece by piece, each piece at most 4,096 bytes.
pub trait Lines: Drop {
    /// The pieces that are to come, each one or more lines with their ends.
    ghost to_come: { Self → List (List ℕ) };

    /// Appends the next piece, and says whether there was one. Where there is no memory for it nothing has changed.
    /// There is, where 4,096 bytes are free.
    fn print_next(&mut self, out: &mut Vec<u8>) -> Result<bool, AllocError>
        ensures printed { PrintsNext
            (to_come self.old) (to_come self.new) out.old.items out.new.items result }
        ensures fits { vec_len out.old + 4096 ≤ vec_capacity out.old → IsOk result }
        ensures room { vec_capacity out.old ≤ vec_capacity out.new };
}
