//! What is kept of a line that has begun.
ghost use Rattle.std.specs.Prelude.{◌≤◌, length, slice_range};
ghost use Rattle.th_lines.specs.Intake.{IsSameLine};

/// The most bytes that a line has before its LF.
pub(crate) const LINE_LIMIT: usize = 4096;

/// How many bytes are kept of a line that has begun: enough to show that it is too long.
pub(crate) const LINE_KEPT: usize = LINE_LIMIT + 1;

/// Moves what came of a line, from `begun` to `end`, to before byte `LINE_KEPT` of the buffer, and answers where it
/// begins then. Of a line that is too long only so much is kept as shows that.
pub(crate) fn keep_begun(buffer: &mut [u8], begun: usize, end: usize) -> usize
    requires line { begun ≤ end }
    requires line_end { end ≤ length buffer.old }
    requires room { LINE_KEPT ≤ length buffer.old }
    ensures from { result ≤ LINE_KEPT }
    ensures kept { IsSameLine
        (slice_range buffer.new result LINE_KEPT) (slice_range buffer.old begun end) }
{
    let kept = (end - begun).min(LINE_KEPT);
    let from = LINE_KEPT - kept;
    buffer.copy_within(begun..begun + kept, from);
    from
}
