//! Bytes that a reader gives, and the lines that are found in them.
ghost use Rattle.std.specs.Prelude.{◌≡◌, ◌∷◌, ◌++◌, ℕ, Bool, IfSome, List, [], true, false, ◌<◌, ◌+◌, ◌≤◌, IfOk, drop, length, slice_range, take};
ghost use Rattle.th_lines.specs.Device.{ReadMoved, bytes_moved, failures_after, one_more};
ghost use Rattle.th_lines.specs.Intake.{Ends, Fills, Finds, IsSameLine, Passes, Reading, line_given, lines_after, most_read, nothing_came, nothing_read};
ghost use Rattle.th_lines.specs.Lines.{Good, line_of, lines_from};

use crate::counted::{Counted, Moved};
use crate::cut::{LINE_KEPT, LINE_LIMIT, keep_begun};
use bstr::ByteSlice;
use std::alloc::{AllocError, Global};
use std::io::Read;
use std::marker::Model;

/// How many bytes are asked for in one read.
const CHUNK: usize = 65536;

/// What came of the input and is not answered yet.
///
/// A line is lent from the buffer that the reader filled, and its bytes are not copied. What came of a line by the end of
/// a read is moved to before the place that the next read fills, so that every line lies in one piece; at most 4,097
/// bytes are moved, enough to show that a line is too long. All memory is made by `new`.
#[derive(Drop)]
pub struct Intake {
    // The last read filled this from byte `LINE_KEPT` on. Before it stands what an earlier read gave of the line that it
    // goes on with.
    buffer: Vec<u8>,
    // The line that was handed out last is `buffer[line_from..line_to]`. It is empty after a read.
    line_from: usize,
    line_to: usize,
    // Of the line after it `buffer[begun..ahead_from]` was looked at and has no LF.
    begun: usize,
    // Nobody looked at `buffer[ahead_from..ahead_to]` yet.
    ahead_from: usize,
    ahead_to: usize,
}

impl Model for Intake {
    ghost use Rattle.std.specs.Prelude.{length, slice_range};
    ghost use Rattle.th_lines.specs.Intake.{IsPlaced, Reading};

    ghost Value = { Reading };

    ghost view = { λ i. record {
      line = slice_range i.buffer.items i.line_from i.line_to;
      came = record {
        begun = slice_range i.buffer.items i.begun i.ahead_from;
        ahead = slice_range i.buffer.items i.ahead_from i.ahead_to;
      };
    } };

    ghost invariant = { λ i. IsPlaced
        (length i.buffer.items) i.line_from i.line_to i.begun i.ahead_from i.ahead_to };
}

impl Intake {
    /// Nothing came yet.
    pub fn new(alloc: Global) -> Result<Intake, AllocError>
        ensures { IfOk result (λ i. i ≡ nothing_read) }
    {
        let buffer = vec![in alloc; 0u8; LINE_KEPT + CHUNK]?;
        Ok(Intake {
            buffer,
            line_from: 0,
            line_to: 0,
            begun: LINE_KEPT,
            ahead_from: LINE_KEPT,
            ahead_to: LINE_KEPT,
        })
    }

    /// Looks for the end of the next line among the bytes ahead, and answers whether the line is whole. It is handed out
    /// then, and [`line`](Intake::line) lends it until the next line is looked for. Every byte is looked at once.
    #[inline(always)]
    pub fn next_line(&mut self) -> bool
        ensures { Finds self.old.came result self.new }
    {
        let ahead = &self.buffer[self.ahead_from..self.ahead_to];
        let Some(count) = ahead.find_byte(b'\n') else {
            self.ahead_from = self.ahead_to;
            return false;
        };
        let end = self.ahead_from + count;
        self.line_from = self.begun;
        self.line_to = end;
        self.begun = end + 1;
        self.ahead_from = end + 1;
        true
    }

    /// Hands out what stands after the last LF at the end of the input, and answers whether anything does.
    pub fn last_line(&mut self) -> bool
        requires { self.old.came.ahead ≡ [] }
        ensures { Ends self.old.came result self.new }
    {
        self.line_from = self.begun;
        self.line_to = self.ahead_from;
        self.begun = self.ahead_from;
        self.line_from < self.line_to
    }

    /// The line that was handed out, without one CR before its LF; `None` where it is too long.
    #[inline(always)]
    pub fn line(&self, before_lf: bool) -> Option<&[u8]>
        ensures { line_given result ≡ line_of before_lf self.now.line }
    {
        given(&self.buffer[self.line_from..self.line_to], before_lf)
    }

    /// Hands out so many lines that came whole, one after another: the last of them is lent then.
    pub fn pass(&mut self, count: usize)
        requires { count ≤ length (lines_after false self.old.came []) }
        ensures { Passes count self.old.came self.new.came }
    {
        for passed in 0..count {
            let _ = self.next_line();
        }
    }

    /// The bytes that came behind the line that was handed out.
    #[inline(always)]
    pub fn ahead(&self) -> &[u8]
        ensures { result.now ≡ self.now.came.ahead }
    {
        &self.buffer[self.ahead_from..self.ahead_to]
    }

    /// Whether nothing came since the last LF.
    pub fn is_empty(&self) -> bool
        ensures empty { result ≡ true → self.now.came ≡ nothing_came }
        ensures some { result ≡ false
            → 0 < length self.now.came.begun + length self.now.came.ahead }
    {
        self.begun == self.ahead_to
    }

    /// Makes one read of at most 65,536 bytes, once nothing is ahead. Interrupted, it is to be made again.
    pub fn fill<R: Read>(&mut self, reader: &mut Counted<R>) -> Moved
        requires { self.old.came.ahead ≡ [] }
        ensures filled { Fills
            (R.remaining reader.old.device) (R.remaining reader.new.device) result
            self.old.came self.new.came }
        ensures most { length self.new.came.ahead ≤ most_read }
        ensures calls { reader.new.calls ≡ one_more reader.old.calls }
        ensures failures { reader.new.failures ≡ failures_after reader.old.failures result }
    {
        let (begun, moved) = refill(
            reader,
            self.buffer.as_mut_slice(),
            self.begun,
            self.ahead_from,
        );
        self.line_from = 0;
        self.line_to = 0;
        self.begun = begun;
        self.ahead_from = LINE_KEPT;
        self.ahead_to = LINE_KEPT + bytes_moved(moved);
        moved
    }
}

/// The line at the front of these bytes, without its end, and what stands behind it; `None` where none is whole, or where it is
/// too long.
pub fn front_line(bytes: &[u8]) -> Option<(&[u8], &[u8])>
    ensures { IfSome result (λ found. (ended : Bool) (more : List ℕ) →
        lines_from ended [] (bytes.now ++ more)
        ≡ Good found.0.now ∷ lines_from ended [] (found.1.now ++ more)) }
{
    let count = bytes.find_byte(b'\n')?;
    let line = given(&bytes[..count], true)?;
    Some((line, &bytes[count + 1..]))
}

// The line that these bytes are; `None` where it is too long.
#[inline(always)]
fn given(line: &[u8], before_lf: bool) -> Option<&[u8]>
    ensures { line_given result ≡ line_of before_lf line.now }
{
    if line.len() > LINE_LIMIT {
        return None;
    }
    if before_lf && line.last() == Some(&b'\r') {
        return Some(&line[..line.len() - 1]);
    }
    Some(line)
}

// How many bytes a call moved.
fn bytes_moved(moved: Moved) -> usize
    ensures { result ≡ bytes_moved moved }
{
    match moved {
        Moved::Bytes(count) => count,
        _ => 0,
    }
}

// Moves what came of a line, from `begun` to `end`, to before byte `LINE_KEPT`, and makes one read behind it. Answers
// where the line begins then.
fn refill<R: Read>(
    reader: &mut Counted<R>,
    buffer: &mut [u8],
    begun: usize,
    end: usize,
) -> (usize, Moved)
    requires line { begun ≤ end }
    requires line_end { end ≤ length buffer.old }
    requires room { LINE_KEPT < length buffer.old }
    ensures begun { result.0 ≤ LINE_KEPT }
    ensures kept { IsSameLine
        (slice_range buffer.new result.0 LINE_KEPT) (slice_range buffer.old begun end) }
    ensures moved { ReadMoved
        (R.remaining reader.old.device) (R.remaining reader.new.device) result.1
        (drop LINE_KEPT buffer.new) }
    ensures calls { reader.new.calls ≡ one_more reader.old.calls }
    ensures failures { reader.new.failures ≡ failures_after reader.old.failures result.1 }
{
    let begun = keep_begun(buffer, begun, end);
    let moved = read_behind(reader, buffer, LINE_KEPT);
    (begun, moved)
}

// Makes one read into what stands behind the first bytes of the buffer.
fn read_behind<R: Read>(reader: &mut Counted<R>, buffer: &mut [u8], front: usize) -> Moved
    requires { front ≤ length buffer.old }
    ensures kept { take front buffer.new ≡ take front buffer.old }
    ensures moved { ReadMoved
        (R.remaining reader.old.device) (R.remaining reader.new.device) result
        (drop front buffer.new) }
    ensures calls { reader.new.calls ≡ one_more reader.old.calls }
    ensures failures { reader.new.failures ≡ failures_after reader.old.failures result }
{
    reader.read_some(&mut buffer[front..])
}
