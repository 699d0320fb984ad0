//! Replies that wait to be written.
ghost use Rattle.std.specs.Prelude.{◌≡◌, ◌+◌, ◌≤◌, [], ℕ, List, IfOk, OnOk, length, map, take, vec_capacity, vec_len};
ghost use Rattle.std.specs.List.{concat};
ghost use Rattle.th_lines.specs.Output.{AddsOrFails, Flushes, Writes, output};
ghost use Rattle.th_lines.specs.Replies.{ended, head, row, spell, telling};

use crate::counted::{Counted, Moved};
use crate::fault::WriteFailed;
use crate::lines::Lines;
use crate::print::{print_head, print_row, print_value};
use crate::reply::{Reply, ValueWord};
use std::alloc::{AllocError, Global};
use std::io::Write;
use std::marker::Model;
use th_model::{Listed, Value};

/// How many bytes wait at most.
const ROOM: usize = 65536;

/// The most bytes that one line of a reply takes, or one piece of lines.
const LINE_ROOM: usize = 4096;

/// How many interrupted calls of the writer are made again in one run.
const RETRIES: u32 = 1000;

/// The replies that were given and are not written yet. They are written in large pieces, so that a line costs no call
/// of the writer. All memory is made by `new`.
#[derive(Drop)]
pub struct WriteBuffer {
    // The first of these wait, in order: `filled` many. What stands behind them is room for the next line. Where there
    // may be too little room for it, all that waits is written first.
    bytes: Vec<u8>,
    filled: usize,
    // How many interrupted calls may still be made again: one less with each that is.
    retries: u32,
}

impl Model for WriteBuffer {
    ghost Value = { List ℕ };

    ghost view = { λ b. take b.filled b.bytes.items };

    ghost invariant = { λ b. (b.filled ≤ vec_len b.bytes) × (4096 ≤ vec_capacity b.bytes) };
}

impl WriteBuffer {
    /// An empty one, with room for all that will ever wait in it.
    pub fn new(alloc: Global) -> Result<WriteBuffer, AllocError>
        ensures { IfOk result (λ b. b ≡ []) }
    {
        let bytes = Vec::with_capacity(alloc, ROOM)?;
        Ok(WriteBuffer {
            bytes,
            filled: 0,
            retries: RETRIES,
        })
    }

    /// Puts a reply behind those that wait, line by line, so that a list of any length takes no more memory.
    ///
    /// # Errors
    ///
    /// The writer failed, and a front of what waited and the reply was written.
    #[inline(always)]
    pub fn append<W: Write>(
        &mut self,
        writer: &mut Counted<W>,
        reply: &Reply,
    ) -> Result<(), WriteFailed>
        ensures { AddsOrFails (spell reply.now)
            (output W.contents writer.old self.old) (output W.contents writer.new self.new) result }
    {
        match self.append_head(writer, reply) {
            Ok(()) => {}
            Err(e) => return Err(e),
        }
        if let Reply::Topics(listing) = reply {
            return self.append_rows(writer, listing.rows());
        }
        Ok(())
    }

    /// Puts the reply that tells a value so behind those that wait. The value stays where it is.
    ///
    /// # Errors
    ///
    /// The writer failed, and a front of what waited and the reply was written.
    #[inline(always)]
    pub fn append_value<W: Write>(
        &mut self,
        writer: &mut Counted<W>,
        word: ValueWord,
        value: &Value,
    ) -> Result<(), WriteFailed>
        ensures { AddsOrFails (spell (telling word value.now))
            (output W.contents writer.old self.old) (output W.contents writer.new self.new) result }
    {
        match make_room(&mut self.bytes, &mut self.filled, &mut self.retries, writer) {
            Ok(()) => {}
            Err(e) => return Err(e),
        }
        self.filled = print_value(word, value, self.bytes.as_mut_slice(), self.filled);
        Ok(())
    }

    /// Puts lines behind what waits, piece by piece, so that a text of any length takes no more memory.
    ///
    /// # Errors
    ///
    /// The writer failed, and a front of what waited and the lines was written.
    pub fn append_lines<W: Write, L: Lines>(
        &mut self,
        writer: &mut Counted<W>,
        lines: &mut L,
    ) -> Result<(), WriteFailed>
        ensures { AddsOrFails (concat (L.to_come lines.old))
            (output W.contents writer.old self.old) (output W.contents writer.new self.new) result }
    {
        append_pieces(
            &mut self.bytes,
            &mut self.filled,
            &mut self.retries,
            writer,
            lines,
        )
    }

    /// Whether one line more goes in without a write. No clause says so: when bytes are written, none rests on.
    pub fn has_room(&self) -> bool {
        self.has_room_for(0)
    }

    /// Whether so many bytes go in without a write, and then one line more. No clause says so either.
    pub fn has_room_for(&self, bytes: usize) -> bool {
        self.bytes.capacity() - self.filled >= LINE_ROOM.saturating_add(bytes)
    }

    /// Writes all that waits and flushes the writer, so that whoever reads the replies has them all. Where nothing
    /// waits the writer is not called.
    ///
    /// # Errors
    ///
    /// The writer failed, and a front of what waited was written.
    pub fn flush<W: Write>(&mut self, writer: &mut Counted<W>) -> Result<(), WriteFailed>
        ensures { Flushes
            (output W.contents writer.old self.old) (output W.contents writer.new self.new) result }
    {
        flush_waiting(&self.bytes, &mut self.filled, &mut self.retries, writer)
    }

    // Puts the first line of a reply behind what waits.
    #[inline(always)]
    fn append_head<W: Write>(
        &mut self,
        writer: &mut Counted<W>,
        reply: &Reply,
    ) -> Result<(), WriteFailed>
        ensures { AddsOrFails (ended (head reply.now))
            (output W.contents writer.old self.old) (output W.contents writer.new self.new) result }
    {
        match make_room(&mut self.bytes, &mut self.filled, &mut self.retries, writer) {
            Ok(()) => {}
            Err(e) => return Err(e),
        }
        self.filled = print_head(reply, self.bytes.as_mut_slice(), self.filled);
        Ok(())
    }

    // Puts the lines of these topics behind what waits.
    fn append_rows<W: Write>(
        &mut self,
        writer: &mut Counted<W>,
        topics: &[Listed],
    ) -> Result<(), WriteFailed>
        ensures { AddsOrFails (concat (map ended (map row topics.now)))
            (output W.contents writer.old self.old) (output W.contents writer.new self.new) result }
    {
        for topic in topics {
            match self.append_row(writer, topic) {
                Ok(()) => {}
                Err(e) => return Err(e),
            }
        }
        Ok(())
    }

    // Puts the line of this topic behind what waits.
    fn append_row<W: Write>(
        &mut self,
        writer: &mut Counted<W>,
        topic: &Listed,
    ) -> Result<(), WriteFailed>
        ensures { AddsOrFails (ended (row topic.now))
            (output W.contents writer.old self.old) (output W.contents writer.new self.new) result }
    {
        match make_room(&mut self.bytes, &mut self.filled, &mut self.retries, writer) {
            Ok(()) => {}
            Err(e) => return Err(e),
        }
        self.filled = print_row(topic, self.bytes.as_mut_slice(), self.filled);
        Ok(())
    }
}

// Puts the pieces that are to come behind what waits.
fn append_pieces<W: Write, L: Lines>(
    bytes: &mut Vec<u8>,
    filled: &mut usize,
    retries: &mut u32,
    writer: &mut Counted<W>,
    lines: &mut L,
) -> Result<(), WriteFailed>
    requires { (filled.old ≤ vec_len bytes.old) × (LINE_ROOM ≤ vec_capacity bytes.old) }
    ensures added { AddsOrFails (concat (L.to_come lines.old))
        (output W.contents writer.old (take filled.old bytes.old.items))
        (output W.contents writer.new (take filled.new bytes.new.items)) result }
    ensures room { (filled.new ≤ vec_len bytes.new) × (LINE_ROOM ≤ vec_capacity bytes.new) }
{
    loop {
        match write_if_full(bytes, filled, retries, writer) {
            Ok(()) => {}
            Err(e) => return Err(e),
        }
        bytes.truncate(*filled);
        match lines.print_next(bytes) {
            Ok(true) => *filled = bytes.len(),
            Ok(false) => return Ok(()),
            Err(_) => unreachable!(),
        }
    }
}

// Makes room for one line more behind the first bytes, which wait. Mostly there is.
#[inline(always)]
fn make_room<W: Write>(
    bytes: &mut Vec<u8>,
    filled: &mut usize,
    retries: &mut u32,
    writer: &mut Counted<W>,
) -> Result<(), WriteFailed>
    requires { (filled.old ≤ vec_len bytes.old) × (LINE_ROOM ≤ vec_capacity bytes.old) }
    ensures added { AddsOrFails []
        (output W.contents writer.old (take filled.old bytes.old.items))
        (output W.contents writer.new (take filled.new bytes.new.items)) result }
    ensures room { OnOk result (filled.new + LINE_ROOM ≤ vec_len bytes.new) }
    ensures within { (filled.new ≤ vec_len bytes.new) × (LINE_ROOM ≤ vec_capacity bytes.new) }
{
    if bytes.len() - *filled < LINE_ROOM {
        return make_more_room(bytes, filled, retries, writer);
    }
    Ok(())
}

// The same, where the bytes behind those that wait are too few for a line.
#[inline(never)]
fn make_more_room<W: Write>(
    bytes: &mut Vec<u8>,
    filled: &mut usize,
    retries: &mut u32,
    writer: &mut Counted<W>,
) -> Result<(), WriteFailed>
    requires { (filled.old ≤ vec_len bytes.old) × (LINE_ROOM ≤ vec_capacity bytes.old) }
    ensures added { AddsOrFails []
        (output W.contents writer.old (take filled.old bytes.old.items))
        (output W.contents writer.new (take filled.new bytes.new.items)) result }
    ensures room { OnOk result (filled.new + LINE_ROOM ≤ vec_len bytes.new) }
    ensures within { (filled.new ≤ vec_len bytes.new) × (LINE_ROOM ≤ vec_capacity bytes.new) }
{
    match write_if_full(bytes, filled, retries, writer) {
        Ok(()) => {}
        Err(e) => return Err(e),
    }
    lengthen(bytes, *filled + LINE_ROOM);
    Ok(())
}

// Puts zeros behind the bytes until they are so many, if they are fewer.
fn lengthen(bytes: &mut Vec<u8>, count: usize)
    requires { count ≤ vec_capacity bytes.old }
    ensures long { count ≤ vec_len bytes.new }
    ensures same { (k : ℕ) → k ≤ vec_len bytes.old
        → take k bytes.new.items ≡ take k bytes.old.items }
    ensures longer { vec_len bytes.old ≤ vec_len bytes.new }
    ensures room { vec_capacity bytes.old ≤ vec_capacity bytes.new }
{
    if bytes.len() < count {
        let Ok(()) = bytes.resize(count, 0) else {
            unreachable!();
        };
    }
}

// Writes all that waits, where there may be no room for one more line or piece.
fn write_if_full<W: Write>(
    bytes: &Vec<u8>,
    filled: &mut usize,
    retries: &mut u32,
    writer: &mut Counted<W>,
) -> Result<(), WriteFailed>
    requires { (filled.old ≤ vec_len bytes.now) × (LINE_ROOM ≤ vec_capacity bytes.now) }
    ensures added { AddsOrFails []
        (output W.contents writer.old (take filled.old bytes.now.items))
        (output W.contents writer.new (take filled.new bytes.now.items)) result }
    ensures room { OnOk result (filled.new + LINE_ROOM ≤ vec_capacity bytes.now) }
    ensures within { filled.new ≤ filled.old }
{
    if bytes.capacity() - *filled < LINE_ROOM {
        return write_waiting(bytes.as_slice(), filled, retries, writer);
    }
    Ok(())
}

// Writes all that waits.
fn write_waiting<W: Write>(
    bytes: &[u8],
    filled: &mut usize,
    retries: &mut u32,
    writer: &mut Counted<W>,
) -> Result<(), WriteFailed>
    requires { filled.old ≤ length bytes.now }
    ensures wrote { Flushes
        (output W.contents writer.old (take filled.old bytes.now))
        (output W.contents writer.new (take filled.new bytes.now)) result }
    ensures within { filled.new ≤ filled.old }
    ensures none { OnOk result (filled.new ≡ 0) }
{
    match write_all(writer, &bytes[..*filled], retries) {
        Ok(()) => {
            *filled = 0;
            Ok(())
        }
        Err(e) => Err(e),
    }
}

// Writes all that waits, and flushes the writer. Where nothing waits it is not called.
fn flush_waiting<W: Write>(
    bytes: &[u8],
    filled: &mut usize,
    retries: &mut u32,
    writer: &mut Counted<W>,
) -> Result<(), WriteFailed>
    requires { filled.old ≤ length bytes.now }
    ensures wrote { Flushes
        (output W.contents writer.old (take filled.old bytes.now))
        (output W.contents writer.new (take filled.new bytes.now)) result }
    ensures within { filled.new ≤ filled.old }
{
    if *filled == 0 {
        return Ok(());
    }
    match write_waiting(bytes, filled, retries, writer) {
        Ok(()) => flush_writer(writer, retries),
        Err(e) => Err(e),
    }
}

// Writes all of the bytes, or a front of them where the writer fails. At most so many interrupted calls are made again
// as `retries` says, which counts down.
fn write_all<W: Write>(
    writer: &mut Counted<W>,
    bytes: &[u8],
    retries: &mut u32,
) -> Result<(), WriteFailed>
    ensures { Writes bytes.now
        (output W.contents writer.old []) (output W.contents writer.new []) result }
{
    let mut at = 0;
    while at < bytes.len() {
        match writer.write_some(&bytes[at..], *retries > 0) {
            Moved::Bytes(n) => at += n,
            Moved::Again => *retries = retries.saturating_sub(1),
            Moved::Failed => return Err(WriteFailed),
        }
    }
    Ok(())
}

// Flushes the writer. At most so many interrupted calls are made again as `retries` says, which counts down.
fn flush_writer<W: Write>(writer: &mut Counted<W>, retries: &mut u32) -> Result<(), WriteFailed>
    ensures { Writes [] (output W.contents writer.old []) (output W.contents writer.new []) result }
{
    let mut flushed = false;
    while !flushed {
        match writer.flush(*retries > 0) {
            Moved::Bytes(_) => flushed = true,
            Moved::Again => *retries = retries.saturating_sub(1),
            Moved::Failed => return Err(WriteFailed),
        }
    }
    Ok(())
}
