//! The trace of a segment of either kind, put behind what waits.
ghost use Rattle.std.specs.Prelude.{◌++◌};
ghost use Rattle.std.specs.List.{concat};
ghost use Rattle.th_lines.specs.Output.{AddsOrFails, output};
ghost use Rattle.th_lines.specs.Replies.{spell};
ghost use Rattle.th_traces.specs.Spelled.{text};
ghost use Rattle.th_session.specs.Answer.{trace_lines, trace_told};
ghost use Rattle.th_session.specs.Pieces.{to_come};

use std::alloc::AllocError;
use std::io::Write;
use th_lines::{Counted, Lines, Reply, WriteBuffer, WriteFailed};
use th_registry::Channel;
use th_registry::channel::TopicSegment;
use th_traces::{BroadcastTrace, WatchTrace};

// What is left of a trace.
#[derive(Drop)]
pub(crate) enum TraceLines<'a> {
    Broadcast(BroadcastTrace<'a>),
    Watch(WatchTrace<'a>),
}

impl<'a> Lines for TraceLines<'a> {
    ghost to_come = { to_come };

    fn print_next(&mut self, out: &mut Vec<u8>) -> Result<bool, AllocError> {
        match self {
            TraceLines::Broadcast(trace) => trace.print_next(out),
            TraceLines::Watch(trace) => trace.print_next(out),
        }
    }
}

// Puts a count behind what waits, and then these lines.
fn append_counted<W: Write, L: Lines>(
    count: u64,
    lines: &mut L,
    out: &mut WriteBuffer,
    writer: &mut Counted<W>,
) -> Result<(), WriteFailed>
    ensures { AddsOrFails (spell (Reply.Count count) ++ concat (L.to_come lines.old))
        (output W.contents writer.old out.old) (output W.contents writer.new out.new) result }
{
    match out.append(writer, &Reply::Count(count)) {
        Ok(()) => out.append_lines(writer, lines),
        Err(e) => Err(e),
    }
}

/// Puts the lines of a segment's trace behind what waits, as a file has them. However many there are, it takes no memory.
///
/// # Errors
///
/// The writer failed, and a front of what waited and the lines was written.
pub fn append_trace_lines<W: Write>(
    segment: &TopicSegment,
    out: &mut WriteBuffer,
    writer: &mut Counted<W>,
) -> Result<(), WriteFailed>
    ensures { AddsOrFails (text (trace_lines segment.now))
        (output W.contents writer.old out.old) (output W.contents writer.new out.new) result }
{
    match segment {
        Channel::Broadcast(segment) => {
            out.append_lines(
                writer,
                &mut TraceLines::Broadcast(BroadcastTrace::new(segment)),
            )
        }
        Channel::Watch(segment) => {
            out.append_lines(writer, &mut TraceLines::Watch(WatchTrace::new(segment)))
        }
    }
}

// Puts the trace of a segment behind what waits, below the number of its lines.
pub(crate) fn append_trace<W: Write>(
    segment: &TopicSegment,
    out: &mut WriteBuffer,
    writer: &mut Counted<W>,
) -> Result<(), WriteFailed>
    ensures { AddsOrFails (trace_told segment.now)
        (output W.contents writer.old out.old) (output W.contents writer.new out.new) result }
{
    match segment {
        Channel::Broadcast(segment) => {
            let count = BroadcastTrace::line_count(segment);
            let mut lines = TraceLines::Broadcast(BroadcastTrace::new(segment));
            append_counted(count, &mut lines, out, writer)
        }
        Channel::Watch(segment) => {
            let count = WatchTrace::line_count(segment);
            let mut lines = TraceLines::Watch(WatchTrace::new(segment));
            append_counted(count, &mut lines, out, writer)
        }
    }
}
