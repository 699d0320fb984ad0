//! Histories that are cut, and read as texts, for C.
ghost use Rattle.std.specs.Prelude.{◌≡◌, MatchResult, Ok, Err, None};
ghost use Rattle.th_c.specs.declared.content.Content.TheVariants.{RecordedBroadcast, RecordedBroadcastOfBytes, RecordedWatch, RecordedWatchOfBytes};
ghost use Rattle.th_c.specs.declared.outcome.Refusal.TheVariants.{NoMemory};
ghost use Rattle.th_c.specs.Cutting.{Cuts, CutsBroadcast, CutsWatch, Prints, Reads, ReadsOn};

use crate::content::{BytesBroadcast, BytesWatch, Content, NumberBroadcast, NumberWatch};
use crate::handle::Handle;
use crate::making::{boxed, fill, free, is_open};
use crate::outcome::{Refusal, code};
use crate::raw::{put, take};
use crate::text::Text;
use crate::{printing, status};
use std::alloc::Global;
use th_registry::recorded::Recorded;

// Room for what is cut, got before it is.
fn room(alloc: Global) -> Result<Box<Content>, Refusal>
    ensures { MatchResult result (λ b. Unit {0}) (λ why. why ≡ NoMemory) }
{
    boxed(alloc, Content::Read(Text::new(Vec::new(alloc))))
}

// The present segment of a broadcast channel's history.
fn broadcast_segment(
    alloc: Global,
    channel: &mut Recorded<NumberBroadcast>,
) -> Result<Box<Content>, Refusal>
    ensures { MatchResult result
        (λ b. CutsBroadcast (RecordedBroadcast channel.old) (Ok b.value)
        (RecordedBroadcast channel.new))
        (λ why. CutsBroadcast (RecordedBroadcast channel.old) (Err why)
        (RecordedBroadcast channel.new)) }
{
    let Ok(mut taken) = room(alloc) else {
        return Err(Refusal::NoMemory);
    };
    let Ok(segment) = channel.cut() else {
        return Err(Refusal::NoMemory);
    };
    *taken = Content::BroadcastHistory(segment);
    Ok(taken)
}

// That of one of bytes.
fn broadcast_segment_of_bytes(
    alloc: Global,
    channel: &mut Recorded<BytesBroadcast>,
) -> Result<Box<Content>, Refusal>
    ensures { MatchResult result
        (λ b. CutsBroadcast (RecordedBroadcastOfBytes channel.old) (Ok b.value)
        (RecordedBroadcastOfBytes channel.new))
        (λ why. CutsBroadcast (RecordedBroadcastOfBytes channel.old) (Err why)
        (RecordedBroadcastOfBytes channel.new)) }
{
    let Ok(mut taken) = room(alloc) else {
        return Err(Refusal::NoMemory);
    };
    let Ok(segment) = channel.cut() else {
        return Err(Refusal::NoMemory);
    };
    *taken = Content::BroadcastHistoryOfBytes(segment);
    Ok(taken)
}

// The present segment of what is behind a handle, where it is a broadcast channel.
fn cut_broadcast(alloc: Global, content: &mut Content) -> Result<Box<Content>, Refusal>
    ensures { MatchResult result
        (λ b. CutsBroadcast content.old (Ok b.value) content.new)
        (λ why. CutsBroadcast content.old (Err why) content.new) }
{
    match content {
        Content::RecordedBroadcast(channel) => broadcast_segment(alloc, channel),
        Content::RecordedBroadcastOfBytes(channel) => broadcast_segment_of_bytes(alloc, channel),
        Content::Broadcast(_) => Err(Refusal::NotRecorded),
        Content::BroadcastOfBytes(_) => Err(Refusal::NotRecorded),
        _ => Err(Refusal::NotOpen),
    }
}

// The present segment of a watch channel's history.
fn watch_segment(
    alloc: Global,
    channel: &mut Recorded<NumberWatch>,
) -> Result<Box<Content>, Refusal>
    ensures { MatchResult result
        (λ b. CutsWatch (RecordedWatch channel.old) (Ok b.value)
        (RecordedWatch channel.new))
        (λ why. CutsWatch (RecordedWatch channel.old) (Err why)
        (RecordedWatch channel.new)) }
{
    let Ok(mut taken) = room(alloc) else {
        return Err(Refusal::NoMemory);
    };
    let Ok(segment) = channel.cut() else {
        return Err(Refusal::NoMemory);
    };
    *taken = Content::WatchHistory(segment);
    Ok(taken)
}

// That of one of bytes.
fn watch_segment_of_bytes(
    alloc: Global,
    channel: &mut Recorded<BytesWatch>,
) -> Result<Box<Content>, Refusal>
    ensures { MatchResult result
        (λ b. CutsWatch (RecordedWatchOfBytes channel.old) (Ok b.value)
        (RecordedWatchOfBytes channel.new))
        (λ why. CutsWatch (RecordedWatchOfBytes channel.old) (Err why)
        (RecordedWatchOfBytes channel.new)) }
{
    let Ok(mut taken) = room(alloc) else {
        return Err(Refusal::NoMemory);
    };
    let Ok(segment) = channel.cut() else {
        return Err(Refusal::NoMemory);
    };
    *taken = Content::WatchHistoryOfBytes(segment);
    Ok(taken)
}

// The present segment of what is behind a handle, where it is a watch channel.
fn cut_watch(alloc: Global, content: &mut Content) -> Result<Box<Content>, Refusal>
    ensures { MatchResult result
        (λ b. CutsWatch content.old (Ok b.value) content.new)
        (λ why. CutsWatch content.old (Err why) content.new) }
{
    match content {
        Content::RecordedWatch(channel) => watch_segment(alloc, channel),
        Content::RecordedWatchOfBytes(channel) => watch_segment_of_bytes(alloc, channel),
        Content::Watch(_) => Err(Refusal::NotRecorded),
        Content::WatchOfBytes(_) => Err(Refusal::NotRecorded),
        _ => Err(Refusal::NotOpen),
    }
}

/// Takes the history so far of a broadcast channel into a handle that stands for nothing.
#[unsafe(no_mangle)]
pub extern "C" fn topichub_broadcast_cut(
    alloc: Global,
    channel: &mut Handle,
    trace: &mut Handle,
) -> u32
    ensures { Cuts (λ c told next. CutsBroadcast c told next)
        channel.old.value trace.old.value result channel.new.value trace.new.value }
{
    if is_open(alloc, trace) {
        return status::IS_OPEN;
    }
    let Some(mut content) = take(alloc, channel) else {
        return status::NOT_OPEN;
    };
    let told = cut_broadcast(alloc, &mut *content);
    put(channel, content);
    fill(trace, told)
}

/// Takes the history so far of a watch channel into a handle that stands for nothing.
#[unsafe(no_mangle)]
pub extern "C" fn topichub_watch_cut(alloc: Global, channel: &mut Handle, trace: &mut Handle) -> u32
    ensures { Cuts (λ c told next. CutsWatch c told next)
        channel.old.value trace.old.value result channel.new.value trace.new.value }
{
    if is_open(alloc, trace) {
        return status::IS_OPEN;
    }
    let Some(mut content) = take(alloc, channel) else {
        return status::NOT_OPEN;
    };
    let told = cut_watch(alloc, &mut *content);
    put(channel, content);
    fill(trace, told)
}

// Makes a history its text, where it is not yet.
fn print(alloc: Global, content: &mut Content) -> Result<(), Refusal>
    ensures { Prints content.old result content.new }
{
    let text = match content {
        Content::BroadcastHistory(segment) => printing::broadcast_text(alloc, segment),
        Content::BroadcastHistoryOfBytes(segment) => printing::broadcast_text(alloc, segment),
        Content::WatchHistory(segment) => printing::watch_text(alloc, segment),
        Content::WatchHistoryOfBytes(segment) => printing::watch_text(alloc, segment),
        Content::Read(_) => return Ok(()),
        _ => return Err(Refusal::NotOpen),
    };
    match text {
        Ok(text) => {
            *content = Content::Read(Text::new(text));
            Ok(())
        }
        Err(_) => Err(Refusal::NoMemory),
    }
}

// Puts the next bytes of a text into the buffer.
fn read(alloc: Global, content: &mut Content, buffer: &mut [u8]) -> Result<usize, Refusal>
    ensures { ReadsOn content.old buffer.old result buffer.new content.new }
{
    match print(alloc, content) {
        Ok(()) => {}
        Err(why) => return Err(why),
    }
    let Content::Read(text) = content else {
        unreachable!()
    };
    Ok(text.read(buffer))
}

/// Puts the next bytes of a trace into the buffer, and their number into `written`.
#[unsafe(no_mangle)]
pub extern "C" fn topichub_trace_read(
    alloc: Global,
    trace: &mut Handle,
    buffer: &mut [u8],
    written: &mut u64,
) -> u32
    ensures { Reads trace.old.value buffer.old result written.new buffer.new trace.new.value }
{
    *written = 0;
    let Some(mut content) = take(alloc, trace) else {
        return status::NOT_OPEN;
    };
    let told = read(alloc, &mut *content, buffer);
    put(trace, content);
    match told {
        Ok(count) => {
            *written = count as u64;
            status::DONE
        }
        Err(why) => code(why),
    }
}

/// Lets the trace go.
#[unsafe(no_mangle)]
pub extern "C" fn topichub_trace_free(alloc: Global, trace: &mut Handle)
    ensures { trace.new.value ≡ None }
{
    free(alloc, trace)
}
