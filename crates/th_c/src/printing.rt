//! The text of a history.
ghost use Rattle.std.specs.Prelude.{◌≡◌, ◌++◌, IfOk, OnOk, map};
ghost use Rattle.th_traces.specs.BroadcastWords as broadcast_words;
ghost use Rattle.th_traces.specs.WatchWords as watch_words;
ghost use Rattle.th_traces.specs.Grammars.{fields};
ghost use Rattle.th_traces.specs.Spelled.{entry_lines, text};
ghost use Rattle.th_traces.specs.Traces.{broadcast_trace, watch_trace};
ghost use Rattle.th_traces.specs.Versions.{version_of, version_with};
ghost use Rattle.th_c.specs.SpelledValues.{broadcast_call, broadcast_entry, broadcast_picture, watch_entry, watch_picture};

use crate::content::RingBroadcast;
use crate::payload::Payload;
use crate::{pictures, spelling};
use std::alloc::Global;
use th_log::Segment;
use th_model::{BCall, BReply, Short, WCall, WReply};
use th_traces::{BroadcastLines, Version, WatchLines, print_end, print_entry};
use th_watch::Watch;

// Appends the entries of a broadcast channel.
fn print_broadcast_entries<T: Payload>(
    alloc: Global,
    entries: &[(BCall<T>, BReply<T>)],
    out: &mut Vec<u8>,
) -> Result<(), Short<()>>
    ensures { let told = fields broadcast_words.grammar
        (map (broadcast_entry T.spelled) entries.now) in
        OnOk result (out.new.items ≡ out.old.items ++ text (entry_lines told)) }
{
    for (call, reply) in entries {
        let call = spelling::broadcast_call(alloc, call)?;
        let reply = spelling::broadcast_reply(alloc, reply)?;
        let Ok(()) = print_entry(&call, &reply, out) else {
            return Err(Short { call: () });
        };
    }
    Ok(())
}

// Appends the entries of a watch channel.
fn print_watch_entries<T: Payload>(
    alloc: Global,
    entries: &[(WCall<T>, WReply<T>)],
    out: &mut Vec<u8>,
) -> Result<(), Short<()>>
    ensures { let told = fields watch_words.grammar (map (watch_entry T.spelled) entries.now) in
        OnOk result (out.new.items ≡ out.old.items ++ text (entry_lines told)) }
{
    for (call, reply) in entries {
        let call = spelling::watch_call(alloc, call)?;
        let reply = spelling::watch_reply(alloc, reply)?;
        let Ok(()) = print_entry(&call, &reply, out) else {
            return Err(Short { call: () });
        };
    }
    Ok(())
}

// Appends the lines of a broadcast channel's picture.
fn print_broadcast_lines(lines: BroadcastLines<'_>, out: &mut Vec<u8>) -> Result<(), Short<()>>
    ensures { OnOk result (out.new.items ≡ out.old.items ++ text lines.entry) }
{
    let mut lines = lines;
    loop {
        match lines.print_next(out) {
            Ok(true) => {}
            Ok(false) => return Ok(()),
            Err(_) => return Err(Short { call: () }),
        }
    }
}

// Appends the lines of a watch channel's picture.
fn print_watch_lines(lines: WatchLines<'_>, out: &mut Vec<u8>) -> Result<(), Short<()>>
    ensures { OnOk result (out.new.items ≡ out.old.items ++ text lines.entry) }
{
    let mut lines = lines;
    loop {
        match lines.print_next(out) {
            Ok(true) => {}
            Ok(false) => return Ok(()),
            Err(_) => return Err(Short { call: () }),
        }
    }
}

// The version of a trace with this call too.
fn version_with<T: Payload>(version: Version, call: &BCall<T>) -> Version
    ensures { result ≡ version_with version (broadcast_call T.spelled call.now) }
{
    match call {
        BCall::SubscribeOldest(_) => Version::Two,
        _ => version,
    }
}

// The version of a trace with these entries.
fn version_of<T: Payload>(entries: &[(BCall<T>, BReply<T>)]) -> Version
    ensures { result ≡ version_of (map (λ e. e.0) (map (broadcast_entry T.spelled) entries.now)) }
{
    let mut version = Version::One;
    for (call, _) in entries {
        version = version_with(version, call);
    }
    version
}

/// The trace of a broadcast channel's segment.
pub(crate) fn broadcast_text<T: Payload>(
    alloc: Global,
    segment: &Segment<RingBroadcast<T>>,
) -> Result<Vec<u8>, Short<()>>
    ensures { IfOk result (λ out. out.items ≡ broadcast_trace
        (broadcast_picture T.spelled segment.now.start)
        (map (broadcast_entry T.spelled) segment.now.entries)) }
{
    let picture = pictures::broadcast_picture(alloc, segment.start())?;
    let entries = segment.entries();
    let mut out = Vec::new(alloc);
    print_broadcast_lines(BroadcastLines::new(version_of(entries), &picture), &mut out)?;
    print_broadcast_entries(alloc, entries, &mut out)?;
    let Ok(()) = print_end(entries.len() as u64, &mut out) else {
        return Err(Short { call: () });
    };
    Ok(out)
}

/// The trace of a watch channel's segment.
pub(crate) fn watch_text<T: Payload>(
    alloc: Global,
    segment: &Segment<Watch<T>>,
) -> Result<Vec<u8>, Short<()>>
    ensures { IfOk result (λ out. out.items ≡ watch_trace
        (watch_picture T.spelled segment.now.start)
        (map (watch_entry T.spelled) segment.now.entries)) }
{
    let picture = pictures::watch_picture(alloc, segment.start())?;
    let entries = segment.entries();
    let mut out = Vec::new(alloc);
    print_watch_lines(WatchLines::new(&picture), &mut out)?;
    print_watch_entries(alloc, entries, &mut out)?;
    let Ok(()) = print_end(entries.len() as u64, &mut out) else {
        return Err(Short { call: () });
    };
    Ok(out)
}
