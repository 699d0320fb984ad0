//! Calls of th_traces.
use std::alloc::Global;
use th_bcast::Broadcast;
use th_log::Segment;
use th_model::{BCall, BReply, Value, WCall, WReply};
use th_ring::RingShelf;
use th_traces::{
    BroadcastLines, BroadcastTrace, Draft, EntryLines, Version, WatchLines, WatchTrace, laws,
    print_end, print_entry, read_end, read_picture, says_reply, spells_reply,
};
use th_watch::Watch;

type News = Segment<Broadcast<Value, RingShelf<Value>>>;

pub fn law() {
    laws::one_spelling_of_broadcast_calls();
    laws::one_spelling_of_broadcast_replies();
    laws::one_spelling_of_watch_calls();
    laws::one_spelling_of_watch_replies();
    laws::one_spelling_of_pictures();
}

pub fn print_broadcast(
    version: Version,
    picture: &th_bcast::PictureParts<Value>,
    out: &mut Vec<u8>,
) -> u64 {
    let mut lines = BroadcastLines::new(version, picture);
    let _ = lines.print_next(out);
    BroadcastLines::count(picture)
}

pub fn print_watch(picture: &th_watch::PictureParts<Value>, out: &mut Vec<u8>) -> u64 {
    let mut lines = WatchLines::new(picture);
    let _ = lines.print_next(out);
    WatchLines::count(picture)
}

pub fn print_broadcast_trace(segment: &News, out: &mut Vec<u8>) -> u64 {
    let mut trace = BroadcastTrace::new(segment);
    let _ = trace.print_next(out);
    BroadcastTrace::line_count(segment)
}

pub fn print_watch_trace(segment: &Segment<Watch<Value>>, out: &mut Vec<u8>) -> u64 {
    let mut trace = WatchTrace::new(segment);
    let _ = trace.print_next(out);
    WatchTrace::line_count(segment)
}

pub fn print_entries(
    alloc: Global,
    news: (&BCall<Value>, &BReply<Value>),
    light: (&WCall<Value>, &WReply<Value>),
    out: &mut Vec<u8>,
) {
    let _ = print_entry(news.0, news.1, out);
    let _ = print_entry(light.0, light.1, out);
    let _ = print_end(7, out);
    if let Ok(mut room) = Vec::with_capacity(alloc, 2000) {
        news.0.put_call(&mut room);
    }
}

pub fn read_broadcast(alloc: Global, version: Version, line: &[u8]) {
    let _ = BCall::<Value>::read_call(alloc, version, line);
}

pub fn read_watch(alloc: Global, line: &[u8]) {
    let _ = WCall::<Value>::read_call(alloc, (), line);
}

pub fn read_lines(alloc: Global, draft: &mut Draft, line: &[u8]) -> Draft {
    let _ = read_picture(alloc, draft, line);
    let _ = read_end(line);
    Draft::new()
}

pub fn tell_broadcast(
    version: Version,
    call: &BCall<Value>,
    reply: &BReply<Value>,
    line: &[u8],
) -> (Version, bool, bool) {
    let gives = call.gives_value();
    let says = says_reply::<BCall<Value>>(gives, line);
    let own = BCall::<Value>::says_own_reply(b"value", Some(line));
    let _ = BCall::<Value>::reply_spelling(reply);
    (
        version.with_call(call),
        says && own,
        spells_reply::<BCall<Value>>(line, reply),
    )
}

pub fn tell_watch(call: &WCall<Value>, reply: &WReply<Value>, line: &[u8]) -> (bool, bool) {
    let gives = call.gives_value();
    (
        says_reply::<WCall<Value>>(gives, line),
        spells_reply::<WCall<Value>>(line, reply),
    )
}
