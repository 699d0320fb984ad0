//! Calls of th_check. Its reader is a file.
use std::alloc::Global;
use std::fs::File;
use th_bcast::Broadcast;
use th_check::point::Spot;
use th_check::{Joining, check, check_bounded, check_explained, laws, point};
use th_lines::Counted;
use th_log::Segment;
use th_model::Value;
use th_ring::RingShelf;
use th_watch::Watch;

pub fn law(news: &Segment<Broadcast<Value, RingShelf<Value>>>, light: &Segment<Watch<Value>>) {
    laws::one_verdict();
    laws::legal_texts();
    laws::one_next();
    laws::joined_texts();
    laws::openings();
    laws::printed_broadcast_traces_are_legal(news);
    laws::printed_watch_traces_are_legal(light);
}

pub fn take_line(alloc: Global, spot: &mut Spot, line: &[u8]) {
    let _ = point::take_line(alloc, spot, Some(line));
    let _ = point::ended_with(spot);
}

pub fn judge(alloc: Global, reader: &mut Counted<File>, text: &mut Vec<u8>) {
    let _ = check(alloc, reader);
    let _ = check_bounded(alloc, reader, 7);
    let _ = check_explained(alloc, reader, text);
}

pub fn join(alloc: Global, reader: &mut Counted<File>, text: &mut Vec<u8>) {
    let mut history = Joining::new();
    let _ = history.add(alloc, reader, text);
    let _ = history.is_opened();
    let _ = history.is_over();
}
