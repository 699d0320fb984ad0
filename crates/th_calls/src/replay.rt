//! Calls of th_replay. Its reader and writer are files.
use std::alloc::Global;
use std::fs::File;
use th_lines::Counted;
use th_replay::{laws, replay, replay_bounded, replay_kept};

pub fn law() {
    laws::texts_are_seen();
    laws::what_is_held_is_live();
}

pub fn run(alloc: Global, reader: &mut Counted<File>, writer: &mut Counted<File>) {
    let _ = replay(alloc, reader, writer);
    let _ = replay_bounded(alloc, reader, writer, 7, 7);
    let _ = replay_kept(alloc, reader, writer, 7, 7);
}
