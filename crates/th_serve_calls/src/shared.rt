//! Calls of th_shared. Only `main` has a runtime that may wait, so they take one by its bounds.
use std::alloc::Global;
use std::random::RandomSource;
use std::sync::Wait;
use th_model::{Name, Short};
use th_registry::TopicId;
use th_registry::channel::TopicSegment;
use th_seats::Share;
use th_shared::{Ended, Histories, Room, SharedDesk, entries_of};

pub fn make<R: Wait + RandomSource + Clone>(
    rt: R,
    alloc: Global,
) -> Result<SharedDesk<R>, Short<()>> {
    SharedDesk::new(rt, alloc)
}

pub fn make_rolling<R: Wait + RandomSource + Clone>(
    rt: R,
    alloc: Global,
) -> Result<SharedDesk<R>, Short<()>> {
    let Ok(histories) = Histories::new(alloc, 1_000, 10_000) else {
        return Err(Short { call: () });
    };
    SharedDesk::rolling(rt, alloc, histories, Room::unbounded())
}

pub fn end_histories<R: Wait + Clone>(rt: &R, desk: &SharedDesk<R>) -> u64 {
    match desk.histories() {
        Some(histories) => {
            histories.end(rt);
            histories.lost(rt)
        }
        None => 0,
    }
}

pub fn name_of<R: Wait + Clone>(desk: &SharedDesk<R>) -> Option<Name> {
    desk.name_of(TopicId(0))
}

pub fn share<R: Wait + Clone>(desk: &SharedDesk<R>) -> Result<SharedDesk<R>, Short<()>> {
    desk.another()
}

pub fn into_shares<R: Wait + Clone>(desk: SharedDesk<R>) -> Vec<(TopicId, Share)> {
    desk.into_shares()
}

pub fn finish<R: Wait + Clone>(
    desk: SharedDesk<R>,
    alloc: Global,
) -> Result<(Vec<Ended>, Vec<(TopicId, Share)>), SharedDesk<R>> {
    desk.finish(alloc)
}

pub fn entries(segment: &TopicSegment) -> u64 {
    entries_of(segment)
}
