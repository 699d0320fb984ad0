//! Calls of th_server. Only `main` has a runtime that may wait, so they take one by its bounds.
use std::alloc::Global;
use std::fs::File;
use std::io::{Eprint, Input, Print};
use std::net::Net;
use std::process::ExitCode;
use std::random::RandomSource;
use std::rt::Files;
use std::sync::Wait;
use std::thread::Threads;
use std::time::Clock;
use th_model::Name;
use th_registry::channel::TopicSegment;
use th_server::{Chain, Folder, Outcome, Store, Stored, serve_by_words};

pub fn store<R: Store>(rt: &R, alloc: Global, topic: &Name, part: &TopicSegment) -> Stored {
    let folder = Folder {
        path: "traces",
        syncs: true,
    };
    rt.store(alloc, &folder, topic, part, Chain::Begins)
}

pub fn serve<
    R: Threads
        + Wait
        + Clock
        + RandomSource
        + Clone
        + Send
        + Sync
        + Print
        + Eprint
        + Input
        + Files<File = File>
        + Store
        + Net
        + AllocGlobal,
>(rt: &R, words: &[String]) {
    let _ = serve_by_words(rt, words);
}

pub fn status(outcome: &Outcome) -> ExitCode {
    outcome.status()
}
