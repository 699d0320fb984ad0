//! The connections of the sessions that are there.
use crate::faults::Faults;
use std::alloc::{AllocError, Global};
use std::net::Shutdown;
use std::os::unix::net::UnixStream;
use std::sync::atomic::{AtomicBool, AtomicU64, Ordering};
use std::sync::{Arc, Mutex, Wait};

/// The connections of the sessions that are there, each at the place of the worker that serves it, and whether the server goes on.
#[derive(Drop)]
pub(crate) struct Connections {
    // Who has it waits for the next connection. The system takes a descriptor for each that waits, before anybody comes.
    pub(crate) turn: Mutex<()>,
    // What people were told of sessions that were stopped.
    pub(crate) faults: Faults,
    streams: Mutex<Vec<Option<Arc<UnixStream>>>>,
    // How many sessions are served at a time, and how many are now.
    most: u64,
    served: AtomicU64,
    // Sessions that have begun.
    begun: AtomicU64,
    // No further session begins, and who waits does so no longer.
    ending: AtomicBool,
}

impl Connections {
    /// Places for so many workers, of whom so many serve at a time, and nobody there.
    pub(crate) fn new(alloc: Global, places: u64, most: u64) -> Result<Connections, AllocError> {
        let mut streams = Vec::with_capacity(alloc, places as usize)?;
        for _ in 0..places {
            streams.push(None)?;
        }
        Ok(Connections {
            turn: Mutex::new(()),
            faults: Faults::new(),
            streams: Mutex::new(streams),
            most,
            served: AtomicU64::new(0),
            begun: AtomicU64::new(0),
            ending: AtomicBool::new(false),
        })
    }

    /// Has one session more served, if there may be one more; and whether there may. Whoever asks has the turn, so nobody else asks
    /// meanwhile.
    pub(crate) fn enter(&self) -> bool {
        if self.served.load(Ordering::SeqCst) >= self.most {
            return false;
        }
        self.served.fetch_add(1, Ordering::SeqCst);
        true
    }

    /// One of those has ended.
    pub(crate) fn leave(&self) {
        self.served.fetch_sub(1, Ordering::SeqCst);
    }

    /// The number of a session that begins now: they are counted from 1.
    pub(crate) fn begin(&self) -> u64 {
        self.begun.fetch_add(1, Ordering::Relaxed).saturating_add(1)
    }

    /// How many sessions have begun.
    pub(crate) fn begun(&self) -> u64 {
        self.begun.load(Ordering::Relaxed)
    }

    /// What is at this place from now on.
    pub(crate) fn put<R: Wait>(&self, rt: &R, place: u64, stream: Option<Arc<UnixStream>>) {
        let mut streams = self.streams.lock(rt);
        if let Some(at) = streams.get_mut(place as usize) {
            *at = stream;
        }
    }

    /// Whether one is there.
    pub(crate) fn is_any<R: Wait>(&self, rt: &R) -> bool {
        let streams = self.streams.lock(rt);
        for stream in streams.iter() {
            if stream.is_some() {
                return true;
            }
        }
        false
    }

    /// Ends one side or both of each that is there.
    pub(crate) fn shut<R: Wait>(&self, rt: &R, how: Shutdown) {
        let streams = self.streams.lock(rt);
        for stream in streams.iter() {
            if let Some(stream) = stream {
                let _ = stream.shutdown(how);
            }
        }
    }

    /// No further session begins.
    pub(crate) fn end(&self) {
        self.ending.store(true, Ordering::SeqCst);
    }

    /// Whether none begins any more.
    pub(crate) fn is_ending(&self) -> bool {
        self.ending.load(Ordering::SeqCst)
    }
}
