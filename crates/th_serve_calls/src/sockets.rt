//! Calls of th_sockets.
use std::alloc::Global;
use std::os::unix::net::UnixListener;
use std::random::RandomSource;
use std::sync::Wait;
use std::thread::Threads;
use std::time::Clock;
use th_session::{Bounds, Keeping, OpenGate};
use th_sockets::{Observer, ServeFault, Served, Unheard, serve_on};

pub fn serve<R: Threads + Wait + Clock + RandomSource + Clone + Send + Sync>(
    rt: &R,
    alloc: Global,
    listener: &UnixListener,
) -> Result<Served<R>, ServeFault<R>> {
    serve_on(
        rt,
        alloc,
        listener,
        64,
        &OpenGate,
        &Unheard,
        Keeping::Nothing,
        Bounds::usual(),
    )
}

pub fn hear(observer: &Unheard) {
    observer.ended(1, None);
}
