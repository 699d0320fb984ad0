//! The channels as a library: a small program for each of the two.
//!
//! The replies are printed as they come. What each call answers is told by the contract of the
//! function that is called, and the gate compares it with the file `stdout` beside this folder.
#![tactic(auto)]

mod stopped;

use std::fmt::Debug;
use std::process::ExitCode;
use stopped::Stopped;
use th_bcast::Broadcast;
use th_model::{Capacity, Edit, RxId, TxId};
use th_ring::RingShelf;
use th_watch::Watch;

// A line of what a call answered.
fn tell<T: Debug>(rt: &HostRuntime, call: &str, reply: &T) -> Result<(), Stopped> {
    println!(rt; "{call}: {reply:?}")?;
    Ok(())
}

// A slow receiver: the window has two values, and three are sent before it reads.
fn broadcast(rt: &HostRuntime) -> Result<(), Stopped> {
    let capacity = Capacity::new(2)?;
    let mut news: Broadcast<u64, RingShelf<u64>> = Broadcast::channel(rt.alloc(), capacity)?;
    let (tx, rx) = (TxId(1), RxId(2));
    for value in [10, 20, 30] {
        tell(rt, "send", &news.send(tx, value)?)?;
    }
    for _ in 0..4 {
        tell(rt, "receive", &news.try_recv(rx)?)?;
    }
    Ok(())
}

// A reader of the newest value, which is told once that there is a new one.
fn watch(rt: &HostRuntime) -> Result<(), Stopped> {
    let mut light: Watch<u64> = Watch::channel(rt.alloc(), 1)?;
    let (tx, rx) = (TxId(1), RxId(2));
    tell(rt, "send", &light.send(tx, 2))?;
    tell(rt, "send", &light.send(tx, 3))?;
    for _ in 0..2 {
        tell(rt, "changed", &light.try_changed(rx))?;
    }
    tell(rt, "edit quietly", &light.edit_by(tx, Edit::Quiet(4)))?;
    tell(rt, "take", &light.take(rx)?)
}

fn run(rt: &HostRuntime) -> Result<(), Stopped> {
    broadcast(rt)?;
    watch(rt)
}

fn main(rt: HostRuntime) -> ExitCode {
    match run(&rt) {
        Ok(()) => ExitCode::SUCCESS,
        Err(stopped) => {
            let _ = eprintln!(rt; "{stopped}");
            ExitCode::FAILURE
        }
    }
}
