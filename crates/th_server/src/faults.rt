//! What people are told of sessions that were stopped.
ghost use Rattle.std.specs.Prelude.{◌≡◌, ◌+◌, ◌<◌, ◌^◌, None, Some, false, true};

use crate::elapsed::has_passed;
use crate::serve::Teller;
use std::io::Eprint;
use std::sync::{Mutex, Wait};
use std::time::{Clock, Instant};
use th_session::SessionFault;
use th_sockets::Observer;

// How long after one that was told the next one is, at the least, in milliseconds.
const PAUSE: u64 = 1000;

/// Tells people of sessions that were stopped, of one a second at the most, and of the others how many they are: else clients that die
/// could fill what is kept of standard error.
#[derive(Drop)]
pub(crate) struct Faults {
    tally: Mutex<Tally>,
}

// What was told, and what was not.
#[derive(Drop)]
struct Tally {
    // When a session was told last, where there was a clock.
    told: Option<Instant>,
    // How many others have been stopped since.
    untold: u64,
}

impl Tally {
    // One session more that was stopped. Where it is told, how many before it were not, which are told with it.
    fn add(&mut self, is_told: bool) -> Option<u64>
        ensures told { is_told ≡ true → result ≡ Some self.old.untold }
        ensures all { is_told ≡ true → self.new.untold ≡ 0 }
        ensures untold { is_told ≡ false → result ≡ None }
        ensures counted { is_told ≡ false → self.old.untold + 1 < 2 ^ 64
            → self.new.untold ≡ self.old.untold + 1 }
    {
        if is_told {
            return Some(self.take());
        }
        self.untold = self.untold.saturating_add(1);
        None
    }

    // How many were not told, which are told now.
    fn take(&mut self) -> u64
        ensures all { result ≡ self.old.untold }
        ensures none { self.new.untold ≡ 0 }
    {
        let untold = self.untold;
        self.untold = 0;
        untold
    }
}

// Tells how many sessions were stopped that were not told one by one.
fn tell_of_others<R: Eprint>(rt: &R, count: u64) {
    let _ = match count {
        0 => Ok(()),
        1 => eprintln!(rt; "topichub: 1 more session was stopped"),
        _ => eprintln!(rt; "topichub: {count} more sessions were stopped"),
    };
}

impl Faults {
    /// Of no session yet.
    pub(crate) fn new() -> Faults {
        Faults {
            tally: Mutex::new(Tally {
                told: None,
                untold: 0,
            }),
        }
    }

    // Counts a session that was stopped: where it is told, how many others are told before it. Without a clock each is told.
    fn count<R: Wait + Clock>(&self, rt: &R) -> Option<u64> {
        let mut tally = self.tally.lock(rt);
        let is_told = has_passed(rt, tally.told, PAUSE).unwrap_or(true);
        if is_told {
            tally.told = Instant::now(rt).ok();
        }
        tally.add(is_told)
    }

    /// A session has ended, by this fault if there was one.
    pub(crate) fn ended<R: Wait + Clock + Eprint>(
        &self,
        rt: &R,
        session: u64,
        fault: Option<SessionFault>,
    ) {
        if fault.is_none() {
            return;
        }
        if let Some(others) = self.count(rt) {
            tell_of_others(rt, others);
            Teller { rt }.ended(session, fault);
        }
    }

    /// No further session ends: tells of those that were not told.
    pub(crate) fn end<R: Wait + Eprint>(&self, rt: &R) {
        let others = self.tally.lock(rt).take();
        tell_of_others(rt, others);
    }
}
