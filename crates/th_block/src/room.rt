//! What the handles of a channel own in common: the lock, and where callers wait.
ghost use Rattle.std.specs.Prelude.{◌≡◌, true};
ghost use Rattle.std.specs.Sync.Mutex.{mutex_guard_value};

use crate::cuts::Cuts;
use crate::held::Held;
use crate::wake::Wake;
use std::sync::{Arc, Condvar, Mutex, MutexGuard, Wait};
use std::thread;
use std::time::{Clock, Duration};
use th_log::{Kind, Object, Receipt, Refused};

// How often a caller that finds the lock taken tries again before it sleeps. Before each try it yields its thread, so that others
// go on. All of them take some microseconds: to sleep and to be woken takes longer, and a lock that a sleeper is to have stands
// idle until it has woken.
const TRIES: u32 = 20;
// The same of one that finds no answer yet.
const LOOKS: u32 = 4;

/// The lock, and where callers wait.
#[derive(Drop)]
pub(crate) struct Room<O: Object> {
    held: Mutex<Held<O>>,
    /// Where the parts go, if calls cut the log. It never changes.
    pub(crate) cuts: Option<Arc<Cuts<O>>>,
    // Those who wait sleep here, of both sides of a channel. They are woken all at once, after the lock is let go: a
    // sleeper that is woken wants the lock at once.
    news: Condvar,
}

impl<O: Object> Room<O> {
    /// Where nobody waits yet.
    pub(crate) fn new(held: Held<O>, cuts: Option<Arc<Cuts<O>>>) -> Room<O>
        ensures { result.cuts ≡ cuts }
    {
        Room {
            held: Mutex::new(held),
            cuts,
            news: Condvar::new(),
        }
    }

    /// What the lock keeps, once nobody wants it any more.
    pub(crate) fn into_held(self) -> Held<O> {
        let Room { held, .. } = self;
        held.into_inner()
    }

    /// Takes the lock. A caller sleeps only after a while.
    #[inline(never)]
    pub(crate) fn lock<R: Wait>(&self, rt: &R) -> MutexGuard<'_, Held<O>> {
        if let Some(held) = self.held.try_lock() {
            return held;
        }
        for _ in 0..TRIES {
            thread::yield_now();
            if let Some(held) = self.held.try_lock() {
                return held;
            }
        }
        self.held.lock(rt)
    }

    /// Wakes all who wait, if they are to be. The lock is free.
    pub(crate) fn wake(&self, wake: Wake) {
        wake.give(&self.news);
    }
}

impl<O: Kind> Room<O> {
    /// Takes the lock once this call has its answer. It waits until then.
    #[inline(always)]
    pub(crate) fn lock_when_ready<R: Wait>(&self, rt: &R, call: &O::Call) -> MutexGuard<'_, Held<O>>
        ensures { O.machine.ready (mutex_guard_value result).log.piece.last call.now ≡ true }
    {
        let held = self.lock(rt);
        // Most calls have their answers.
        if held.is_ready(call) {
            return held;
        }
        self.wait_until_ready(rt, held, call)
    }

    // The same for a call that has none yet. The lock is taken and let go some times, until a while has passed.
    #[inline(never)]
    fn wait_until_ready<'a, R: Wait>(
        &'a self,
        rt: &R,
        held: MutexGuard<'a, Held<O>>,
        call: &O::Call,
    ) -> MutexGuard<'a, Held<O>>
        ensures { O.machine.ready (mutex_guard_value result).log.piece.last call.now ≡ true }
    {
        let mut held = held;
        for _ in 0..LOOKS {
            drop(held);
            thread::yield_now();
            held = self.lock(rt);
            if held.is_ready(call) {
                return held;
            }
        }
        self.news.wait_while(rt, held, |held| held.waits(call))
    }

    /// Waits until this call would not wait, but no longer than so: whether it would not.
    pub(crate) fn wait_for<R: Wait + Clock>(
        &self,
        rt: &R,
        call: &O::Call,
        longest: Duration,
    ) -> bool {
        let held = self.lock(rt);
        if held.is_ready(call) {
            return true;
        }
        let (held, _) = self
            .news
            .wait_timeout_while(rt, held, longest, |held| held.waits(call));
        held.is_ready(call)
    }

    /// Lets the lock go. All who wait are woken then, if they are to be and there is news for them.
    #[inline(always)]
    pub(crate) fn unlock_after(
        &self,
        mut held: MutexGuard<'_, Held<O>>,
        answer: &Result<Receipt<O>, Refused<O::Call>>,
        wakes: bool,
    ) {
        if wakes {
            let wake = held.wakes_after(answer);
            drop(held);
            self.wake(wake);
        }
    }
}
