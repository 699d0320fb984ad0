//! How many handles are live, and would be after a call.
ghost use Rattle.std.specs.Prelude.{◌≡◌, ◌≤◌, ◌-◌, Bool, if◌then◌else◌};
ghost use Rattle.th_model.specs.WatchPicture.{IsSound, answer};
ghost use Rattle.th_model.specs.Live.{live_watchers};
ghost use Rattle.th_model.specs.WatchLive.{live_then, one_more};

use crate::watch::Watch;
use th_model::{MOST_HANDLES, WCall};

impl<T: Drop> Watch<T> {
    /// How many handles are live, senders and readers together: at most 131,070.
    pub fn live(&self) -> u64
        ensures live { result ≡ live_watchers self.now }
        ensures few { live_watchers self.now ≤ 131070 }
        ensures sound { IsSound self.now }
    {
        self.senders.len() as u64 + self.marks.len() as u64
    }

    // The live handles, with one more of a kind of which so many are live, where its maker is there
    // and there is room.
    fn with_one(&self, there: bool, of_kind: u64) -> u64
        ensures { result ≡ if there then one_more self.now of_kind else live_watchers self.now }
    {
        let live = self.live();
        if there && of_kind < MOST_HANDLES as u64 && self.next != u64::MAX {
            live + 1
        } else {
            live
        }
    }

    // The live handles, without the one that is spent, where it is there.
    fn without_one(&self, there: bool) -> u64
        ensures { result ≡ if there then live_watchers self.now - 1 else live_watchers self.now }
    {
        if there {
            self.live().saturating_sub(1)
        } else {
            self.live()
        }
    }

    // The live handles after a call, by the picture's numbers alone.
    fn counted(&self, call: &WCall<T>) -> u64
        ensures { result ≡ live_then self.now call.now }
    {
        let readers = self.marks.len() as u64;
        let senders = self.senders.len() as u64;
        match call {
            WCall::Subscribe(tx) => self.with_one(self.senders.contains(&tx.0), readers),
            WCall::CloneRx(rx) => self.with_one(self.unseen(*rx).is_some(), readers),
            WCall::CloneTx(tx) => self.with_one(self.senders.contains(&tx.0), senders),
            WCall::DropTx(tx) => self.without_one(self.senders.contains(&tx.0)),
            WCall::DropRx(rx) => self.without_one(self.unseen(*rx).is_some()),
            _ => self.live(),
        }
    }

    /// How many handles would be live after the call. At most logarithmic in live handles.
    #[inline(always)]
    pub fn live_after(&self, call: &WCall<T>) -> u64
        ensures after { (eq : T → T → Bool) →
            result ≡ live_watchers (answer eq self.now call.now).1 }
        ensures sound { IsSound self.now }
    {
        let _live = self.live();
        self.counted(call)
    }
}
