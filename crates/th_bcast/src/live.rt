//! How many handles are live, and would be after a call.
ghost use Rattle.std.specs.Prelude.{◌≡◌, ◌≤◌, ◌-◌, if◌then◌else◌};
ghost use Rattle.th_model.specs.BroadcastPicture.{IsSound, answer};
ghost use Rattle.th_model.specs.Live.{live_handles};
ghost use Rattle.th_model.specs.BroadcastLive.{live_then, one_more};

use crate::broadcast::Broadcast;
use th_model::{BCall, MOST_HANDLES};
use th_shelf::Shelf;

impl<T: Clone, S: Shelf<T> + Drop> Broadcast<T, S> {
    /// How many handles are live, senders and receivers together: at most 131,070.
    pub fn live(&self) -> u64
        ensures live { result ≡ live_handles self.now }
        ensures few { live_handles self.now ≤ 131070 }
        ensures sound { IsSound self.now }
    {
        self.senders.len() as u64 + self.shelf.readers()
    }

    // The live handles, with one more of a kind of which so many are live, where its maker is there
    // and there is room.
    fn with_one(&self, there: bool, of_kind: u64) -> u64
        ensures { result ≡ if there then one_more self.now of_kind else live_handles self.now }
    {
        let live = self.live();
        if there && of_kind < MOST_HANDLES as u64 && self.next != u64::MAX {
            live + 1
        } else {
            live
        }
    }

    // The live handles, without the one that is spent, where it is there.
    fn without_one(&self, there: bool) -> u64
        ensures { result ≡ if there then live_handles self.now - 1 else live_handles self.now }
    {
        if there {
            self.live().saturating_sub(1)
        } else {
            self.live()
        }
    }

    // The live handles after a call, by the picture's numbers alone.
    #[inline(always)]
    fn counted(&self, call: &BCall<T>) -> u64
        ensures { result ≡ live_then self.now call.now }
    {
        match call {
            BCall::Subscribe(tx) => {
                self.with_one(self.senders.contains(&tx.0), self.shelf.readers())
            }
            BCall::SubscribeOldest(tx) => {
                self.with_one(self.senders.contains(&tx.0), self.shelf.readers())
            }
            BCall::Resubscribe(rx) => {
                self.with_one(self.shelf.place(*rx).is_some(), self.shelf.readers())
            }
            BCall::CloneTx(tx) => {
                self.with_one(self.senders.contains(&tx.0), self.senders.len() as u64)
            }
            BCall::DropTx(tx) => self.without_one(self.senders.contains(&tx.0)),
            BCall::DropRx(rx) => self.without_one(self.shelf.place(*rx).is_some()),
            _ => self.live(),
        }
    }

    /// How many handles would be live after the call. At most logarithmic in live handles.
    #[inline(always)]
    pub fn live_after(&self, call: &BCall<T>) -> u64
        ensures after { result ≡ live_handles (answer self.now call.now).1 }
        ensures sound { IsSound self.now }
    {
        let _live = self.live();
        self.counted(call)
    }
}
