//! The shares of a desk's handles.
ghost use Rattle.std.specs.Prelude.{◌≡◌, ◌<◌, ◌≤◌, [], true, IfErr, IfOk, IfSome, OnOk};
ghost use Rattle.th_registry.specs.Events.{Resubscribes};
ghost use Rattle.th_registry.specs.Hub.{On};
ghost use Rattle.th_registry.specs.Typed.{made_rx};
ghost use Rattle.th_shared.specs.Doing.{IsFullAsSeen, IsNewReceiver, Leaves};
ghost use Rattle.th_shared.specs.Kept.{HasPlace, Keeps, Stays, spent_by_move};
ghost use Rattle.th_shared.specs.Numbers.{known_of, number_of, receiver, rolls_of};
ghost use Rattle.th_shared.specs.Saying.{MaySay};

use crate::handles::{LiveReceiver, TopicOwner, TopicReceiver};
use crate::told;
use std::alloc::Global;
use std::marker::Model;
use std::sync::Wait;
use th_block::Handle;
use th_registry::channel::{HubBroadcast, HubWatch};
use th_registry::{Channel, Made, NoEvent, TopicId};
use th_seats::Share;

/// The shares of the handles that were spent through a desk. There is room for those that are live. A desk that keeps none gives
/// each back to its channel.
#[derive(Drop)]
pub(crate) struct Shares {
    spent: Vec<(TopicId, Share)>,
    keeps: bool,
    // How many handles were made through the desk, and not spent through it.
    live: usize,
}

impl Model for Shares {
    ghost use Rattle.std.specs.Prelude.{◌-◌, vec_capacity, vec_len};
    ghost use Rattle.th_shared.specs.Kept.{Kept};

    ghost Value = { Kept };

    ghost view = { λ s. record {
      keeps = s.keeps;
      spent = s.spent.items;
      room = vec_capacity s.spent - vec_len s.spent;
    } };
}

// Gives a share back to its channel. One that is not its own is let go.
fn give_back<R: Wait>(rt: &R, home: &TopicOwner, share: Share) {
    let _ = match home {
        Channel::Broadcast(owner) => owner.take_back(rt, share),
        Channel::Watch(owner) => owner.take_back(rt, share),
    };
}

impl Shares {
    /// Of a desk that has made no handle yet.
    pub(crate) fn new(alloc: Global, keeps: bool) -> Shares
        ensures keeps { result.keeps ≡ keeps }
        ensures spent { result.spent ≡ [] }
    {
        Shares {
            spent: Vec::new(alloc),
            keeps,
            live: 0,
        }
    }

    /// By which the desk takes memory.
    pub(crate) fn allocator(&self) -> Global {
        *self.spent.allocator()
    }

    /// Whether the desk keeps them.
    pub(crate) fn keeps(&self) -> bool
        ensures { result ≡ self.now.keeps }
    {
        self.keeps
    }

    /// Makes room for the share of one handle more.
    pub(crate) fn make_room(&mut self) -> Result<(), NoEvent>
        ensures stays { Stays self.old self.new }
        ensures room { OnOk result (self.new.keeps ≡ true → 0 < self.new.room) }
        ensures why { IfErr result (λ why. why ≡ NoEvent.Short) }
    {
        if !self.keeps {
            return Ok(());
        }
        match self.spent.reserve(self.live.saturating_add(1)) {
            Ok(()) => Ok(()),
            Err(_) => Err(NoEvent::Short),
        }
    }

    /// One handle more, where one was made.
    pub(crate) fn count<H>(&mut self, made: &Result<Made<H>, NoEvent>)
        ensures { Stays self.old self.new }
    {
        if let Ok(
            Made {
                handle: Some(_),
                ..
            },
        ) = made
        {
            self.live = self.live.saturating_add(1);
        }
    }

    /// One handle less, since one was spent.
    pub(crate) fn count_spent(&mut self)
        ensures { Stays self.old self.new }
    {
        self.live = self.live.saturating_sub(1);
    }

    /// Where the share of this handle is to go once it is spent: to an owner of its channel, or, where the desk keeps it, into the
    /// list. A handle that was not made through this desk may find no room there. It is not live at this desk, since its share
    /// would be lost.
    pub(crate) fn home<S>(
        &self,
        handle: &Channel<Handle<HubBroadcast, S>, Handle<HubWatch, S>>,
    ) -> Result<Option<TopicOwner>, NoEvent>
        ensures home { IfOk result (HasPlace self.now) }
        ensures why { IfErr result (λ why. why ≡ NoEvent.NotLive) }
    {
        if self.keeps {
            if self.spent.len() < self.spent.capacity() {
                return Ok(None);
            }
            return Err(NoEvent::NotLive);
        }
        match told::owner_of(handle) {
            Ok(owner) => Ok(Some(owner)),
            Err(_) => Err(NoEvent::NotLive),
        }
    }

    /// Keeps the share of a handle that is spent behind the others, or gives it back.
    pub(crate) fn keep<R: Wait>(
        &mut self,
        rt: &R,
        topic: TopicId,
        share: Share,
        home: Option<TopicOwner>,
    )
        requires { HasPlace self.old home }
        ensures { Keeps self.old topic share self.new }
    {
        match home {
            Some(home) => give_back(rt, &home, share),
            None => self.spent.push_reserved((topic, share)),
        }
    }

    /// A new receiver in the place of this one, with what is left of it. Its share goes where it belongs, where it was spent.
    pub(crate) fn resubscribe<R: Wait>(
        &mut self,
        rt: &R,
        topic: TopicId,
        old: LiveReceiver,
    ) -> (TopicReceiver, Result<Made<TopicReceiver>, NoEvent>)
        ensures event { MaySay (On topic.0 (Resubscribes (record { 0 = number_of old })))
            (made_rx receiver result.1) }
        ensures number { receiver result.0 ≡ record { 0 = number_of old } }
        ensures leaves { Leaves old result.0 (made_rx receiver result.1).1 }
        ensures new { IfOk result.1 (λ made. IfSome made.handle
            (IsNewReceiver topic.0 (rolls_of old) made.receipt)) }
        ensures full { IfErr result.1 (IsFullAsSeen (rolls_of old) (known_of old)) }
        ensures keeps { self.new.keeps ≡ self.old.keeps }
        ensures spent { self.new.spent
            ≡ spent_by_move self.old.keeps self.old.spent topic old result.0 }
    {
        let home = match self.home(&old) {
            Ok(home) => home,
            Err(why) => return (TopicReceiver::Live(old), Err(why)),
        };
        let (left, said) = told::resubscribe(rt, topic, old, self);
        match said {
            Ok((made, share)) => {
                if let Some(share) = share {
                    self.keep(rt, topic, share, home);
                }
                (left, Ok(made))
            }
            Err(why) => (left, Err(why)),
        }
    }

    /// The shares, once nothing more is asked at the desk.
    pub(crate) fn into_vec(self) -> Vec<(TopicId, Share)>
        ensures { result.items ≡ self.spent }
    {
        self.spent
    }
}
