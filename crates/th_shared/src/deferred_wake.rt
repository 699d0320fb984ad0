//! A wake that is put off, so that it is one for many events.
ghost use Rattle.std.specs.Prelude.{◌≡◌, OnOk, false, true};

use crate::handles::{TopicOwner, TopicSender};
use crate::told::owner_of;
use std::marker::Model;
use std::mem::replace;
use std::sync::Wait;
use th_model::Short;
use th_registry::Channel;

// A topic with events of which nobody was woken yet. It cannot be let go of.
struct DeferredWake {
    // The key of the topic's channel.
    key: u64,
    owner: TopicOwner,
}

/// Whom a desk's caller owes a wake: those who wait at the topic of which it made events that woke nobody yet. It cannot be let
/// go of but by the desk's `close`.
pub struct Owed {
    deferred: Option<DeferredWake>,
}

impl Model for Owed {
    ghost use Rattle.std.specs.Prelude.{Bool, is_some};

    // Whether that is anybody.
    ghost Value = { Bool };

    ghost view = { λ o. is_some o.deferred };
}

// The key of a sender's channel.
fn key_of(sender: &TopicSender) -> u64 {
    match sender {
        Channel::Broadcast(sender) => sender.key(),
        Channel::Watch(sender) => sender.key(),
    }
}

impl DeferredWake {
    // Wakes who waits there.
    fn give<R: Wait>(self, rt: &R) {
        let DeferredWake { key: _, owner } = self;
        match owner {
            Channel::Broadcast(owner) => owner.wake(rt),
            Channel::Watch(owner) => owner.wake(rt),
        }
    }
}

impl Owed {
    /// Nobody is owed one.
    pub(crate) fn nothing() -> Owed
        ensures { result ≡ false }
    {
        Owed { deferred: None }
    }

    /// Wakes who is owed it.
    pub(crate) fn pay<R: Wait>(&mut self, rt: &R)
        ensures { self.new ≡ false }
    {
        match self.deferred.take() {
            Some(deferred) => deferred.give(rt),
            None => {}
        }
    }

    // Whether who waits at this sender's topic is owed one.
    #[inline(always)]
    fn is_at(&self, sender: &TopicSender) -> bool
        ensures { result ≡ true → self.now ≡ true }
    {
        match &self.deferred {
            Some(deferred) => deferred.key == key_of(sender),
            None => false,
        }
    }

    /// From now on who waits at this sender's topic is owed one. Who was owed one at another is woken.
    ///
    /// # Errors
    ///
    /// The topic's channel has 2^63 owners.
    #[inline(always)]
    pub(crate) fn defer<R: Wait>(&mut self, rt: &R, sender: &TopicSender) -> Result<(), Short<()>>
        ensures { OnOk result (self.new ≡ true) }
    {
        if self.is_at(sender) {
            return Ok(());
        }
        let owner = match owner_of(sender) {
            Ok(owner) => owner,
            Err(e) => return Err(e),
        };
        let next = DeferredWake {
            key: key_of(sender),
            owner,
        };
        match replace(&mut self.deferred, Some(next)) {
            Some(last) => last.give(rt),
            None => {}
        }
        Ok(())
    }

    /// Lets go of it.
    pub(crate) fn close(self)
        requires { self ≡ false }
    {
        let Owed { deferred } = self;
        match deferred {
            Some(_) => unreachable!(),
            None => {}
        }
    }
}
