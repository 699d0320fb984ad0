//! What a handle brings to its channel's lock, and its eye.
ghost use Rattle.std.specs.Prelude.{◌≡◌, ◌<◌, ◌≤◌, ◌↔◌, IfOk, IsTrue};
ghost use Rattle.th_glance.specs.Lists.{last_of};
ghost use Rattle.th_block.specs.Handles.{Looked, seen_of};

use std::marker::Model;
use std::sync::Wait;
use th_glance::{Eye, Glance};
use th_model::Short;
use th_seats::Share;

/// The events of a handle, and how far it has seen the history.
#[derive(Drop)]
pub(crate) struct Account {
    // It counts the handle's events.
    pub(crate) share: Share,
    // Its own, on the channel's word. It has seen the place at which the handle was last answered, or
    // made. The channel has as many events by then, so a channel with fewer is another one.
    eye: Eye,
}

impl Model for Account {
    ghost use Rattle.th_block.specs.Handles.{Known};

    ghost Value = { Known };

    ghost view = { λ a. record { share = a.share; eye = a.eye } };
}

impl Account {
    /// The account of a handle with this share and this eye.
    pub(crate) fn new(share: Share, eye: Eye) -> Account
        ensures { result ≡ record { share = share; eye = eye } }
    {
        Account { share, eye }
    }

    /// The key of its channel.
    pub(crate) fn key(&self) -> u64
        ensures { result ≡ self.now.share.key }
    {
        self.share.key()
    }

    /// How far it has seen the history. It does not look.
    pub(crate) fn seen(&self) -> u64
        ensures { result ≡ seen_of self.now }
    {
        self.eye.count()
    }

    /// One look.
    pub(crate) fn glance(&mut self) -> Glance
        ensures share { self.new.share ≡ self.old.share }
        ensures eye { Looked self.old.eye self.new.eye }
        ensures last { result ≡ last_of self.new.eye.list }
    {
        self.eye.glance()
    }

    /// One look, and whether it has then seen as many events.
    pub(crate) fn learn(&mut self, count: u64) -> bool
        ensures share { self.new.share ≡ self.old.share }
        ensures eye { Looked self.old.eye self.new.eye }
        ensures learnt { IsTrue result ↔ (count ≤ seen_of self.new) }
    {
        self.eye.learn(count)
    }

    /// Looks until it has seen the event of this place, at which it was answered.
    pub(crate) fn catch_up<R: Wait>(&mut self, rt: &R, place: u64)
        ensures share { self.new.share ≡ self.old.share }
        ensures eye { Looked self.old.eye self.new.eye }
        ensures seen { place < seen_of self.new }
    {
        self.eye.catch_up(rt, place)
    }

    /// An eye for a handle that may be made: it has seen as much.
    pub(crate) fn another_eye(&mut self) -> Result<Eye, Short<()>>
        ensures same { self.new ≡ self.old }
        ensures eye { IfOk result (λ eye. eye ≡ self.old.eye) }
    {
        self.eye.split()
    }

    /// The share, once the handle is gone.
    pub(crate) fn into_share(self) -> Share
        ensures { result ≡ self.share }
    {
        self.share
    }
}
