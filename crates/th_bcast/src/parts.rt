//! A channel's picture as plain data.
ghost use Rattle.std.specs.Prelude.{◌≡◌, ◌↔◌, IsTrue};
ghost use Rattle.th_model.specs.WatchMachine.{IsExact};
ghost use Rattle.th_model.specs.BroadcastPicture.{picture_of, IsSound};

use std::collections::BTreeSet;
use std::marker::Model;
use th_shelf::WindowParts;

/// A sound picture, as plain data.
#[derive(Drop)]
pub struct PictureParts<T> {
    // The kept values, and the place of each live receiver.
    pub(crate) window: WindowParts<T>,
    // The numbers of the live senders.
    pub(crate) senders: BTreeSet<u64>,
    // The next handle number.
    pub(crate) next: u64,
}

impl<T> Model for PictureParts<T> {
    ghost use Rattle.th_model.specs.BroadcastPicture.{Picture, IsSound, picture_of};

    ghost Value = { Picture T };

    ghost view = { λ a. picture_of a.window a.senders.keys a.next };

    ghost invariant = { λ a. IsSound (picture_of a.window a.senders.keys a.next) };
}

impl<T> PictureParts<T> {
    /// The picture of this window, these senders, and the next handle number.
    pub fn new(window: WindowParts<T>, senders: BTreeSet<u64>, next: u64) -> PictureParts<T>
        requires { IsSound (picture_of window senders.keys next) }
        ensures { result ≡ picture_of window senders.keys next }
    {
        PictureParts {
            window,
            senders,
            next,
        }
    }

    /// The kept values, and the place of each live receiver.
    pub fn window(&self) -> &WindowParts<T>
        ensures { result.now ≡ self.now.window }
    {
        &self.window
    }

    /// The numbers of the live senders.
    pub fn senders(&self) -> &BTreeSet<u64>
        ensures { result.now.keys ≡ self.now.senders }
    {
        &self.senders
    }

    /// The number that the next handle gets.
    pub fn next_number(&self) -> u64
        ensures next { result ≡ self.now.next }
        ensures sound { IsSound self.now }
    {
        self.next
    }
}

impl<T: PartialEq> PictureParts<T> {
    /// Whether it is the same picture. Linear in values and live handles.
    pub fn is_same(&self, other: &PictureParts<T>) -> bool
        requires { IsExact T.eq }
        ensures { IsTrue result ↔ (self.now ≡ other.now) }
    {
        let next = self.next == other.next;
        let senders = self.senders == other.senders;
        let window = self.window.is_same(&other.window);
        next & senders & window
    }
}
