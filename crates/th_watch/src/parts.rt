//! A channel's picture as plain data.
ghost use Rattle.std.specs.Prelude.{◌≡◌, ◌↔◌, IsTrue};
ghost use Rattle.th_model.specs.WatchMachine.{IsExact};
ghost use Rattle.th_model.specs.WatchPicture.{IsSound};
ghost use Rattle.th_watch.specs.Held.{shown_picture};

use std::collections::{BTreeMap, BTreeSet};
use std::marker::Model;

/// A sound picture, as plain data.
#[derive(Drop)]
pub struct PictureParts<T> {
    // The number of the newest version.
    pub(crate) version: u64,
    // The newest value.
    pub(crate) last: T,
    // Whether the newest value is unseen by each live reader, by its number.
    pub(crate) readers: BTreeMap<u64, bool>,
    // The numbers of the live senders.
    pub(crate) senders: BTreeSet<u64>,
    // The next handle number.
    pub(crate) next: u64,
}

impl<T> Model for PictureParts<T> {
    ghost use Rattle.th_model.specs.WatchPicture.{Picture, IsSound};
    ghost use Rattle.th_watch.specs.Held.{shown_picture};

    ghost Value = { Picture T };

    ghost view = { λ a. shown_picture a.version a.last a.readers.entries a.senders.keys a.next };

    ghost invariant = { λ a.
        IsSound (shown_picture a.version a.last a.readers.entries a.senders.keys a.next) };
}

impl<T> PictureParts<T> {
    /// The picture of this version and its value, these readers and senders, and the next handle
    /// number.
    pub fn new(
        version: u64,
        last: T,
        readers: BTreeMap<u64, bool>,
        senders: BTreeSet<u64>,
        next: u64,
    ) -> PictureParts<T>
        requires { IsSound (shown_picture version last readers.entries senders.keys next) }
        ensures { result ≡ shown_picture version last readers.entries senders.keys next }
    {
        PictureParts {
            version,
            last,
            readers,
            senders,
            next,
        }
    }

    /// The number of the newest version.
    pub fn version(&self) -> u64
        ensures { result ≡ self.now.version }
    {
        self.version
    }

    /// The newest value.
    pub fn value(&self) -> &T
        ensures { result.now ≡ self.now.last }
    {
        &self.last
    }

    /// Whether the newest value is unseen by each live reader, by its number.
    pub fn readers(&self) -> &BTreeMap<u64, bool>
        ensures { result.now.entries ≡ self.now.readers }
    {
        &self.readers
    }

    /// The numbers of the live senders.
    pub fn senders(&self) -> &BTreeSet<u64>
        ensures { result.now.keys ≡ self.now.senders }
    {
        &self.senders
    }

    /// The number that the next handle gets.
    pub fn next_number(&self) -> u64
        ensures next { result ≡ self.now.next }
        ensures sound { IsSound self.now }
    {
        self.next
    }
}

impl<T: PartialEq> PictureParts<T> {
    /// Whether it is the same picture. Linear in live handles.
    pub fn is_same(&self, other: &PictureParts<T>) -> bool
        requires { IsExact T.eq }
        ensures { IsTrue result ↔ (self.now ≡ other.now) }
    {
        let version = self.version == other.version;
        let next = self.next == other.next;
        let senders = self.senders == other.senders;
        let readers = self.readers == other.readers;
        let last = self.last == other.last;
        version & next & senders & readers & last
    }
}
