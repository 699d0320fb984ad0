//! The channel's picture: it is taken of a channel, a channel is made from it, and each part of it
//! is read from the channel.
ghost use Rattle.std.specs.Prelude.{◌≡◌, ◌<◌, length, map, IfOk, IfErr};
ghost use Rattle.std.specs.Map.{keys_of};
ghost use Rattle.th_model.specs.Limits.{ClonesAreEqual};
ghost use Rattle.th_model.specs.Handles.{IsRising, is_sender};
ghost use Rattle.th_model.specs.WatchMachine.{reader_of};
ghost use Rattle.th_model.specs.WatchPicture.{IsSound, mark_at, picture_of, shown};
ghost use Rattle.th_watch.specs.Held.{IsHeld};

use crate::parts::PictureParts;
use crate::watch::{Watch, mark_for};
use std::alloc::{AllocError, Global};
use std::collections::{BTreeMap, BTreeSet};
use th_model::{RxId, Short, TxId, copy_numbers};

// Whether this version is unseen by each reader, by the version that it saw last.
fn readers_of(
    alloc: Global,
    marks: &BTreeMap<u64, u64>,
    version: u64,
) -> Result<BTreeMap<u64, bool>, AllocError>
    requires { IsRising (keys_of marks.now.entries) }
    ensures { IfOk result (λ readers. readers.entries ≡ map (shown version) marks.now.entries) }
{
    let mut readers = BTreeMap::new(alloc);
    for (rx, mark) in marks {
        readers.insert(*rx, *mark < version)?;
    }
    Ok(readers)
}

// A version that each reader saw last: this one, or 0 where it is unseen.
fn marks_of(
    alloc: Global,
    readers: &BTreeMap<u64, bool>,
    version: u64,
) -> Result<BTreeMap<u64, u64>, AllocError>
    requires version { 0 < version }
    requires rising { IsRising (keys_of readers.now.entries) }
    ensures { IfOk result (λ marks. marks.entries ≡ map (mark_at version) readers.now.entries) }
{
    let mut marks = BTreeMap::new(alloc);
    for (rx, unseen) in readers {
        marks.insert(*rx, mark_for(version, *unseen))?;
    }
    Ok(marks)
}

impl<T: Drop> Watch<T> {
    /// A channel that looks like this. Where memory is refused, the parts come back.
    pub fn from_parts(
        alloc: Global,
        parts: PictureParts<T>,
    ) -> Result<Watch<T>, Short<PictureParts<T>>>
        ensures ok { IfOk result (λ channel. channel ≡ parts) }
        ensures short { IfErr result (λ short. short.call ≡ parts) }
    {
        let Ok(marks) = marks_of(alloc, &parts.readers, parts.version) else {
            return Err(Short { call: parts });
        };
        Ok(Watch::from_picture(parts.version, parts.last, marks, parts.senders, parts.next))
    }

    /// A channel that looks like this: the newest value and its version, the version that each live
    /// reader saw last (0 to the newest; one below it is unseen), the live senders, and the number
    /// that the next handle gets. It takes no memory.
    pub fn from_picture(
        version: u64,
        last: T,
        marks: BTreeMap<u64, u64>,
        senders: BTreeSet<u64>,
        next: u64,
    ) -> Watch<T>
        requires { IsHeld version marks.entries senders.keys next }
        ensures { result ≡ picture_of version last marks.entries senders.keys next }
    {
        Watch {
            version,
            last,
            marks,
            senders,
            next,
        }
    }

    /// The number of the newest version.
    pub fn version(&self) -> u64
        ensures { result ≡ self.now.version }
    {
        self.version
    }

    /// The newest value.
    pub fn value(&self) -> &T
        ensures { result.now ≡ self.now.last }
    {
        &self.last
    }

    /// Whether the newest value is unseen by a reader; `None` for a number that is no live reader's.
    pub fn is_unseen(&self, rx: RxId) -> Option<bool>
        ensures { result ≡ reader_of self.now.readers rx.0 }
    {
        self.unseen(rx)
    }

    /// The number of live senders.
    pub fn sender_count(&self) -> u64
        ensures { result ≡ length self.now.senders }
    {
        self.senders.len() as u64
    }

    /// Whether this sender is live. Logarithmic in live senders.
    pub fn has_sender(&self, tx: TxId) -> bool
        ensures { result ≡ is_sender self.now.senders tx.0 }
    {
        self.senders.contains(&tx.0)
    }

    /// The number that the next handle gets.
    pub fn next_number(&self) -> u64
        ensures next { result ≡ self.now.next }
        ensures sound { IsSound self.now }
    {
        self.next
    }
}

impl<T: Clone + Drop> Watch<T> {
    /// What is seen of the channel now, as plain data, with a clone of the newest value.
    pub fn picture(&self, alloc: Global) -> Result<PictureParts<T>, Short<()>>
        requires { ClonesAreEqual T.is_clone }
        ensures { IfOk result (λ picture. picture ≡ self.now) }
    {
        let Ok(readers) = readers_of(alloc, &self.marks, self.version) else {
            return Err(Short { call: () });
        };
        let Ok(senders) = copy_numbers(&self.senders) else {
            return Err(Short { call: () });
        };
        let Ok(last) = self.last.clone() else {
            return Err(Short { call: () });
        };
        Ok(PictureParts::new(self.version, last, readers, senders, self.next))
    }
}
