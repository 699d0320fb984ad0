//! A channel's picture: it is taken of a channel, a channel is made from it, and each part of it is
//! read from the channel.
ghost use Rattle.std.specs.Prelude.{◌≡◌, length, IfOk, IfErr};
ghost use Rattle.th_model.specs.Handles.{is_sender};
ghost use Rattle.th_model.specs.Limits.{ClonesAreEqual};
ghost use Rattle.std.specs.Option.{option_copied};
ghost use Rattle.th_model.specs.Places.{place_of};
ghost use Rattle.th_model.specs.Window.{value_at};
ghost use Rattle.th_model.specs.BroadcastPicture.{IsSound};

use crate::broadcast::Broadcast;
use crate::parts::PictureParts;
use std::alloc::Global;
use std::marker::PhantomData;
use th_model::{RxId, Short, TxId, copy_numbers};
use th_shelf::{Shelf, copy_window};

impl<T: Clone, S: Shelf<T> + Drop> Broadcast<T, S> {
    /// A channel that looks like this. Where memory is refused, the parts come back.
    pub fn from_picture(
        alloc: Global,
        parts: PictureParts<T>,
    ) -> Result<Self, Short<PictureParts<T>>>
        ensures ok { IfOk result (λ channel. channel ≡ parts) }
        ensures short { IfErr result (λ short. short.call ≡ parts) }
    {
        match S::from_window(alloc, parts.window) {
            Ok(shelf) => Ok(Broadcast {
                shelf,
                senders: parts.senders,
                next: parts.next,
                of: PhantomData,
            }),
            Err(short) => Err(Short {
                call: PictureParts {
                    window: short.call,
                    senders: parts.senders,
                    next: parts.next,
                },
            }),
        }
    }

    /// What is seen of the channel now, as plain data, with a clone of each kept value.
    pub fn picture(&self, alloc: Global) -> Result<PictureParts<T>, Short<()>>
        requires { ClonesAreEqual T.is_clone }
        ensures { IfOk result (λ picture. picture ≡ self.now) }
    {
        let Ok(window) = copy_window(alloc, &self.shelf) else {
            return Err(Short { call: () });
        };
        let Ok(senders) = copy_numbers(&self.senders) else {
            return Err(Short { call: () });
        };
        Ok(PictureParts {
            window,
            senders,
            next: self.next,
        })
    }

    /// The most values that are kept.
    pub fn capacity(&self) -> u64
        ensures { result ≡ self.now.window.capacity }
    {
        self.shelf.capacity()
    }

    /// The position of the next value.
    pub fn tail(&self) -> u64
        ensures { result ≡ self.now.window.tail }
    {
        self.shelf.tail()
    }

    /// The least kept position, or the tail where none is kept.
    pub fn low(&self) -> u64
        ensures { result ≡ self.now.window.low }
    {
        self.shelf.low()
    }

    /// The value at a position, which is there exactly where the position is kept.
    pub fn value(&self, position: u64) -> Option<&T>
        ensures { option_copied result ≡ value_at self.now.window position }
    {
        self.shelf.value(position)
    }

    /// The number of live receivers.
    pub fn receiver_count(&self) -> u64
        ensures { result ≡ length self.now.window.places }
    {
        self.shelf.readers()
    }

    /// The position that a receiver reads next; `None` for a number that is no live receiver's.
    pub fn place(&self, rx: RxId) -> Option<u64>
        ensures { result ≡ place_of self.now.window.places rx.0 }
    {
        self.shelf.place(rx)
    }

    /// The number of live senders.
    pub fn sender_count(&self) -> u64
        ensures { result ≡ length self.now.senders }
    {
        self.senders.len() as u64
    }

    /// Whether this sender is live. Logarithmic in live senders.
    pub fn has_sender(&self, tx: TxId) -> bool
        ensures { result ≡ is_sender self.now.senders tx.0 }
    {
        self.senders.contains(&tx.0)
    }

    /// The number that the next handle gets.
    pub fn next_number(&self) -> u64
        ensures next { result ≡ self.now.next }
        ensures sound { IsSound self.now }
    {
        self.next
    }
}
