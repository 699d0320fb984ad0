//! A channel that is owned in common by its handles.
ghost use Rattle.std.specs.Prelude.{◌≡◌, is_some, IfErr, IfOk, IfSome};
ghost use Rattle.th_log.specs.History.{IsKept, IsLegal};

use crate::cuts::{Cuts, hand_over};
use crate::room::Room;
use std::alloc::AllocError;
use std::marker::Model;
use std::sync::{Arc, Wait};
use th_log::{Kind, Logged, Object, Segment};
use th_model::Short;
use th_seats::Share;

/// An owner of a channel, without a number. Each handle is one too.
#[derive(Drop)]
pub struct Shared<O: Object> {
    pub(crate) room: Arc<Room<O>>,
}

impl<O: Object> Model for Shared<O> {
    ghost use Rattle.std.specs.Arc.{arc_value};
    ghost use Rattle.std.specs.Prelude.{is_some};
    ghost use Rattle.th_block.specs.Handles.{Owner};

    ghost Value = { Owner };

    ghost view = { λ s. record { rolls = is_some (arc_value s.room).cuts } };
}

impl<O: Kind> Shared<O> {
    /// One more owner. It takes no memory, and is refused only past 2^63 owners.
    pub fn another(&self) -> Result<Shared<O>, Short<()>>
        ensures { IfOk result (λ shared. shared ≡ self.now) }
    {
        match Arc::try_clone(&self.room) {
            Ok(room) => Ok(Shared { room }),
            Err(AllocError) => Err(Short { call: () }),
        }
    }

    /// Hands out the entries so far, and begins the log's next segment: so there is room for as many entries again. It
    /// is no event, and asks memory for the room of all live handles. It takes the lock, for a time that is linear in
    /// the kept values and the handles, and not in the entries.
    pub fn cut<R: Wait>(&self, rt: &R) -> Result<Segment<O>, Short<()>>
        requires { O.lawful }
        ensures { IfOk result (λ s. IsLegal O.machine O.is_sound s) }
    {
        let mut held = self.room.lock(rt);
        held.cut()
    }

    /// As `cut`, of the channel with this key: the key is compared under the same lock. `None` where the channel has another
    /// one, and then nothing is cut.
    pub fn cut_of<R: Wait>(&self, rt: &R, key: u64) -> Option<Result<Segment<O>, Short<()>>>
        requires { O.lawful }
        ensures key { IfSome result (λ said. IfOk said (λ s. s.key ≡ key)) }
        ensures legal { IfSome result (λ said. IfOk said (λ s. IsLegal O.machine O.is_sound s)) }
    {
        let mut held = self.room.lock(rt);
        held.cut_of(key)
    }

    /// Whether the channel cuts its log by itself ([`crate::rolling_broadcast_at`]). It never changes.
    pub fn rolls(&self) -> bool
        ensures { result ≡ self.now.rolls }
    {
        self.room.cuts.is_some()
    }

    /// From now on the calls of a channel that cuts its log by itself do so from so many entries on. A log that is as long already
    /// is cut now, if there is memory; else by the next call. Of another channel nothing changes.
    pub fn roll_at<R: Wait>(&self, rt: &R, most: u64)
        requires { O.lawful }
    {
        let room = &*self.room;
        let mut cut = None;
        let mut held = room.lock(rt);
        held.be_long_from(most);
        held.spare(&room.cuts, 0, &mut cut);
        drop(held);
        hand_over(rt, &mut cut);
    }

    /// Wakes who waits, after calls that left it to their caller. It takes the lock for a moment.
    pub fn wake<R: Wait>(&self, rt: &R) {
        let mut held = self.room.lock(rt);
        let wake = held.wakes();
        drop(held);
        self.room.wake(wake);
    }

    /// Gives the channel the share of a handle that is gone. It keeps all that it was given as one, under its lock, until
    /// [`Shared::returned`] hands that out: so the handles of those who come and go leave nothing that grows. It takes no memory.
    ///
    /// # Errors
    ///
    /// The share is not this channel's, as far as its numbers tell, and comes back.
    pub fn take_back<R: Wait>(&self, rt: &R, share: Share) -> Result<(), Share>
        ensures { IfErr result (λ back. back ≡ share) }
    {
        let mut held = self.room.lock(rt);
        held.take_back(share)
    }

    /// Hands out the shares that the channel was given, as one; none where it has none. `finish` lets them go.
    pub fn returned<R: Wait>(&self, rt: &R) -> Option<Share> {
        let mut held = self.room.lock(rt);
        held.returned()
    }

    /// The log, for the last owner; any other one comes back. It takes neither memory nor the lock.
    pub fn finish(self) -> Result<Logged<O>, Shared<O>>
        ensures kept { IfOk result (IsKept O.machine O.is_sound) }
    {
        match Arc::try_unwrap(self.room) {
            Ok(room) => {
                let log = room.into_held().into_log();
                // What a log always is.
                let _entries = log.len();
                Ok(log)
            }
            Err(room) => Err(Shared { room }),
        }
    }
}
