//! A new handle in the place of an old one, by two events under one lock.
ghost use Rattle.std.specs.Prelude.{◌≡◌, is_some, true, IfOk, IfErr, Some};
ghost use Rattle.th_log.specs.Outcome.{counted};
ghost use Rattle.th_log.specs.Replies.{made_by};
ghost use Rattle.th_block.specs.Handles.{IsBack, IsFullAsSeen, Tells, call_of, rx};
ghost use Rattle.th_block.specs.Locked.{Extends, Fits, HandsOn, IsSeated, Spends};
ghost use Rattle.th_block.specs.Pairs.{IsReplaced, counted_twice};

use crate::account::Account;
use crate::cuts::{Cut, Cuts, hand_over};
use crate::handle::{Handle, seated_event, sit};
use crate::held::Held;
use crate::replaced::Replaced;
use crate::room::Room;
use crate::seat::Seat;
use crate::shared::Shared;
use crate::side::Receives;
use std::sync::{Arc, Wait};
use th_log::{Kind, Receipt, Refused};
use th_model::RxId;

// The last event of a handle that is live, on the locked log.
fn surely_last<O: Kind>(held: &mut Held<O>, account: &mut Account, last: O::Call)
    requires lawful { O.lawful }
    requires ready { O.machine.ready held.old.log.piece.last last ≡ true }
    requires fits { Fits account.old held.old.log.tally }
    requires spends { Spends O.machine held.old.log.piece.last last }
    ensures share { account.new.share ≡ counted account.old.share }
    ensures eye { account.new.eye ≡ account.old.eye }
    ensures part { Extends held.old.log.piece held.new.log.piece }
    ensures rest { held.new ≡ record held.old { log = held.new.log } }
{
    let Ok(_) = held.last_event(account, last) else {
        unreachable!()
    };
}

// Both events of this receiver, on the locked log, which may be cut before: `make`, and its last one where that made a handle.
fn make_and_last<O: Kind>(
    held: &mut Held<O>,
    cuts: &Option<Arc<Cuts<O>>>,
    account: &mut Account,
    rx: RxId,
    make: O::Call,
    cut: &mut Option<Cut<O>>,
) -> Result<(Receipt<O>, Option<Seat>), Refused<O::Call>>
    requires lawful { O.lawful }
    requires ready { O.machine.ready held.old.log.piece.last make ≡ true }
    requires make { O.resubscribing rx ≡ Some make }
    ensures tells { IfOk result (λ r. Tells account.old make r.0) }
    ensures seat { IfOk result (λ r. IsSeated (made_by O.made_tx O.made_rx) r.0 r.1) }
    ensures share { IfOk result (λ r. account.new.share ≡ counted_twice r.1 account.old.share) }
    ensures eye { account.new.eye ≡ account.old.eye }
    ensures back { IfErr result (λ e. IsBack account.old account.new make e) }
    ensures seen { IfErr result (IsFullAsSeen (is_some cuts.now) account.old) }
    ensures part { HandsOn held.old.log.piece cut.old cut.new
        (λ p. Extends p held.new.log.piece) }
    ensures rest { held.new ≡ record held.old { log = held.new.log } }
{
    match seated_event(held, cuts, account, make, cut) {
        Ok((receipt, seat)) => match seat {
            None => Ok((receipt, None)),
            Some(seat) => {
                surely_last(held, account, O::last_of_receiver(rx));
                Ok((receipt, Some(seat)))
            }
        },
        Err(refused) => Err(refused),
    }
}

// The same, once the call is ready. A part that was cut is handed over when the lock is free.
fn replacing_call<O: Kind, R: Wait>(
    rt: &R,
    room: &Room<O>,
    account: &mut Account,
    rx: RxId,
    make: O::Call,
) -> Result<(Receipt<O>, Option<Seat>), Refused<O::Call>>
    requires lawful { O.lawful }
    requires make { O.resubscribing rx ≡ Some make }
    ensures tells { IfOk result (λ r. Tells account.old make r.0) }
    ensures seat { IfOk result (λ r. IsSeated (made_by O.made_tx O.made_rx) r.0 r.1) }
    ensures share { IfOk result (λ r. account.new.share ≡ counted_twice r.1 account.old.share) }
    ensures eye { account.new.eye ≡ account.old.eye }
    ensures back { IfErr result (λ e. IsBack account.old account.new make e) }
    ensures seen { IfErr result (IsFullAsSeen (is_some room.now.cuts) account.old) }
{
    let mut cut = None;
    let mut held = room.lock_when_ready(rt, &make);
    let answer = make_and_last(&mut *held, &room.cuts, account, rx, make, &mut cut);
    drop(held);
    hand_over(rt, &mut cut);
    answer
}

impl<O: Kind> Shared<O> {
    /// A new receiver in the place of an old one by this call, which makes another: by two events under one lock. The old
    /// one is spent, so that its share comes back. Where none is made the old one stays. Its share counts each of these
    /// events. This is to be an owner of the receiver's own channel: one of a channel with another key is told `Foreign`,
    /// and on one that was given the same key the call may wait for ever, since the receiver's eye is on its own channel's
    /// word.
    pub fn replace<R: Wait>(
        &self,
        rt: &R,
        old: Handle<O, Receives>,
        make: O::Call,
    ) -> Result<(Receipt<O>, Replaced<O, Receives>), (Handle<O, Receives>, Refused<O::Call>)>
        requires lawful { O.lawful }
        requires make { O.resubscribing (rx old) ≡ Some make }
        ensures tells { IfOk result (λ r. Tells old.known make r.0) }
        ensures replaced { IfOk result (λ r.
            IsReplaced (made_by O.made_tx O.made_rx) self.now.rolls old r.0 r.1) }
        ensures back { IfErr result (λ e. (e.0 ≡ old) × (call_of e.1 ≡ make)) }
        ensures full { IfErr result (λ e. IsFullAsSeen self.now.rolls old.known e.1) }
    {
        let Handle {
            room,
            number,
            mut account,
            side: _,
        } = old;
        let Ok(theirs) = Arc::try_clone(&self.room) else {
            return Err((Handle::made(room, number, account), Refused::Short(make)));
        };
        let Ok(eye) = account.another_eye() else {
            return Err((Handle::made(room, number, account), Refused::Short(make)));
        };
        match replacing_call(rt, &*self.room, &mut account, RxId(number), make) {
            Ok((receipt, seat)) => match seat {
                Some(seat) => {
                    let new = sit(rt, theirs, eye, seat, &receipt);
                    Ok((receipt, Replaced::New(new, account.into_share())))
                }
                None => {
                    account.catch_up(rt, receipt.place());
                    let kept = Handle::made(room, number, account);
                    Ok((receipt, Replaced::Kept(kept)))
                }
            },
            Err(refused) => Err((Handle::made(room, number, account), refused)),
        }
    }
}
