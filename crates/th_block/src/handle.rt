//! A caller's handle at a shared channel. One body serves senders and receivers of both channels.
ghost use Rattle.std.specs.Prelude.{◌≡◌, ◌<◌, ◌≤◌, ◌↔◌, [], is_some, length, true, false, IfErr, IfOk, IfSome, IsTrue, MatchOption, MatchResult, OnOk, None, Some};
ghost use Rattle.std.specs.Arc.{arc_value};
ghost use Rattle.std.specs.Sync.Mutex.{mutex_guard_value};
ghost use Rattle.th_glance.specs.Lists.{last_of};
ghost use Rattle.th_log.specs.History.{IsLimit};
ghost use Rattle.th_log.specs.Outcome.{IsAnswered, added, counted};
ghost use Rattle.th_log.specs.Replies.{made_by};
ghost use Rattle.th_block.specs.Handles.{Beside, Calls, CallsFor, Glances, IsBack, IsFirst, IsFullAsSeen, IsMade, IsNext, IsNextTold, Looked, Tells, seen_of, tx, unused};
ghost use Rattle.th_block.specs.Locked.{Entered, Fits, HandsOn, IsSeated, Spends};
ghost use Rattle.th_block.specs.Rows.{CallsInRow};

use crate::account::Account;
use crate::cuts::{Cut, Cuts, hand_over};
use crate::held::Held;
use crate::posted::Posted;
use crate::ready::{all_ready, see_all};
use crate::room::Room;
use crate::seat::Seat;
use crate::shared::Shared;
use crate::side::{Receives, Sends, Side};
use std::alloc::{AllocError, Global};
use std::marker::{Model, PhantomData};
use std::sync::{Arc, MutexGuard, Wait};
use std::time::{Clock, Duration};
use th_glance::{Eye, Glance};
use th_log::{Kind, Logged, MOST_ENTRIES, MakeFault, Object, Receipt, Refused, made};
use th_model::{Short, Start, TxId};
use th_seats::Share;

/// A handle of a channel `O` on its side `S`: one number, and the share that counts its events.
///
/// Each call takes the lock once, and holds it for its one event: what the channel's own call costs, a copy of the call
/// for the log and one for the receipt, the store of the channel's word, and a look at whether anyone is to be woken.
/// After that the handle's eye looks at the word until it sees the event, which its first look finds. Who finds the lock taken
/// tries again for some microseconds before it sleeps, and so does who finds no answer yet. Only calls that say so wait for more
/// than the lock. Memory is asked for before the event; where it is refused, the call comes back as
/// `Refused::Short`. `glance` and `learn` take no lock and wait for nothing.
///
/// It is not cloned: a second handle is a call of the channel, and has its own number. One that is let go and not spent
/// or released keeps its number live and its share out, so that the channel is never closed by it and its shares never
/// settle. The same is left by a thread that panics or vanishes with its handle. The channel itself is whole in each
/// case, since a call is under the lock or not at all: there is no poisoning.
#[derive(Drop)]
pub struct Handle<O: Object, S> {
    pub(crate) room: Arc<Room<O>>,
    // The number under which the channel knows the handle. It never changes.
    pub(crate) number: u64,
    pub(crate) account: Account,
    pub(crate) side: PhantomData<S>,
}

impl<O: Object, S> Model for Handle<O, S> {
    ghost use Rattle.std.specs.Arc.{arc_value};
    ghost use Rattle.std.specs.Prelude.{is_some};
    ghost use Rattle.th_block.specs.Handles.{Holder};

    ghost Value = { Holder };

    ghost view = { λ h. record {
      number = h.number;
      known = h.account;
      rolls = is_some (arc_value h.room).cuts;
    } };
}

impl<O: Object, S> Handle<O, S> {
    // The handle with these parts.
    pub(crate) fn made(room: Arc<Room<O>>, number: u64, account: Account) -> Handle<O, S>
        ensures { result ≡ record {
          number = number;
          known = account;
          rolls = is_some (arc_value room).cuts;
        } }
    {
        Handle {
            room,
            number,
            account,
            side: PhantomData,
        }
    }
}

// Whether a log with one live handle may have this limit.
pub(crate) fn is_limit(limit: u64) -> bool
    ensures { IsTrue result ↔ IsLimit limit 1 }
{
    0 < limit && limit <= MOST_ENTRIES
}

// The first handle of a channel, which has no other. It is a sender. Where there is a queue, calls cut the log, from so many
// entries on.
pub(crate) fn open<O: Kind, S>(
    alloc: Global,
    object: O,
    limit: u64,
    key: u64,
    most: u64,
    cuts: Option<Arc<Cuts<O>>>,
) -> Result<Handle<O, S>, MakeFault>
    requires lawful { O.lawful }
    requires one { O.machine.live (O.shows object) ≡ 1 }
    requires open { O.machine.closed (O.shows object) ≡ false }
    ensures handle { IfOk result (IsFirst (is_some cuts) key) }
    ensures limit { OnOk result (IsLimit limit 1) }
    ensures bad { IfErr result (λ fault. fault ≡ MakeFault.BadLimit ↔ ¬ (IsLimit limit 1)) }
{
    let (log, share) = match Logged::new(alloc, object, limit, key) {
        Ok(made) => made,
        Err(fault) => return Err(fault),
    };
    let Ok((posted, eye)) = Posted::open(alloc, log) else {
        return Err(MakeFault::Short);
    };
    match Arc::new(alloc, Room::new(Held::new(posted, most), cuts)) {
        Ok(room) => Ok(Handle::made(room, 1, Account::new(share, eye))),
        Err(_) => Err(MakeFault::Short),
    }
}

// The seat of the handle that a reply tells of, with a share of its own, on the locked log.
fn seated<O: Kind>(held: &mut Held<O>, receipt: &Receipt<O>) -> Option<Seat>
    requires { receipt.now.key ≡ held.old.log.tally.key }
    ensures seat { IsSeated (made_by O.made_tx O.made_rx) receipt.now result }
    ensures piece { held.new.log.piece ≡ held.old.log.piece }
    ensures key { held.new.log.tally.key ≡ held.old.log.tally.key }
    ensures total { held.new.log.tally.total ≡ held.old.log.tally.total }
    ensures rest { held.new ≡ record held.old { log = held.new.log } }
{
    let number = made::<O>(receipt.reply())?;
    let share = held.split();
    Some(Seat { number, share })
}

// One event of a call that may make a handle, on the locked log, which may be cut before.
pub(crate) fn seated_event<O: Kind>(
    held: &mut Held<O>,
    cuts: &Option<Arc<Cuts<O>>>,
    account: &mut Account,
    call: O::Call,
    cut: &mut Option<Cut<O>>,
) -> Result<(Receipt<O>, Option<Seat>), Refused<O::Call>>
    requires lawful { O.lawful }
    requires ready { O.machine.ready held.old.log.piece.last call ≡ true }
    ensures told { MatchResult result
        (λ r. Entered account.old account.new call r.0
        × IsSeated (made_by O.made_tx O.made_rx) r.0 r.1)
        (IsBack account.old account.new call) }
    ensures seen { IfErr result (IsFullAsSeen (is_some cuts.now) account.old) }
    ensures step { IfOk result (λ r.
        O.machine.answer held.old.log.piece.last call ≡ (r.0.reply, held.new.log.piece.last)) }
    ensures fits { OnOk result (Fits account.new held.new.log.tally) }
    ensures part { HandsOn held.old.log.piece cut.old cut.new (λ p. MatchResult result
        (λ r. held.new.log.piece ≡ added p call r.0.reply held.new.log.piece.last)
        (λ _. held.new.log.piece ≡ p)) }
    ensures rest { held.new ≡ record held.old { log = held.new.log } }
{
    match held.enter(cuts, account, call, false, cut) {
        Ok(receipt) => {
            let seat = seated(held, &receipt);
            Ok((receipt, seat))
        }
        Err(refused) => Err(refused),
    }
}

// The same, once the call is ready. A part that was cut is handed over when the lock is free.
fn seated_call<O: Kind, R: Wait>(
    rt: &R,
    room: &Room<O>,
    account: &mut Account,
    call: O::Call,
) -> Result<(Receipt<O>, Option<Seat>), Refused<O::Call>>
    requires { O.lawful }
    ensures told { MatchResult result
        (λ r. Entered account.old account.new call r.0
        × IsSeated (made_by O.made_tx O.made_rx) r.0 r.1)
        (IsBack account.old account.new call) }
    ensures seen { IfErr result (IsFullAsSeen (is_some room.now.cuts) account.old) }
{
    let mut cut = None;
    let mut held = room.lock_when_ready(rt, &call);
    let answer = seated_event(&mut *held, &room.cuts, account, call, &mut cut);
    drop(held);
    hand_over(rt, &mut cut);
    answer
}

// The handle that takes a seat, once its eye has seen the event by which it was made.
pub(crate) fn sit<O: Kind, S, R: Wait>(
    rt: &R,
    room: Arc<Room<O>>,
    eye: Eye,
    seat: Seat,
    receipt: &Receipt<O>,
) -> Handle<O, S>
    requires number { made_by O.made_tx O.made_rx receipt.now.reply ≡ Some seat.number }
    requires share { seat.share ≡ unused receipt.now.key }
    ensures { IsMade (made_by O.made_tx O.made_rx receipt.now.reply)
        (is_some (arc_value room).cuts) eye receipt.now result }
{
    let mut fresh = Account::new(seat.share, eye);
    fresh.catch_up(rt, receipt.place());
    Handle::made(room, seat.number, fresh)
}

// What a call is told that may make a handle: if it made one, that takes its seat. Both eyes see the event before.
fn seat_new<O: Kind, N, R: Wait>(
    rt: &R,
    room: Arc<Room<O>>,
    eye: Eye,
    account: &mut Account,
    answer: (Receipt<O>, Option<Seat>),
) -> (Receipt<O>, Option<Handle<O, N>>)
    requires { IsSeated (made_by O.made_tx O.made_rx) answer.0 answer.1 }
    ensures receipt { result.0 ≡ answer.0 }
    ensures new { Beside (made_by O.made_tx O.made_rx) (is_some (arc_value room).cuts) eye
        answer.0 result.1 }
    ensures share { account.new.share ≡ account.old.share }
    ensures eye { Looked account.old.eye account.new.eye }
    ensures seen { answer.0.place < seen_of account.new }
{
    let (receipt, seat) = answer;
    account.catch_up(rt, receipt.place());
    match seat {
        Some(seat) => {
            let new = sit(rt, room, eye, seat, &receipt);
            (receipt, Some(new))
        }
        None => (receipt, None),
    }
}

impl<O: Kind, S> Handle<O, S> {
    /// The number under which the channel knows the handle: it stands in the handle's calls.
    pub fn number(&self) -> u64
        ensures { result ≡ self.now.number }
    {
        self.number
    }

    /// Whether the handle's channel cuts its log by itself. It never changes.
    pub fn rolls(&self) -> bool
        ensures { result ≡ self.now.rolls }
    {
        self.room.cuts.is_some()
    }

    /// The key of the handle's channel.
    pub fn key(&self) -> u64
        ensures { result ≡ self.now.known.share.key }
    {
        self.account.key()
    }

    /// How many events the channel had when the handle last looked: more than the place at which it was last answered, or
    /// made, and 0 on the first sender. It does not look.
    pub fn seen(&self) -> u64
        ensures { result ≡ seen_of self.now.known }
    {
        self.account.seen()
    }

    /// One look: how many events the channel had at some moment, and whether it had no senders then. One load, no lock,
    /// and no waiting. It never goes back, and shows each event of which this handle was told.
    pub fn glance(&mut self) -> Glance
        ensures looks { Glances self.old self.new }
        ensures last { result ≡ last_of self.new.known.eye.list }
    {
        self.account.glance()
    }

    /// One look as in `glance`, and whether the handle has then seen as many events.
    pub fn learn(&mut self, count: u64) -> bool
        ensures looks { Glances self.old self.new }
        ensures learnt { IsTrue result ↔ (count ≤ seen_of self.new.known) }
    {
        self.account.learn(count)
    }

    // One event, once its call is ready. Then all who wait for what it changed are woken, if they are to be.
    #[inline(always)]
    fn call_once<R: Wait>(
        &mut self,
        rt: &R,
        call: O::Call,
        wakes: bool,
    ) -> Result<Receipt<O>, Refused<O::Call>>
        requires { O.lawful }
        ensures calls { Calls self.old self.new call result }
        ensures answered { IfOk result (IsAnswered O.machine O.is_sound) }
    {
        let Handle {
            ref room,
            ref mut account,
            ..
        } = *self;
        let room = &**room;
        let mut held = room.lock_when_ready(rt, &call);
        // Few logs are cut by their calls, and a place for the part would cost each call.
        let answer = if room.cuts.is_some() {
            rolled_event(rt, room, held, account, call, wakes)
        } else {
            let answer = held.event(account, call);
            room.unlock_after(held, &answer, wakes);
            answer
        };
        match answer {
            Ok(receipt) => {
                // What every receipt says.
                let _reply = receipt.reply();
                account.catch_up(rt, receipt.place());
                Ok(receipt)
            }
            Err(refused) => Err(refused),
        }
    }

    // One event. It waits until the call is ready.
    #[inline(always)]
    pub(crate) fn call<R: Wait>(
        &mut self,
        rt: &R,
        call: O::Call,
    ) -> Result<Receipt<O>, Refused<O::Call>>
        requires { O.lawful }
        ensures calls { Calls self.old self.new call result }
        ensures answered { IfOk result (IsAnswered O.machine O.is_sound) }
    {
        self.call_once(rt, call, true)
    }

    /// Whether a call would wait now, for news or for nothing any more. It makes no event, and takes the lock for a moment:
    /// what it says may be past when it is read, so that no clause says what it means.
    pub fn would_wait<R: Wait>(&self, rt: &R, call: &O::Call) -> bool {
        let held = self.room.lock(rt);
        !held.is_ready(call)
    }

    /// Waits until a call would not wait, but no longer than so: whether it would not. It makes no event. What it says may be
    /// past when it is read, but for a call that waits for what only this handle takes; so no clause says what it means.
    pub fn wait_for<R: Wait + Clock>(&self, rt: &R, call: &O::Call, longest: Duration) -> bool {
        self.room.wait_for(rt, call, longest)
    }

    // One event that may be the last of a loop, by a call that waits.
    pub(crate) fn next_call<R: Wait>(
        &mut self,
        rt: &R,
        call: O::Call,
    ) -> Option<Result<Receipt<O>, Refused<O::Call>>>
        requires { O.lawful }
        ensures next { IsNext O.ends self.old self.new call result }
        ensures answered { IfSome result (λ told. IfOk told (IsAnswered O.machine O.is_sound)) }
    {
        match self.call(rt, call) {
            Ok(receipt) => {
                if O::ends(receipt.reply()) {
                    return None;
                }
                Some(Ok(receipt))
            }
            Err(refused) => Some(Err(refused)),
        }
    }

    // The same, and whether it was the last one: that has its receipt too.
    pub(crate) fn next_call_told<R: Wait>(
        &mut self,
        rt: &R,
        call: O::Call,
    ) -> Result<(Receipt<O>, bool), Refused<O::Call>>
        requires { O.lawful }
        ensures next { IsNextTold O.ends self.old self.new call result }
        ensures answered { IfOk result (λ r. IsAnswered O.machine O.is_sound r.0) }
    {
        match self.call(rt, call) {
            Ok(receipt) => {
                let is_last = O::ends(receipt.reply());
                Ok((receipt, is_last))
            }
            Err(refused) => Err(refused),
        }
    }

    // One event of a call that may make a handle, of either side. It comes beside the receipt.
    pub(crate) fn making<R: Wait, N>(
        &mut self,
        rt: &R,
        call: O::Call,
    ) -> Result<(Receipt<O>, Option<Handle<O, N>>), Refused<O::Call>>
        requires { O.lawful }
        ensures { CallsFor (made_by O.made_tx O.made_rx) self.old self.new call result }
    {
        let Handle {
            ref room,
            ref mut account,
            ..
        } = *self;
        let Ok(theirs) = Arc::try_clone(room) else {
            return Err(Refused::Short(call));
        };
        let Ok(eye) = account.another_eye() else {
            return Err(Refused::Short(call));
        };
        match seated_call(rt, &**room, account, call) {
            Ok(answer) => Ok(seat_new(rt, theirs, eye, account, answer)),
            Err(refused) => Err(refused),
        }
    }

    /// An owner of the channel, without a number. It takes no memory, and is refused only past 2^63 owners.
    pub fn shared(&self) -> Result<Shared<O>, Short<()>>
        ensures { IfOk result (λ shared. shared.rolls ≡ self.now.rolls) }
    {
        match Arc::try_clone(&self.room) {
            Ok(room) => Ok(Shared { room }),
            Err(AllocError) => Err(Short { call: () }),
        }
    }

    /// Gives the share back without an event. The number stays live and unused; it takes no lock.
    pub fn release(self) -> Share
        ensures { result ≡ self.known.share }
    {
        self.account.into_share()
    }
}

impl<O: Kind, S: Side<O>> Handle<O, S> {
    /// One event of this very handle that wakes nobody, for whoever makes many calls at once: `Shared::wake` then wakes
    /// once. The calls by their names wake for themselves. It waits until the call is ready.
    #[inline(always)]
    pub fn call_quietly<R: Wait>(
        &mut self,
        rt: &R,
        call: O::Call,
    ) -> Result<Receipt<O>, Refused<O::Call>>
        requires lawful { O.lawful }
        requires own { S.caller call ≡ Some self.old.number }
        ensures { Calls self.old self.new call result }
    {
        self.call_once(rt, call, false)
    }

    /// Events of this very handle by one call, one behind the other, as long as it has its answer: at most `most`, and at
    /// most as the list has room for. Their receipts come in the order of the events. It takes the lock once and wakes
    /// nobody, as `call_quietly`, and waits for nothing but the lock. Fewer events than there could be are made where the
    /// log refuses one, as `LogFull` or for want of memory: the next call is told why.
    pub fn call_while_ready<R: Wait>(
        &mut self,
        rt: &R,
        call: &O::Call,
        most: usize,
        receipts: &mut Vec<Receipt<O>>,
    )
        requires lawful { O.lawful }
        requires own { S.caller call.now ≡ Some self.old.number }
        requires none { receipts.old.items ≡ [] }
        ensures most { length receipts.new.items ≤ most }
        ensures row { CallsInRow self.old self.new call.now receipts.new.items }
    {
        let Handle {
            ref room,
            ref mut account,
            ..
        } = *self;
        let room = &**room;
        let cuts = &room.cuts;
        let mut cut = None;
        let mut held = room.lock(rt);
        held.spare(cuts, most, &mut cut);
        let (total, _) = all_ready(&mut *held, cuts, account, call, most, receipts, &mut cut);
        drop(held);
        hand_over(rt, &mut cut);
        see_all(rt, account, total);
    }

    /// Spends the handle: its last event, by which its number is no longer live. The share comes back, and the receipt
    /// is given up. It waits for nothing but the lock, and takes no memory, nor room in the log but what was kept for
    /// it. It is refused only as `Foreign`: where the number is not live, or the share or what the handle has seen is
    /// another channel's. Then the handle comes back with the call.
    pub fn spend<R: Wait>(self, rt: &R) -> Result<Share, (Handle<O, S>, Refused<O::Call>)>
        requires { O.lawful }
        ensures share { IfOk result (λ share. share ≡ counted self.known.share) }
        ensures foreign { IfErr result (λ e.
            (e.0 ≡ self) × (e.1 ≡ Refused.Foreign (S.last self.number))) }
    {
        match self.spend_told(rt) {
            Ok((share, _receipt)) => Ok(share),
            Err(refused) => Err(refused),
        }
    }

    /// Spends the handle as `spend` does, and hands out the receipt beside the share.
    pub fn spend_told<R: Wait>(
        self,
        rt: &R,
    ) -> Result<(Share, Receipt<O>), (Handle<O, S>, Refused<O::Call>)>
        requires { O.lawful }
        ensures share { IfOk result (λ r. r.0 ≡ counted self.known.share) }
        ensures tells { IfOk result (λ r. Tells self.known (S.last self.number) r.1) }
        ensures done { IfOk result (λ r. r.1.reply ≡ O.done) }
        ensures foreign { IfErr result (λ e.
            (e.0 ≡ self) × (e.1 ≡ Refused.Foreign (S.last self.number))) }
    {
        let Handle {
            room,
            number,
            mut account,
            side: _,
        } = self;
        match last_call(rt, &*room, &mut account, S::last(number)) {
            Ok(receipt) => Ok((account.into_share(), receipt)),
            Err(refused) => Err((Handle::made(room, number, account), refused)),
        }
    }
}

impl<O: Kind> Handle<O, Sends> {
    /// A new sender.
    pub fn clone_tx<R: Wait>(
        &mut self,
        rt: &R,
    ) -> Result<(Receipt<O>, Option<Handle<O, Sends>>), Refused<O::Call>>
        requires { O.lawful }
        ensures { CallsFor (made_by O.made_tx O.made_rx) self.old self.new
            (O.cloning (tx self.old)) result }
    {
        let number = self.number;
        self.making(rt, O::cloning(TxId(number)))
    }

    /// A new receiver that begins so, or `None` where the channel has none that does.
    pub fn subscribe_from<R: Wait>(
        &mut self,
        rt: &R,
        start: Start,
    ) -> Option<Result<(Receipt<O>, Option<Handle<O, Receives>>), Refused<O::Call>>>
        requires { O.lawful }
        ensures { MatchOption result
            ((O.subscribing start (tx self.old) ≡ None) × (self.new ≡ self.old))
            (λ r. (call : O.Call) × (O.subscribing start (tx self.old) ≡ Some call)
            × CallsFor (made_by O.made_tx O.made_rx) self.old self.new call r) }
    {
        let call = O::subscribing(start, TxId(self.number()))?;
        Some(self.making(rt, call))
    }
}

// One event on a locked log that its calls cut where that is due; the event's call is ready. The part is handed over once the
// lock is free.
fn rolled_event<O: Kind, R: Wait>(
    rt: &R,
    room: &Room<O>,
    mut held: MutexGuard<'_, Held<O>>,
    account: &mut Account,
    call: O::Call,
    wakes: bool,
) -> Result<Receipt<O>, Refused<O::Call>>
    requires lawful { O.lawful }
    requires ready { O.machine.ready (mutex_guard_value held).log.piece.last call ≡ true }
    ensures told { MatchResult result (Entered account.old account.new call)
        (IsBack account.old account.new call) }
    ensures seen { IfErr result (IsFullAsSeen (is_some room.now.cuts) account.old) }
{
    let mut cut = None;
    let answer = held.enter(&room.cuts, account, call, false, &mut cut);
    room.unlock_after(held, &answer, wakes);
    hand_over(rt, &mut cut);
    answer
}

// The last event of a handle, under the lock.
fn last_call<O: Kind, R: Wait>(
    rt: &R,
    room: &Room<O>,
    account: &mut Account,
    call: O::Call,
) -> Result<Receipt<O>, Refused<O::Call>>
    requires lawful { O.lawful }
    requires done { (p : O.State) → Spends O.machine p call
        → (O.machine.answer p call).0 ≡ O.done }
    ensures told { MatchResult result (Entered account.old account.new call)
        (IsBack account.old account.new call) }
    ensures done { IfOk result (λ r. r.reply ≡ O.done) }
    ensures foreign { IfErr result (λ e. e ≡ Refused.Foreign call) }
{
    let mut held = room.lock_when_ready(rt, &call);
    let answer = held.last_event(account, call);
    room.unlock_after(held, &answer, true);
    answer
}
