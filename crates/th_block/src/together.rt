//! Calls of a handle that are made together, under one lock.
ghost use Rattle.std.specs.Prelude.{◌≡◌, ◌<◌, All, IfErr, OnOk, Some};
ghost use Rattle.th_block.specs.Handles.{IsFullAsSeen};
ghost use Rattle.th_block.specs.Rows.{EachBehind, IsAnswerTo};
ghost use Rattle.th_block.specs.Together.{MakesEach, StopsAt, TakesMany};

use crate::cuts::hand_over;
use crate::handle::Handle;
use crate::queued::{Calls, Queued};
use crate::ready::{each_ready, many_ready, see_all};
use crate::side::Side;
use std::collections::VecDeque;
use std::sync::Wait;
use th_log::{Kind, Receipt, Refused};

impl<O: Kind, S> Handle<O, S> {
    // Calls of what stands in this queue, one behind the other, under one lock; whoever waits is woken once.
    pub(crate) fn each<Q: Queued<O>, R: Wait>(
        &mut self,
        rt: &R,
        queue: &mut VecDeque<Q::Item>,
        receipts: &mut Vec<Receipt<O>>,
    ) -> Result<(), Refused<O::Call>>
        requires { O.lawful }
        ensures made { MakesEach (Q.call self.old.number) self.old self.new
            queue.old.items queue.new.items receipts.old.items receipts.new.items result }
        ensures stop { OnOk result
            (StopsAt O.machine.ready (Q.call self.old.number) queue.new.items) }
        ensures full { IfErr result (IsFullAsSeen self.old.rolls self.old.known) }
    {
        let Handle {
            ref room,
            number,
            ref mut account,
            ..
        } = *self;
        let room = &**room;
        let cuts = &room.cuts;
        let mut cut = None;
        let mut held = room.lock(rt);
        let log = &mut *held;
        log.spare(cuts, queue.len(), &mut cut);
        let (awaited, end) = each_ready::<O, Q>(
            log, cuts, account, number, queue, receipts, &mut cut,
        );
        let total = log.total();
        let wake = log.wakes_if(awaited);
        drop(held);
        room.wake(wake);
        hand_over(rt, &mut cut);
        see_all(rt, account, total);
        end
    }

    // Events of one call, which is news to nobody, under one lock. It waits until the call is ready, and then makes as many
    // as have their answers, up to the limit. Nobody is woken.
    pub(crate) fn many<R: Wait>(
        &mut self,
        rt: &R,
        call: O::Call,
        limit: usize,
        receipts: &mut Vec<Receipt<O>>,
    ) -> Result<usize, Refused<O::Call>>
        requires lawful { O.lawful }
        requires some { 0 < limit }
        ensures taken { TakesMany O.ends self.old self.new call limit
            receipts.old.items receipts.new.items result }
        ensures answered { EachBehind (IsAnswerTo O.machine O.is_sound call)
            receipts.old.items receipts.new.items }
    {
        let Handle {
            ref room,
            ref mut account,
            ..
        } = *self;
        let room = &**room;
        let cuts = &room.cuts;
        let mut cut = None;
        let mut held = room.lock_when_ready(rt, &call);
        let log = &mut *held;
        log.spare(cuts, limit, &mut cut);
        let answer = many_ready(log, cuts, account, call, limit, receipts, &mut cut);
        let total = log.total();
        drop(held);
        hand_over(rt, &mut cut);
        let (count, _) = answer?;
        see_all(rt, account, total);
        Ok(count)
    }
}

impl<O: Kind, S: Side<O>> Handle<O, S> {
    /// Events of these calls of this very handle, from the front of the queue on, one behind the other, under one lock;
    /// whoever waits is woken once. No call is copied: one that is made is moved out of the queue, and its receipt put
    /// behind those that the list has. It ends before a call that would wait, and waits for nothing but the lock.
    ///
    /// # Errors
    ///
    /// The log refuses a call, or there is no memory for its receipt: that call comes back. Those before it were made, and
    /// their receipts are in the list; those behind it are left in the queue.
    pub fn call_each<R: Wait>(
        &mut self,
        rt: &R,
        calls: &mut VecDeque<O::Call>,
        receipts: &mut Vec<Receipt<O>>,
    ) -> Result<(), Refused<O::Call>>
        requires lawful { O.lawful }
        requires own { All (λ call. S.caller call ≡ Some self.old.number) calls.old.items }
        ensures made { MakesEach (λ call. call) self.old self.new
            calls.old.items calls.new.items receipts.old.items receipts.new.items result }
        ensures stop { OnOk result (StopsAt O.machine.ready (λ call. call) calls.new.items) }
        ensures full { IfErr result (IsFullAsSeen self.old.rolls self.old.known) }
    {
        self.each::<Calls, R>(rt, calls, receipts)
    }
}
