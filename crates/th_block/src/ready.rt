//! Events that are made together on the locked log, as many as have their answer at once.
ghost use Rattle.std.specs.Prelude.{◌≡◌, ◌⊎◌, ◌<◌, ◌≤◌, [], false, is_some, length, min, true, vec_capacity, IfErr, IfOk, OnErr, OnOk};
ghost use Rattle.th_block.specs.Few.{IsFullAtLast};
ghost use Rattle.th_block.specs.Handles.{IsBack, IsFullAsSeen, Looked, call_of, seen_of};
ghost use Rattle.th_block.specs.Locked.{Extends, HandsOn, HandsOnAll, KeepsAllWaiting, KeepsWaiting};
ghost use Rattle.th_block.specs.Rows.{AddsMore, AddsOne, EachBehind, EnteredInRow, IsAnswerTo};
ghost use Rattle.th_block.specs.Together.{EndsAs, EnteredMany, EnteredOf, LeavesOver, WaitsAt, has_ended};

use crate::account::Account;
use crate::cuts::{Cut, Cuts};
use crate::held::Held;
use crate::more::More;
use crate::queued::Queued;
use std::collections::VecDeque;
use std::sync::{Arc, Wait};
use th_log::{Kind, Receipt, Refused};

// One event of this call, which has its answer now, and its receipt behind the others: whether it is what callers may wait
// for. Where it is not, a call of another handle that would have waited would wait still.
// Memory for the receipt is asked for before the event, where the list has no room.
fn one_moved<O: Kind>(
    held: &mut Held<O>,
    cuts: &Option<Arc<Cuts<O>>>,
    account: &mut Account,
    call: O::Call,
    receipts: &mut Vec<Receipt<O>>,
    cut: &mut Option<Cut<O>>,
) -> Result<bool, Refused<O::Call>>
    requires lawful { O.lawful }
    requires ready { O.machine.ready held.old.log.piece.last call ≡ true }
    ensures made { OnOk result (AddsOne account.old account.new call
        held.old.log.tally held.new.log.tally receipts.old.items receipts.new.items) }
    ensures answered { OnOk result (EachBehind (IsAnswerTo O.machine O.is_sound call)
        receipts.old.items receipts.new.items) }
    ensures waits { IfOk result (λ awaited. awaited ≡ false → KeepsWaiting O.machine O.handle_of
        call held.old.log.piece.last held.new.log.piece.last) }
    ensures back { IfErr result (λ e. call_of e ≡ call) }
    ensures same { OnErr result ((account.new ≡ account.old)
        × (held.new.log.tally ≡ held.old.log.tally) × (receipts.new.items ≡ receipts.old.items)) }
    ensures last { OnErr result (held.new.log.piece.last ≡ held.old.log.piece.last) }
    ensures full { IfErr result (IsFullAtLast O.machine (is_some cuts.now) held.new.log) }
    ensures seen { IfErr result (IsFullAsSeen (is_some cuts.now) account.old) }
    ensures part { HandsOn held.old.log.piece cut.old cut.new
        (λ p. Extends p held.new.log.piece) }
    ensures rest { held.new ≡ record held.old { log = held.new.log } }
{
    let Ok(()) = receipts.reserve(1) else {
        return Err(Refused::Short(call));
    };
    match held.enter(cuts, account, call, true, cut) {
        Ok(receipt) => {
            let awaited = held.is_awaited(&receipt);
            // What every receipt says.
            let _reply = receipt.reply();
            let Ok(()) = receipts.push(receipt) else {
                unreachable!()
            };
            Ok(awaited)
        }
        Err(refused) => Err(refused),
    }
}

// One event of a copy of this call, if it has its answer now.
fn one_more<O: Kind>(
    held: &mut Held<O>,
    cuts: &Option<Arc<Cuts<O>>>,
    account: &mut Account,
    call: &O::Call,
    receipts: &mut Vec<Receipt<O>>,
    cut: &mut Option<Cut<O>>,
) -> More
    requires { O.lawful }
    ensures made { AddsMore result account.old account.new call.now
        held.old.log.tally held.new.log.tally receipts.old.items receipts.new.items }
    ensures answered { EachBehind (IsAnswerTo O.machine O.is_sound call.now)
        receipts.old.items receipts.new.items }
    ensures stop { result ≡ More.Waits
        → O.machine.ready held.new.log.piece.last call.now ≡ false }
    ensures part { HandsOn held.old.log.piece cut.old cut.new
        (λ p. Extends p held.new.log.piece) }
    ensures rest { held.new ≡ record held.old { log = held.new.log } }
{
    if !held.is_ready(call) {
        return More::Waits;
    }
    let Ok(copy) = O::copy_call(call) else {
        return More::Refused;
    };
    match one_moved(held, cuts, account, copy, receipts, cut) {
        Ok(_) => More::Made,
        Err(_) => More::Refused,
    }
}

/// Events of this call as long as it has its answer, at most so many, and at most as there is room for their receipts.
/// It ends too where the log refuses one. Answers how many events the channel has then, and what came of the last try.
pub(crate) fn all_ready<O: Kind>(
    held: &mut Held<O>,
    cuts: &Option<Arc<Cuts<O>>>,
    account: &mut Account,
    call: &O::Call,
    most: usize,
    receipts: &mut Vec<Receipt<O>>,
    cut: &mut Option<Cut<O>>,
) -> (u64, More)
    requires lawful { O.lawful }
    requires none { receipts.old.items ≡ [] }
    ensures most { length receipts.new.items ≤ most }
    ensures row { EnteredInRow account.old account.new call.now
        held.old.log.tally.total held.new.log.tally.total receipts.new.items }
    ensures total { result.0 ≡ held.new.log.tally.total }
    ensures stop { EndsAs result.1
        (length receipts.new.items ≡ min most (vec_capacity receipts.old))
        (O.machine.ready held.new.log.piece.last call.now ≡ false) }
    ensures part { HandsOnAll held.old.log.piece held.new.log.piece cut.old cut.new }
    ensures rest { held.new ≡ record held.old { log = held.new.log } }
{
    let most = most.min(receipts.capacity());
    for _ in 0..most {
        match one_more(held, cuts, account, call, receipts, cut) {
            More::Made => {}
            More::Waits => return (held.total(), More::Waits),
            More::Refused => return (held.total(), More::Refused),
        }
    }
    (held.total(), More::Made)
}

/// Calls of what stands in this queue, from its front on, one behind the other, up to one that would wait. What a call was
/// made of is taken out of the queue, and so is what the log refuses, which comes back. Whether any is what callers may wait
/// for: where none is, a call of a handle that makes none of them, and that would have waited, would wait still.
pub(crate) fn each_ready<O: Kind, Q: Queued<O>>(
    held: &mut Held<O>,
    cuts: &Option<Arc<Cuts<O>>>,
    account: &mut Account,
    number: u64,
    queue: &mut VecDeque<Q::Item>,
    receipts: &mut Vec<Receipt<O>>,
    cut: &mut Option<Cut<O>>,
) -> (bool, Result<(), Refused<O::Call>>)
    requires { O.lawful }
    ensures row { LeavesOver (Q.call number) result.1 queue.new.items (λ over.
        EnteredOf (Q.call number) account.old account.new held.old.log.tally.total
        held.new.log.tally.total queue.old.items over receipts.old.items receipts.new.items) }
    ensures stop { OnOk result.1
        (WaitsAt (O.machine.ready held.new.log.piece.last) (Q.call number) queue.new.items) }
    ensures full { IfErr result.1 (IsFullAtLast O.machine (is_some cuts.now) held.new.log) }
    ensures seen { IfErr result.1 (IsFullAsSeen (is_some cuts.now) account.old) }
    ensures waits { result.0 ≡ false → KeepsAllWaiting O.machine O.handle_of (Q.call number)
        queue.old.items held.old.log.piece.last held.new.log.piece.last }
    ensures part { HandsOnAll held.old.log.piece held.new.log.piece cut.old cut.new }
    ensures rest { held.new ≡ record held.old { log = held.new.log } }
{
    let mut awaited = false;
    while let Some(next) = queue.front() {
        if !Q::is_ready(held, number, next) {
            return (awaited, Ok(()));
        }
        let Some(item) = queue.pop_front() else {
            unreachable!()
        };
        match one_moved(held, cuts, account, Q::call(number, item), receipts, cut) {
            Ok(is_awaited) => awaited |= is_awaited,
            Err(refused) => return (awaited, Err(refused)),
        }
    }
    (awaited, Ok(()))
}

// Whether the last of these receipts says that nothing comes any more.
fn ended<O: Kind>(receipts: &Vec<Receipt<O>>) -> bool
    ensures { result ≡ has_ended O.ends receipts.now.items }
{
    match receipts.last() {
        Some(receipt) => O::ends(receipt.reply()),
        None => false,
    }
}

/// Events of this call, whose answer is there: one, and further ones up to the limit, as long as they have their answers
/// too and the one before does not say that nothing comes any more. It ends too where the log refuses one. How many were
/// made, and what came of the last try; or the first comes back.
pub(crate) fn many_ready<O: Kind>(
    held: &mut Held<O>,
    cuts: &Option<Arc<Cuts<O>>>,
    account: &mut Account,
    call: O::Call,
    limit: usize,
    receipts: &mut Vec<Receipt<O>>,
    cut: &mut Option<Cut<O>>,
) -> Result<(usize, More), Refused<O::Call>>
    requires lawful { O.lawful }
    requires ready { O.machine.ready held.old.log.piece.last call ≡ true }
    requires some { 0 < limit }
    ensures made { IfOk result (λ r.
        EnteredMany O.ends account.old account.new call limit held.old.log.tally.total
        held.new.log.tally.total receipts.old.items receipts.new.items r.0) }
    ensures stop { IfOk result (λ r. EndsAs r.1
        ((r.0 ≡ limit) ⊎ (has_ended O.ends receipts.new.items ≡ true))
        (O.machine.ready held.new.log.piece.last call ≡ false)) }
    ensures answered { EachBehind (IsAnswerTo O.machine O.is_sound call)
        receipts.old.items receipts.new.items }
    ensures back { IfErr result (λ e. IsBack account.old account.new call e) }
    ensures same { OnErr result (receipts.new.items ≡ receipts.old.items) }
    ensures full { IfErr result (IsFullAtLast O.machine (is_some cuts.now) held.new.log) }
    ensures seen { IfErr result (IsFullAsSeen (is_some cuts.now) account.old) }
    ensures part { HandsOnAll held.old.log.piece held.new.log.piece cut.old cut.new }
    ensures rest { held.new ≡ record held.old { log = held.new.log } }
{
    let Ok(again) = O::copy_call(&call) else {
        return Err(Refused::Short(call));
    };
    if let Err(refused) = one_moved(held, cuts, account, call, receipts, cut) {
        return Err(refused);
    }
    let mut count = 1usize;
    while count < limit {
        if ended(receipts) {
            return Ok((count, More::Made));
        }
        match one_more(held, cuts, account, &again, receipts, cut) {
            More::Made => count += 1,
            More::Waits => return Ok((count, More::Waits)),
            More::Refused => return Ok((count, More::Refused)),
        }
    }
    Ok((count, More::Made))
}

/// Looks until the handle has seen so many events of its channel, which has had them.
pub(crate) fn see_all<R: Wait>(rt: &R, account: &mut Account, total: u64)
    ensures share { account.new.share ≡ account.old.share }
    ensures eye { Looked account.old.eye account.new.eye }
    ensures seen { total ≤ seen_of account.new }
{
    match total.checked_sub(1) {
        Some(place) => account.catch_up(rt, place),
        None => {
            let _ = account.glance();
        }
    }
}
