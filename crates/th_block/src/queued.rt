//! What stands in a queue, and which calls are made of it.
ghost use Rattle.std.specs.Prelude.{◌≡◌, ℕ};

use crate::broadcast_handles::RingBroadcast;
use crate::held::Held;
use th_log::Kind;
use th_model::{BCall, TxId, WCall};
use th_watch::Watch;

/// A kind of queue: what stands in it, and the call that the handle with a number makes of that.
pub(crate) trait Queued<O: Kind> {
    /// What stands in the queue.
    type Item: Drop;

    /// The call that is made of it.
    ghost call: { ℕ → Self.Item → O.Call };

    /// The call that is made of it.
    fn call(number: u64, item: Self::Item) -> O::Call
        ensures { result ≡ call number item };

    /// Whether that call has its answer now.
    fn is_ready(held: &Held<O>, number: u64, item: &Self::Item) -> bool
        ensures { result ≡ O.machine.ready held.now.log.piece.last (call number item.now) };
}

/// A queue of calls.
#[derive(Drop)]
pub(crate) struct Calls;

impl<O: Kind> Queued<O> for Calls {
    type Item = O::Call;

    ghost call = { λ number call. call };

    #[inline(always)]
    fn call(_number: u64, call: O::Call) -> O::Call {
        call
    }

    #[inline(always)]
    fn is_ready(held: &Held<O>, _number: u64, call: &O::Call) -> bool {
        held.is_ready(call)
    }
}

/// A queue of values that are to be sent. A send does not wait.
#[derive(Drop)]
pub(crate) struct Values;

impl<T: Clone + Drop> Queued<RingBroadcast<T>> for Values {
    ghost use Rattle.th_model.specs.declared.broadcast.BCall.TheVariants.{Send};

    type Item = T;

    ghost call = { λ number value. Send (record { 0 = number }) value };

    #[inline(always)]
    fn call(number: u64, value: T) -> BCall<T> {
        BCall::Send(TxId(number), value)
    }

    #[inline(always)]
    fn is_ready(_held: &Held<RingBroadcast<T>>, _number: u64, _value: &T) -> bool {
        true
    }
}

impl<T: Clone + PartialEq + Drop> Queued<Watch<T>> for Values {
    ghost use Rattle.th_model.specs.declared.watch.WCall.TheVariants.{Send};

    type Item = T;

    ghost call = { λ number value. Send (record { 0 = number }) value };

    #[inline(always)]
    fn call(number: u64, value: T) -> WCall<T> {
        WCall::Send(TxId(number), value)
    }

    #[inline(always)]
    fn is_ready(_held: &Held<Watch<T>>, _number: u64, _value: &T) -> bool {
        true
    }
}
