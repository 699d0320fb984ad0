//! Calls of a broadcast channel, read.
ghost use Rattle.std.specs.Prelude.{◌≡◌, ℕ, List, Some};
ghost use Rattle.th_lines.specs.Fields.{by_word, number_of};
ghost use Rattle.th_lines.specs.Reads.{Reads, rest_of};
ghost use Rattle.th_traces.specs.BroadcastWords.{calls, grammar, handle_calls, number_calls};
ghost use Rattle.th_traces.specs.Grammars.{gives_value};
ghost use Rattle.th_traces.specs.Tables.{numbered};
ghost use Rattle.th_traces.specs.Versions.{has_call};

use crate::fields::{last_number, number_and_value};
use crate::head::Version;
use std::alloc::Global;
use th_lines::LineFault;
use th_model::{BCall, RxId, TxId, Value};

// Whether traces of the version have the call.
pub fn has_call(version: Version, call: &BCall<Value>) -> bool
    ensures { result ≡ has_call version call.now }
{
    match call {
        BCall::SubscribeOldest(_) => version == Version::Two,
        _ => true,
    }
}

// The call of this word.
pub fn by_word(alloc: Global, word: &[u8], rest: Option<&[u8]>) -> Result<BCall<Value>, LineFault>
    ensures { Reads (gives_value grammar) result (by_word calls word.now (rest_of rest.entry)) }
{
    if word == b"send".as_slice() {
        return match number_and_value(alloc, rest) {
            Ok((n, value)) => Ok(BCall::Send(TxId(n), value)),
            Err(fault) => Err(fault),
        };
    }
    by_number(word, rest).ok_or(LineFault::BadLine)
}

// The call of this word, where a handle's number alone is to follow it.
fn by_number(word: &[u8], rest: Option<&[u8]>) -> Option<BCall<Value>>
    ensures { result ≡ by_word (numbered number_calls) word.now (rest_of rest.entry) }
{
    with_number(word, last_number(rest)?)
}

// The same, once the number is read.
#[tactic(auto, unfolding(crate::specs::BroadcastWords::number_calls))]
fn with_number(word: &[u8], n: u64) -> Option<BCall<Value>>
    ensures { (digits : List ℕ) → number_of digits ≡ Some n
        → result ≡ by_word (numbered number_calls) word.now (Some digits) }
{
    if word == b"try-recv".as_slice() {
        return Some(BCall::TryRecv(RxId(n)));
    }
    if word == b"recv".as_slice() {
        return Some(BCall::Recv(RxId(n)));
    }
    if word == b"subscribe".as_slice() {
        return Some(BCall::Subscribe(TxId(n)));
    }
    if word == b"subscribe-oldest".as_slice() {
        return Some(BCall::SubscribeOldest(TxId(n)));
    }
    if word == b"resubscribe".as_slice() {
        return Some(BCall::Resubscribe(RxId(n)));
    }
    by_handle(word, n)
}

// The same, of the words that neither receive nor subscribe.
#[tactic(auto, unfolding(crate::specs::BroadcastWords::handle_calls))]
fn by_handle(word: &[u8], n: u64) -> Option<BCall<Value>>
    ensures { (digits : List ℕ) → number_of digits ≡ Some n
        → result ≡ by_word (numbered handle_calls) word.now (Some digits) }
{
    if word == b"clone-tx".as_slice() {
        return Some(BCall::CloneTx(TxId(n)));
    }
    if word == b"drop-tx".as_slice() {
        return Some(BCall::DropTx(TxId(n)));
    }
    if word == b"drop-rx".as_slice() {
        return Some(BCall::DropRx(RxId(n)));
    }
    if word == b"queued".as_slice() {
        return Some(BCall::Queued(TxId(n)));
    }
    if word == b"left".as_slice() {
        return Some(BCall::Left(RxId(n)));
    }
    if word == b"readers".as_slice() {
        return Some(BCall::Readers(TxId(n)));
    }
    None
}
