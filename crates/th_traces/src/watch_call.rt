//! Calls of a watch channel, read.
ghost use Rattle.std.specs.Prelude.{◌≡◌, ℕ, List, Some, false};
ghost use Rattle.th_lines.specs.Fields.{Rest, by_word, number_of};
ghost use Rattle.th_lines.specs.Reads.{Reads, rest_of};
ghost use Rattle.th_traces.specs.WatchWords.{calls, grammar, handle_calls, number_calls};
ghost use Rattle.th_traces.specs.Grammars.{gives_value};
ghost use Rattle.th_traces.specs.Tables.{numbered};

use crate::fields::{last_number, number_and_value};
use std::alloc::Global;
use th_lines::LineFault;
use th_model::{Edit, RxId, TxId, Value, WCall};

// The call of this word. Where no value follows, which is the most, only the number is read here.
#[inline(always)]
pub fn by_word(alloc: Global, word: &[u8], rest: Option<&[u8]>) -> Result<WCall<Value>, LineFault>
    ensures { Reads (gives_value grammar) result (by_word calls word.now (rest_of rest.entry)) }
{
    if is_with_value(word) {
        return by_any_word(alloc, word, rest);
    }
    by_number(word, rest).ok_or(LineFault::BadLine)
}

// Whether a value follows the number behind this word.
#[inline(always)]
fn is_with_value(word: &[u8]) -> bool
    ensures { result ≡ false → (rest : Rest)
        → by_word calls word.now rest ≡ by_word (numbered number_calls) word.now rest }
{
    word == b"send".as_slice()
        || word == b"replace".as_slice()
        || word == b"set".as_slice()
        || word == b"differ".as_slice()
        || word == b"quiet".as_slice()
}

// The call of this word, whichever it is. It stands by itself, so that calls without a value make no room for one.
#[inline(never)]
fn by_any_word(alloc: Global, word: &[u8], rest: Option<&[u8]>) -> Result<WCall<Value>, LineFault>
    ensures { Reads (gives_value grammar) result (by_word calls word.now (rest_of rest.entry)) }
{
    if word == b"send".as_slice() {
        return match number_and_value(alloc, rest) {
            Ok((n, value)) => Ok(WCall::Send(TxId(n), value)),
            Err(fault) => Err(fault),
        };
    }
    if word == b"replace".as_slice() {
        return match number_and_value(alloc, rest) {
            Ok((n, value)) => Ok(WCall::Replace(TxId(n), value)),
            Err(fault) => Err(fault),
        };
    }
    if word == b"set".as_slice() {
        return match number_and_value(alloc, rest) {
            Ok((n, value)) => Ok(WCall::EditBy(TxId(n), Edit::Set(value))),
            Err(fault) => Err(fault),
        };
    }
    if word == b"differ".as_slice() {
        return match number_and_value(alloc, rest) {
            Ok((n, value)) => Ok(WCall::EditBy(TxId(n), Edit::Differ(value))),
            Err(fault) => Err(fault),
        };
    }
    if word == b"quiet".as_slice() {
        return match number_and_value(alloc, rest) {
            Ok((n, value)) => Ok(WCall::EditBy(TxId(n), Edit::Quiet(value))),
            Err(fault) => Err(fault),
        };
    }
    by_number(word, rest).ok_or(LineFault::BadLine)
}

// The call of this word, where a handle's number alone is to follow it.
#[inline(always)]
fn by_number(word: &[u8], rest: Option<&[u8]>) -> Option<WCall<Value>>
    ensures { result ≡ by_word (numbered number_calls) word.now (rest_of rest.entry) }
{
    with_number(word, last_number(rest)?)
}

// The same, once the number is read.
#[tactic(auto, unfolding(crate::specs::WatchWords::number_calls))]
#[inline(always)]
fn with_number(word: &[u8], n: u64) -> Option<WCall<Value>>
    ensures { (digits : List ℕ) → number_of digits ≡ Some n
        → result ≡ by_word (numbered number_calls) word.now (Some digits) }
{
    if word == b"borrow".as_slice() {
        return Some(WCall::Borrow(RxId(n)));
    }
    if word == b"take".as_slice() {
        return Some(WCall::Take(RxId(n)));
    }
    if word == b"has-changed".as_slice() {
        return Some(WCall::HasChanged(RxId(n)));
    }
    if word == b"try-changed".as_slice() {
        return Some(WCall::TryChanged(RxId(n)));
    }
    if word == b"changed".as_slice() {
        return Some(WCall::Changed(RxId(n)));
    }
    if word == b"mark-changed".as_slice() {
        return Some(WCall::MarkChanged(RxId(n)));
    }
    if word == b"mark-unchanged".as_slice() {
        return Some(WCall::MarkUnchanged(RxId(n)));
    }
    by_handle(word, n)
}

// The same, of the words that are no look at the value.
#[tactic(auto, unfolding(crate::specs::WatchWords::handle_calls))]
#[inline(always)]
fn by_handle(word: &[u8], n: u64) -> Option<WCall<Value>>
    ensures { (digits : List ℕ) → number_of digits ≡ Some n
        → result ≡ by_word (numbered handle_calls) word.now (Some digits) }
{
    if word == b"subscribe".as_slice() {
        return Some(WCall::Subscribe(TxId(n)));
    }
    if word == b"clone-rx".as_slice() {
        return Some(WCall::CloneRx(RxId(n)));
    }
    if word == b"clone-tx".as_slice() {
        return Some(WCall::CloneTx(TxId(n)));
    }
    if word == b"drop-tx".as_slice() {
        return Some(WCall::DropTx(TxId(n)));
    }
    if word == b"drop-rx".as_slice() {
        return Some(WCall::DropRx(RxId(n)));
    }
    if word == b"is-closed".as_slice() {
        return Some(WCall::IsClosed(TxId(n)));
    }
    if word == b"readers".as_slice() {
        return Some(WCall::Readers(TxId(n)));
    }
    None
}
