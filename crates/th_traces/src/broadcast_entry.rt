//! The entries of a broadcast channel's trace.
use crate::broadcast_call::{by_word, has_call};
use crate::entry::EntryLines;
use crate::fields::{behind_letter, is_last_number, is_last_value};
use crate::head::Version;
use crate::put::{put_number, put_number_and_value};
use crate::spelling::Spelling;
use std::alloc::Global;
use th_lines::LineFault;
use th_lines::fields::cut;
use th_model::{BCall, BReply, Value};

impl EntryLines for BCall<Value> {
    ghost use Rattle.th_traces.specs.BroadcastWords.{grammar as words};

    type Form = Version;

    type Reply = BReply<Value>;

    ghost grammar = { words };

    #[tactic(auto, unfolding(crate::specs::BroadcastWords::call_of))]
    #[inline(always)]
    fn read_call(alloc: Global, form: Version, line: &[u8]) -> Result<BCall<Value>, LineFault> {
        let Some(bytes) = behind_letter(line, b'C') else {
            return Err(LineFault::BadLine);
        };
        let (word, rest) = cut(bytes);
        match by_word(alloc, word, rest) {
            Ok(call) if has_call(form, &call) => Ok(call),
            Ok(_) => Err(LineFault::BadLine),
            Err(fault) => Err(fault),
        }
    }

    #[inline(always)]
    fn gives_value(&self) -> bool {
        matches!(self, BCall::Send(_, _))
    }

    fn put_call(&self, out: &mut Vec<u8>) {
        match self {
            BCall::Send(tx, value) => put_number_and_value(b"C send ", tx.0, value, out),
            BCall::TryRecv(rx) => put_number(b"C try-recv ", rx.0, out),
            BCall::Recv(rx) => put_number(b"C recv ", rx.0, out),
            BCall::Subscribe(tx) => put_number(b"C subscribe ", tx.0, out),
            BCall::SubscribeOldest(tx) => put_number(b"C subscribe-oldest ", tx.0, out),
            BCall::Resubscribe(rx) => put_number(b"C resubscribe ", rx.0, out),
            BCall::CloneTx(tx) => put_number(b"C clone-tx ", tx.0, out),
            BCall::DropTx(tx) => put_number(b"C drop-tx ", tx.0, out),
            BCall::DropRx(rx) => put_number(b"C drop-rx ", rx.0, out),
            BCall::Queued(tx) => put_number(b"C queued ", tx.0, out),
            BCall::Left(rx) => put_number(b"C left ", rx.0, out),
            BCall::Readers(tx) => put_number(b"C readers ", tx.0, out),
        }
    }

    #[inline(always)]
    fn reply_spelling(reply: &BReply<Value>) -> Spelling<'_> {
        match reply {
            BReply::Sent(n) => Spelling::Number(b"R sent ", *n),
            BReply::NoReceivers(_) => Spelling::Words(b"R no-receivers"),
            BReply::Exhausted(_) => Spelling::Words(b"R exhausted"),
            BReply::Value(value) => Spelling::OfValue(b"R value ", value),
            BReply::Empty => Spelling::Words(b"R empty"),
            BReply::Closed => Spelling::Words(b"R closed"),
            BReply::Lagged(n) => Spelling::Number(b"R lagged ", *n),
            BReply::NewRx(rx) => Spelling::Number(b"R new-rx ", rx.0),
            BReply::NewTx(tx) => Spelling::Number(b"R new-tx ", tx.0),
            BReply::Count(n) => Spelling::Number(b"R count ", *n),
            BReply::Done => Spelling::Words(b"R done"),
            BReply::TooMany => Spelling::Words(b"R too-many"),
            BReply::NoHandle(_) => Spelling::Words(b"R no-handle"),
        }
    }

    #[tactic(auto, unfolding(crate::specs::BroadcastWords::own_replies))]
    fn says_own_reply(word: &[u8], rest: Option<&[u8]>) -> bool {
        if word == b"value".as_slice() {
            return is_last_value(rest);
        }
        if word == b"sent".as_slice() || word == b"lagged".as_slice() {
            return is_last_number(rest);
        }
        word == b"empty".as_slice() && rest.is_none()
    }
}
