//! The entries of a watch channel's trace.
ghost use Rattle.std.specs.Prelude.{◌≡◌, is_some};
ghost use Rattle.th_lines.specs.Fields.{by_word, field_then};
ghost use Rattle.th_lines.specs.Reads.{rest_of};
ghost use Rattle.th_traces.specs.WatchWords.{shown, yes_or_no};

use crate::entry::EntryLines;
use crate::fields::{behind_letter, is_last_value};
use crate::put::{put_number, put_number_and_value};
use crate::spelling::Spelling;
use crate::watch_call::by_word;
use std::alloc::Global;
use th_lines::LineFault;
use th_lines::fields::cut;
use th_model::{Edit, Value, WCall, WReply};

impl EntryLines for WCall<Value> {
    ghost use Rattle.th_traces.specs.WatchWords.{grammar as words};

    type Form = ();

    type Reply = WReply<Value>;

    ghost grammar = { words };

    #[tactic(auto, unfolding(crate::specs::WatchWords::call_of))]
    #[inline(always)]
    fn read_call(alloc: Global, _form: (), line: &[u8]) -> Result<WCall<Value>, LineFault> {
        let Some(bytes) = behind_letter(line, b'C') else {
            return Err(LineFault::BadLine);
        };
        let (word, rest) = cut(bytes);
        by_word(alloc, word, rest)
    }

    #[inline(always)]
    fn gives_value(&self) -> bool {
        matches!(
            self,
            WCall::Send(_, _) | WCall::Replace(_, _) | WCall::EditBy(_, _)
        )
    }

    fn put_call(&self, out: &mut Vec<u8>) {
        match self {
            WCall::Send(tx, value) => put_number_and_value(b"C send ", tx.0, value, out),
            WCall::Replace(tx, value) => put_number_and_value(b"C replace ", tx.0, value, out),
            WCall::EditBy(tx, Edit::Set(value)) => put_number_and_value(
                b"C set ", tx.0, value, out,
            ),
            WCall::EditBy(tx, Edit::Differ(value)) => put_number_and_value(
                b"C differ ",
                tx.0,
                value,
                out,
            ),
            WCall::EditBy(tx, Edit::Quiet(value)) => put_number_and_value(
                b"C quiet ",
                tx.0,
                value,
                out,
            ),
            WCall::Borrow(rx) => put_number(b"C borrow ", rx.0, out),
            WCall::Take(rx) => put_number(b"C take ", rx.0, out),
            WCall::HasChanged(rx) => put_number(b"C has-changed ", rx.0, out),
            WCall::TryChanged(rx) => put_number(b"C try-changed ", rx.0, out),
            WCall::Changed(rx) => put_number(b"C changed ", rx.0, out),
            WCall::MarkChanged(rx) => put_number(b"C mark-changed ", rx.0, out),
            WCall::MarkUnchanged(rx) => put_number(b"C mark-unchanged ", rx.0, out),
            WCall::Subscribe(tx) => put_number(b"C subscribe ", tx.0, out),
            WCall::CloneRx(rx) => put_number(b"C clone-rx ", rx.0, out),
            WCall::CloneTx(tx) => put_number(b"C clone-tx ", tx.0, out),
            WCall::DropTx(tx) => put_number(b"C drop-tx ", tx.0, out),
            WCall::DropRx(rx) => put_number(b"C drop-rx ", rx.0, out),
            WCall::IsClosed(tx) => put_number(b"C is-closed ", tx.0, out),
            WCall::Readers(tx) => put_number(b"C readers ", tx.0, out),
        }
    }

    #[inline(always)]
    fn reply_spelling(reply: &WReply<Value>) -> Spelling<'_> {
        match reply {
            WReply::Done => Spelling::Words(b"R done"),
            WReply::NoReceivers(_) => Spelling::Words(b"R no-receivers"),
            WReply::Exhausted(_) => Spelling::Words(b"R exhausted"),
            WReply::Was(value) => Spelling::OfValue(b"R was ", value),
            WReply::Modified(true) => Spelling::Words(b"R modified yes"),
            WReply::Modified(false) => Spelling::Words(b"R modified no"),
            WReply::Shown(value, true) => Spelling::OfValue(b"R shown new ", value),
            WReply::Shown(value, false) => Spelling::OfValue(b"R shown same ", value),
            WReply::Changed(true) => Spelling::Words(b"R changed yes"),
            WReply::Changed(false) => Spelling::Words(b"R changed no"),
            WReply::Marked => Spelling::Words(b"R marked"),
            WReply::NotYet => Spelling::Words(b"R not-yet"),
            WReply::Closed => Spelling::Words(b"R closed"),
            WReply::Gone(true) => Spelling::Words(b"R gone yes"),
            WReply::Gone(false) => Spelling::Words(b"R gone no"),
            WReply::NewRx(rx) => Spelling::Number(b"R new-rx ", rx.0),
            WReply::NewTx(tx) => Spelling::Number(b"R new-tx ", tx.0),
            WReply::Count(n) => Spelling::Number(b"R count ", *n),
            WReply::TooMany => Spelling::Words(b"R too-many"),
            WReply::NoHandle(_) => Spelling::Words(b"R no-handle"),
        }
    }

    #[tactic(auto, unfolding(crate::specs::WatchWords::own_replies))]
    fn says_own_reply(word: &[u8], rest: Option<&[u8]>) -> bool {
        if word == b"was".as_slice() {
            return is_last_value(rest);
        }
        if word == b"shown".as_slice() {
            return is_shown(rest);
        }
        if word == b"modified".as_slice()
            || word == b"changed".as_slice()
            || word == b"gone".as_slice()
        {
            return is_last_answer(rest);
        }
        (word == b"marked".as_slice() || word == b"not-yet".as_slice()) && rest.is_none()
    }
}

// Whether a value that is shown stands behind the word.
#[tactic(auto, unfolding(crate::specs::WatchWords::shown))]
fn is_shown(rest: Option<&[u8]>) -> bool
    ensures { result ≡ is_some (field_then (by_word shown) (rest_of rest.entry)) }
{
    let Some(bytes) = rest else {
        return false;
    };
    let (word, rest) = cut(bytes);
    (word == b"new".as_slice() || word == b"same".as_slice()) && is_last_value(rest)
}

// Whether `yes` or `no` is the last field.
fn is_last_answer(rest: Option<&[u8]>) -> bool
    ensures { result ≡ is_some (field_then yes_or_no (rest_of rest.entry)) }
{
    let Some(bytes) = rest else {
        return false;
    };
    let (word, rest) = cut(bytes);
    (word == b"yes".as_slice() || word == b"no".as_slice()) && rest.is_none()
}
