//! The entries of a trace, of either kind: printed, read, and compared.
ghost use Rattle.std.specs.Prelude.{◌≡◌, ◌+◌, ◌≤◌, ◌∷◌, [], ◌++◌, Option, IsOk, OnOk, OnErr, is_some, vec_len, vec_capacity};
ghost use Rattle.std.specs.Bool.{Decides};
ghost use Rattle.th_lines.specs.Fields.{by_word};
ghost use Rattle.th_lines.specs.Reads.{Reads, rest_of};
ghost use Rattle.th_lines.specs.Replies.{ended};
ghost use Rattle.th_traces.specs.Grammars.{Grammar, fields, gives_value, plain_replies, replies, reply_of};
ghost use Rattle.th_traces.specs.Spelled.{Bytes, call_line, entry_lines, reply_line, text};
ghost use Rattle.th_traces.specs.Spellings.{IsShort, spelled};

use crate::fields::{behind_letter, is_last_number};
use crate::put::put_spelling;
use crate::spelling::{Spelling, is_spelled};
use std::alloc::{AllocError, Global};
use th_lines::LineFault;
use th_lines::fields::cut;

/// The calls of a kind of channel. With their replies they are lines of its traces.
pub trait EntryLines {
    /// What the first line of a trace says of how its calls are read.
    type Form: Copy;

    /// The replies.
    type Reply: Drop;

    /// How both are spelled and read.
    ghost grammar: { Grammar Self.Form Self Self.Reply };

    /// The call that a line says in a trace of this form, without its line end. Linear in the line.
    ///
    /// # Errors
    ///
    /// `BadLine` where it says none; `Short` where it does, and memory for the call's value was refused.
    fn read_call(alloc: Global, form: Self::Form, line: &[u8]) -> Result<Self, LineFault>
        ensures { Reads (gives_value grammar) result (grammar.call_of form line.now) };

    /// Whether the call gives a value, which its reply may hand back.
    fn gives_value(&self) -> bool
        ensures { result ≡ gives_value grammar self.now };

    /// Appends the line of the call, where there is room for it.
    fn put_call(&self, out: &mut Vec<u8>)
        requires { vec_len out.old + 2000 ≤ vec_capacity out.old }
        ensures text { out.new.items
            ≡ out.old.items ++ ended (call_line (grammar.call_fields self.now)) }
        ensures most { vec_len out.new ≤ vec_len out.old + 2000 }
        ensures room { vec_capacity out.old ≤ vec_capacity out.new };

    /// The line of a reply.
    fn reply_spelling(reply: &Self::Reply) -> Spelling<'_>
        ensures line { spelled result ≡ reply_line (grammar.reply_fields reply.now) }
        ensures short { IsShort result };

    /// Whether this word, and what follows it, say a reply that the other kind does not have.
    fn says_own_reply(word: &[u8], rest: Option<&[u8]>) -> bool
        ensures { result ≡ is_some (by_word grammar.own word.now (rest_of rest.entry)) };
}

/// Appends the two lines of an entry, its call and its reply, or leaves the text as it was where
/// there is no memory for them. There is, where 4,096 bytes are free: no entry has more.
pub fn print_entry<C: EntryLines>(
    call: &C,
    reply: &C::Reply,
    out: &mut Vec<u8>,
) -> Result<(), AllocError>
    ensures ok { OnOk result (out.new.items ≡ out.old.items
        ++ text (entry_lines (fields C.grammar ((call.now, reply.now) ∷ [])))) }
    ensures err { OnErr result (out.new.items ≡ out.old.items) }
    ensures most { vec_len out.new ≤ vec_len out.old + 4096 }
    ensures fits { vec_len out.old + 4096 ≤ vec_capacity out.old → IsOk result }
    ensures room { vec_capacity out.old ≤ vec_capacity out.new }
{
    out.reserve(4096)?;
    call.put_call(out);
    put_spelling(C::reply_spelling(reply), out);
    Ok(())
}

/// Whether a line, without its line end, is the spelling of this reply. Linear in the line.
#[inline(always)]
pub fn spells_reply<C: EntryLines>(line: &[u8], reply: &C::Reply) -> bool
    ensures { Decides result (line.now ≡ reply_line (C.grammar.reply_fields reply.now)) }
{
    is_spelled(line, C::reply_spelling(reply))
}

/// Whether a line, without its line end, says a reply to a call that gives a value, or to one that gives none. Nothing
/// else of the call matters to that. Nothing is read of the line, so no memory is taken. Linear in the line.
pub fn says_reply<C: EntryLines>(gives: bool, line: &[u8]) -> bool
    ensures { (call : C) → gives_value C.grammar call ≡ gives
        → result ≡ is_some (reply_of C.grammar call line.now) }
{
    let Some(bytes) = behind_letter(line, b'R') else {
        return false;
    };
    let (word, rest) = cut(bytes);
    says_word::<C>(gives, word, rest)
}

// Whether a reply to a call that gives a value, or to one that gives none, has this word, with what follows it.
fn says_word<C: EntryLines>(gives: bool, word: &[u8], rest: Option<&[u8]>) -> bool
    ensures { (given : Option Bytes) → is_some given ≡ gives
        → result ≡ is_some (by_word (replies C.grammar given) word.now (rest_of rest.entry)) }
{
    if word == b"no-receivers".as_slice() || word == b"exhausted".as_slice() {
        return gives && rest.is_none();
    }
    if word == b"no-handle".as_slice() {
        return rest.is_none();
    }
    says_plain_reply::<C>(word, rest)
}

// Whether a reply that hands back no value has this word, with what follows it.
fn says_plain_reply<C: EntryLines>(word: &[u8], rest: Option<&[u8]>) -> bool
    ensures { result
        ≡ is_some (by_word (plain_replies C.grammar) word.now (rest_of rest.entry)) }
{
    if word == b"new-rx".as_slice() || word == b"new-tx".as_slice() || word == b"count".as_slice() {
        return is_last_number(rest);
    }
    if word == b"done".as_slice()
        || word == b"closed".as_slice()
        || word == b"too-many".as_slice()
    {
        return rest.is_none();
    }
    C::says_own_reply(word, rest)
}
