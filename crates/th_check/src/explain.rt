//! What is wrong with a trace, for people.
ghost use Rattle.std.specs.Prelude.{◌≡◌, IfOk, map};
ghost use Rattle.th_check.specs.Explaining.{Explains, plain};

use crate::checker::Checker;
use crate::fault::Expected;
use crate::verdict::Verdict;
use itoa::Buffer;
use std::alloc::{AllocError, Global};
use th_model::{BCall, TxId, WCall};
use th_traces::print_entry;

/// The most bytes of a line that are shown.
const MOST_SHOWN: usize = 200;

/// A call that a reply is printed below, since replies are printed with their calls. Its line has so many bytes.
const CALL: TxId = TxId(0);

const CALL_BYTES: usize = b"C readers 0\n".len();

// Appends what is wrong, in bytes that a terminal shows as they are. Nothing is appended for a legal trace, nor where
// memory is refused.
pub fn explain(alloc: Global, checker: &Checker, verdict: Verdict, text: &mut Vec<u8>)
    ensures { Explains verdict text.old.items text.new.items }
{
    let raw = match verdict {
        Verdict::Legal(_) => return,
        Verdict::Illegal(number) => illegal(alloc, checker, number),
        Verdict::BadTrace(number) => bad(alloc, checker, number),
    };
    let Ok(raw) = raw else {
        return;
    };
    let Ok(shown) = plain_of(alloc, raw.as_slice()) else {
        return;
    };
    let _ = text.extend_from_slice(shown.as_slice());
}

// The byte, or what stands for one that does something to a terminal.
fn plain(byte: u8) -> u8
    ensures { result ≡ plain byte }
{
    if byte == b'\n' {
        return byte;
    }
    if byte < b' ' {
        return b'?';
    }
    if byte > b'~' {
        return b'?';
    }
    byte
}

// The bytes as a terminal may have them.
fn plain_of(alloc: Global, raw: &[u8]) -> Result<Vec<u8>, AllocError>
    ensures { IfOk result (λ shown. shown.items ≡ map plain raw.now) }
{
    let mut shown = Vec::with_capacity(alloc, raw.len())?;
    for byte in raw {
        shown.push(plain(*byte))?;
    }
    Ok(shown)
}

// The two lines on a reply that the channel would not give.
fn illegal(alloc: Global, checker: &Checker, number: u64) -> Result<Vec<u8>, AllocError> {
    let mut raw = Vec::new(alloc);
    put_number(b"line ", number, &mut raw)?;
    raw.extend_from_slice(b": ")?;
    put_cut(checker.line().unwrap_or(b""), &mut raw)?;
    raw.extend_from_slice(b"\nexpected: ")?;
    put_expected(alloc, &checker.expected, &mut raw)?;
    raw.push(b'\n')?;
    Ok(raw)
}

// The line on one that may not stand where it does, or is missing.
fn bad(alloc: Global, checker: &Checker, number: u64) -> Result<Vec<u8>, AllocError> {
    let mut raw = Vec::new(alloc);
    put_number(b"line ", number, &mut raw)?;
    if number > checker.judged {
        raw.extend_from_slice(b" is missing\n")?;
        return Ok(raw);
    }
    raw.extend_from_slice(b" is no line that may stand here")?;
    match checker.line() {
        None => raw.extend_from_slice(b": it has more than 4096 bytes")?,
        Some(line) if line.is_empty() => raw.extend_from_slice(b": it is empty")?,
        Some(line) => {
            raw.extend_from_slice(b": ")?;
            put_cut(line, &mut raw)?;
        }
    }
    raw.push(b'\n')?;
    Ok(raw)
}

// Appends words and a number.
fn put_number(words: &[u8], number: u64, raw: &mut Vec<u8>) -> Result<(), AllocError> {
    let mut digits = Buffer::new();
    raw.extend_from_slice(words)?;
    raw.extend_from_slice(digits.format(number).as_bytes())
}

// Appends a line, or as much of it as is shown.
fn put_cut(line: &[u8], raw: &mut Vec<u8>) -> Result<(), AllocError> {
    match line.get(..MOST_SHOWN) {
        Some(shown) if line.len() > MOST_SHOWN => {
            raw.extend_from_slice(shown)?;
            raw.extend_from_slice(b" ..")
        }
        _ => raw.extend_from_slice(line),
    }
}

// Appends the reply that is expected.
fn put_expected(
    alloc: Global,
    expected: &Option<Expected>,
    raw: &mut Vec<u8>,
) -> Result<(), AllocError> {
    let mut entry = Vec::new(alloc);
    match expected {
        Some(Expected::Broadcast(Some(reply))) => {
            print_entry(&BCall::Readers(CALL), reply, &mut entry)?;
        }
        Some(Expected::Watch(Some(reply))) => {
            print_entry(&WCall::Readers(CALL), reply, &mut entry)?;
        }
        _ => return raw.extend_from_slice(b"no reply, since the call would wait"),
    }
    put_cut(reply_of(entry.as_slice()), raw)
}

// Of an entry below that call the reply, without its line end.
fn reply_of(entry: &[u8]) -> &[u8] {
    match entry.get(CALL_BYTES..) {
        Some([reply @ .., _]) => reply,
        _ => b"",
    }
}
