//! Names of files that are listed in a text.
ghost use Rattle.std.specs.Prelude.{◌≡◌, ◌≤◌, ◌<◌, ◌+◌, ◌-◌, ◌∷◌, ◌++◌, [], IfOk, IfSome, drop, length, map, string_bytes, take};
ghost use Rattle.th_program.specs.Listed.{held_by, listed, mark_of, names_in};

use crate::files::Opens;
use std::alloc::{AllocError, Global};
use std::io::{ErrorKind, Read};
use std::str;
use th_check::CheckFault;

/// Why it is not known which files a list names.
#[derive(Clone, Copy, Drop)]
pub(crate) enum ListFault {
    /// The list was not read.
    Unread(CheckFault),
    /// A name in it is not UTF-8.
    NotText,
}

// All that the reader gives.
fn whole_of<R: Read>(alloc: Global, reader: &mut R) -> Result<Vec<u8>, CheckFault>
    ensures { IfOk result (λ text. IfSome (R.remaining reader.old) (λ bytes. text.items ≡ bytes)) }
{
    let mut text = Vec::new(alloc);
    match reader.read_to_end(&mut text) {
        Ok(_) => Ok(text),
        Err(e) if e.kind() == ErrorKind::OutOfMemory => Err(CheckFault::Short),
        Err(_) => Err(CheckFault::Read),
    }
}

/// The text of the file with this name.
///
/// # Errors
///
/// Where it cannot be read, or for want of memory.
pub(crate) fn text_in<O: Opens>(alloc: Global, files: &O, name: &str) -> Result<Vec<u8>, CheckFault>
    ensures { IfOk result (λ text. IfSome (O.holds files.now name.now)
        (λ bytes. text.items ≡ bytes)) }
{
    match files.open(name) {
        Ok(mut file) => whole_of(alloc, &mut file),
        Err(_) => Err(CheckFault::Read),
    }
}

// The byte that ends each name.
fn mark_of(text: &[u8]) -> u8
    ensures { result ≡ mark_of text.now }
{
    for byte in text {
        if *byte == 0 {
            return 0;
        }
    }
    b'\n'
}

/// Where the name ends that begins at this place.
pub(crate) fn name_end(text: &[u8], from: usize, mark: u8) -> usize
    requires within { from < length text.now }
    ensures bounds { (from ≤ result) × (result ≤ length text.now) }
    ensures name { names_in mark (drop from text.now)
        ≡ take (result - from) (drop from text.now) ∷ names_in mark (drop (result + 1) text.now) }
{
    let mut at = from;
    while at < text.len() && text[at] != mark {
        at += 1;
    }
    at
}

// One name more.
fn add(alloc: Global, names: &mut Vec<String>, name: &str) -> Result<(), AllocError>
    ensures { IfOk result (λ _. map string_bytes names.new.items
        ≡ map string_bytes names.old.items ++ name.now ∷ []) }
{
    names.push(String::from_str(alloc, name)?)?;
    Ok(())
}

// The names that the text lists.
fn names_in(alloc: Global, text: &[u8]) -> Result<Vec<String>, ListFault>
    ensures { IfOk result (λ names. map string_bytes names.items ≡ listed text.now) }
{
    let mark = mark_of(text);
    let mut names = Vec::new(alloc);
    let mut at = 0;
    while at < text.len() {
        let end = name_end(text, at, mark);
        let Ok(name) = str::from_utf8(&text[at..end]) else {
            return Err(ListFault::NotText);
        };
        if add(alloc, &mut names, name).is_err() {
            return Err(ListFault::Unread(CheckFault::Short));
        }
        at = end + 1;
    }
    Ok(names)
}

/// The names that are listed in the file of this name, or, where it is `-`, in the input: each ended by NUL where there is
/// one in it, else by LF. The last one may end with the list.
///
/// # Errors
///
/// `Unread` where the list cannot be read, or for want of memory, `NotText` where a name is not UTF-8.
pub(crate) fn listed<O: Opens, R: Read>(
    alloc: Global,
    files: &O,
    list: &str,
    input: &mut R,
) -> Result<Vec<String>, ListFault>
    ensures { IfOk result (λ names.
        IfSome (held_by (O.holds files.now) (R.remaining input.old) list.now)
        (λ bytes. map string_bytes names.items ≡ listed bytes)) }
{
    let text = if list == "-" {
        whole_of(alloc, input)
    } else {
        text_in(alloc, files, list)
    };
    match text {
        Ok(text) => names_in(alloc, text.as_slice()),
        Err(fault) => Err(ListFault::Unread(fault)),
    }
}
