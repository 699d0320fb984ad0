//! Anchors: what a text tells of files and their sums, and which of them it does not tell of.
ghost use Rattle.std.specs.Prelude.{◌≡◌, ◌≤◌, ◌++◌, IfOk, IfSome, length, map, option_map, option_to_list, string_bytes};
ghost use Rattle.std.specs.List.{list_all};
ghost use Rattle.sha2.specs.Sha256.{sha256};
ghost use Rattle.th_program.specs.Anchors.{LackFrom, anchor_of, anchors_in, front_of, has_later, has_rest, is_digit, is_later, is_hex_digit, is_of, is_part, is_part_end, is_sum, is_told, rest_of, split_last, sum_in, summed_of, told_of};

use crate::files::Opens;
use crate::listed::name_end;
use crate::part_names::file_of;
use crate::sums::{Sum, digits_of, sum_of};
use crate::whole::Lack;
use std::alloc::{AllocError, Global};

/// What is told of a file that the server has written.
#[derive(Clone, Copy, Drop)]
pub struct Anchor<'a> {
    /// Its path below the folder for traces: `START/TOPIC.NUMBER.trace`.
    pub path: &'a [u8],
    /// Its sum, in 64 lower-case hexadecimal digits.
    pub digits: &'a [u8],
}

// A file that was summed.
#[derive(Clone, Copy, Drop)]
struct Summed<'a> {
    path: &'a str,
    sum: Sum,
}

/// A file that could not be read, by its place among others.
#[derive(Clone, Copy, Drop)]
pub(crate) struct Unread {
    pub at: usize,
}

// What stands before the last blank of a line, and the word behind it.
fn split_last(line: &[u8]) -> (&[u8], &[u8])
    ensures { (result.0.now, result.1.now) ≡ split_last line.now }
{
    match line.iter().rposition(|&b| b == b' ') {
        Some(blank) => (&line[..blank], &line[blank + 1..]),
        None => (&line[..0], line),
    }
}

// Whether all are decimal digits.
fn has_digits(bytes: &[u8]) -> bool
    ensures { result ≡ list_all is_digit bytes.now }
{
    bytes.iter().all(|b| *b >= b'0' && *b <= b'9')
}

// Whether all are digits of lower-case hexadecimal.
fn has_hex_digits(bytes: &[u8]) -> bool
    ensures { result ≡ list_all is_hex_digit bytes.now }
{
    bytes.iter().all(|b| (*b >= b'0' && *b <= b'9') || (*b >= b'a' && *b <= b'f'))
}

// Whether the word is a sum.
fn is_sum(word: &[u8]) -> bool
    ensures { result ≡ is_sum word.now }
{
    word.len() == 64 && has_hex_digits(word)
}

// Whether the path of a part ends so.
fn is_part_end(end: &[u8]) -> bool
    requires long { 27 ≤ length end.now }
    ensures { result ≡ is_part_end end.now }
{
    let (dot, rest) = end.split_at(1);
    let (number, ending) = rest.split_at(20);
    dot == b".".as_slice() && has_digits(number) && ending == b".trace".as_slice()
}

// Whether the word is the path of a part of a topic's history.
fn is_part(word: &[u8]) -> bool
    ensures { result ≡ is_part word.now }
{
    let Some(from) = word.len().checked_sub(27) else {
        return false;
    };
    is_part_end(&word[from..])
}

// What a line tells of a file, if its last words are `anchor`, a path and a sum.
fn anchor_of(line: &[u8]) -> Option<Anchor<'_>>
    ensures { option_map told_of result ≡ anchor_of line.now }
{
    let (front, digits) = split_last(line);
    let (start, path) = split_last(front);
    let (_, word) = split_last(start);
    if word == b"anchor".as_slice() && is_part(path) && is_sum(digits) {
        Some(Anchor { path, digits })
    } else {
        None
    }
}

// Adds what a line tells of a file.
fn add_line<'a>(anchors: &mut Vec<Anchor<'a>>, line: &'a [u8]) -> Result<(), AllocError>
    ensures { IfOk result (λ _. map told_of anchors.new.items
        ≡ map told_of anchors.old.items ++ option_to_list (anchor_of line.now)) }
{
    if let Some(anchor) = anchor_of(line) {
        anchors.push(anchor)?;
    }
    Ok(())
}

/// What the lines of a text tell of files, in their order.
pub(crate) fn anchors_in<'a>(alloc: Global, text: &'a [u8]) -> Result<Vec<Anchor<'a>>, AllocError>
    ensures { IfOk result (λ anchors. map told_of anchors.items ≡ anchors_in text.now) }
{
    let mut anchors = Vec::new(alloc);
    let mut at = 0;
    while at < text.len() {
        let end = name_end(text, at, b'\n');
        add_line(&mut anchors, &text[at..end])?;
        at = end + 1;
    }
    Ok(anchors)
}

// Whether this is told of the file with this path and sum.
fn is_of(path: &str, digits: &[u8], anchor: Anchor<'_>) -> bool
    ensures { result ≡ is_of path.now digits.now (told_of anchor.entry) }
{
    anchor.digits == digits && file_of(anchor.path) == file_of(path.as_bytes())
}

// Whether the anchors tell of this file.
fn is_told(anchors: &[Anchor<'_>], file: Summed<'_>) -> bool
    ensures { result ≡ is_told (map told_of anchors.now) (file.entry.path.now, file.entry.sum.0) }
{
    let digits = digits_of(file.sum);
    for anchor in anchors {
        if is_of(file.path, &digits, *anchor) {
            return true;
        }
    }
    false
}

// What stands before the number in the path of a part: the start, and the topic.
fn front_of(path: &[u8]) -> &[u8]
    ensures { result.now ≡ front_of path.now }
{
    &path[..path.len().saturating_sub(26)]
}

// Whether that is the path of a later part of the same topic and start.
fn is_later(path: &[u8], later: &[u8]) -> bool
    ensures { result ≡ is_later path.now later.now }
{
    front_of(later) == front_of(path) && path.cmp(&later).is_lt()
}

// Whether the anchors tell of one.
fn has_later(anchors: &[Anchor<'_>], path: &[u8]) -> bool
    ensures { result ≡ has_later (map told_of anchors.now) path.now }
{
    for anchor in anchors {
        if is_later(path, anchor.path) {
            return true;
        }
    }
    false
}

// Whether they tell of one by what they tell of this file.
fn has_rest(anchors: &[Anchor<'_>], file: Summed<'_>) -> bool
    ensures { result ≡ has_rest (map told_of anchors.now) (file.entry.path.now, file.entry.sum.0) }
{
    let digits = digits_of(file.sum);
    for anchor in anchors {
        if is_of(file.path, &digits, *anchor) && has_later(anchors, anchor.path) {
            return true;
        }
    }
    false
}

// What files lack that the anchors tell of, where this is the last one.
fn rest_of(anchors: &[Anchor<'_>], last: Option<Summed<'_>>) -> Option<Lack>
    ensures { result ≡ rest_of (map told_of anchors.now) (summed_of last.entry) }
{
    match last {
        Some(last) if has_rest(anchors, last) => Some(Lack::Rest),
        _ => None,
    }
}

// The sum of the file with this name, behind that one; `None` where it cannot be read.
fn sum_behind<O: Opens>(files: &O, last: Option<Summed<'_>>, name: &str) -> Option<Sum>
    ensures { IfSome result (λ sum. IfSome (O.holds files.now name.now)
        (λ bytes. sum.0 ≡ sha256 (sum_in (summed_of last.entry) ++ bytes))) }
{
    let Ok(mut file) = files.open(name) else {
        return None;
    };
    match last {
        Some(last) => sum_of(Some(last.sum), &mut file),
        None => sum_of(None, &mut file),
    }
}

/// What these files, in their order, lack by what the anchors tell: the first one that they do not tell of with its sum, else
/// later ones of which they tell.
///
/// # Errors
///
/// The first file that cannot be read.
pub(crate) fn lack_by<O: Opens>(
    files: &O,
    names: &[String],
    anchors: &[Anchor<'_>],
) -> Result<Option<Lack>, Unread>
    ensures { IfOk result (λ found. LackFrom (O.holds files.now) (map told_of anchors.now) 0 None
        (map string_bytes names.now) found) }
{
    let mut last: Option<Summed<'_>> = None;
    for at in 0..names.len() {
        let path = names[at].as_str();
        let Some(sum) = sum_behind(files, last, path) else {
            return Err(Unread { at });
        };
        let file = Summed { path, sum };
        if !is_told(anchors, file) {
            return Ok(Some(Lack::Anchor(at)));
        }
        last = Some(file);
    }
    Ok(rest_of(anchors, last))
}
