//! Names of files that are parts of a topic's history.
ghost use Rattle.std.specs.Prelude.{◌≡◌, ◌≢◌, ◌↔◌, ◌+◌, ◌<◌, ◌≤◌, ◌^◌, ◌++◌, ℕ, List, IfOk, IfSome, IsTrue, None, Some, length, string_bytes, true};
ghost use Rattle.std.specs.Str.{IsAscii};
ghost use Rattle.std.specs.Str.Parse.{AllDigits, digits_value};
ghost use Rattle.th_model.specs.Names.{is_name};
ghost use Rattle.th_program.specs.PartNames.{Agrees, GoesOn, HasRoom, IsNamed, IsUnnamed, Says, SaysPart, digits_of, file_of, part_name};

use std::alloc::{AllocError, Global};
use std::str;

// The number in 20 digits, which every number has room in.
fn digits_of(number: u64) -> [u8; 20]
    ensures { result ≡ digits_of 20 number }
{
    let mut digits = [b'0'; 20];
    let mut rest = number;
    let mut at: usize = 20;
    while at > 0 {
        at -= 1;
        digits[at] = b'0' + (rest % 10) as u8;
        rest /= 10;
    }
    digits
}

// Puts this text behind a name. What is no text is left out.
fn push_text(name: &mut String, bytes: &[u8]) -> Result<(), AllocError>
    ensures { IsAscii bytes.now →
        IfOk result (λ _. string_bytes name.new ≡ string_bytes name.old ++ bytes.now) }
{
    match str::from_utf8(bytes) {
        Ok(text) => name.push_str(text),
        Err(_) => Ok(()),
    }
}

/// The name of the file of a part of a topic's history, `TOPIC.NUMBER.trace`. The number is that of the part's first event
/// on the topic, counted from 1. It has 20 digits, so that names are in the order of their numbers.
pub fn part_name(alloc: Global, topic: &[u8], number: u64) -> Result<String, AllocError>
    ensures { is_name topic.now ≡ true →
        IfOk result (λ name. string_bytes name ≡ part_name topic.now number) }
{
    let mut name = String::new(alloc);
    push_text(&mut name, topic)?;
    name.push_str(".")?;
    push_text(&mut name, &digits_of(number))?;
    name.push_str(".trace")?;
    Ok(name)
}

// What the name of a file says that is named as a part of a topic's history: the topic, and the number of the part's first
// event. There is no number where it would be above 2^64 - 1.
#[derive(Clone, Copy, Drop)]
struct Part<'a> {
    topic: &'a [u8],
    number: Option<u64>,
}

/// Where a history stands: the topic, and the number of the history's first event there.
#[derive(Clone, Copy, Drop)]
pub(crate) struct Place<'a> {
    pub topic: &'a [u8],
    pub first: u64,
}

/// A file that by its name stands elsewhere.
#[derive(Clone, Copy, Drop)]
pub(crate) struct Misplaced;

/// What stands behind the last slash of a path, or all of it.
pub(crate) fn file_of(path: &[u8]) -> &[u8]
    ensures { result.now ≡ file_of path.now }
{
    match path.iter().rposition(|&b| b == b'/') {
        Some(slash) => &path[slash + 1..],
        None => path,
    }
}

// Whether all are decimal digits.
fn are_digits(bytes: &[u8]) -> bool
    ensures { IsTrue result ↔ AllDigits 10 bytes.now }
{
    for byte in bytes {
        if *byte < b'0' || *byte > b'9' {
            return false;
        }
    }
    true
}

// The number that these digits say, where it is below 2^64.
fn number_of(digits: &[u8]) -> Option<u64>
    ensures { AllDigits 10 digits.now → 0 < length digits.now
        → Says (digits_value 10 digits.now) result }
{
    let Ok(text) = str::from_utf8(digits) else {
        return None;
    };
    match text.parse::<u64>() {
        Ok(number) => Some(number),
        Err(_) => None,
    }
}

// What the name of the file with this path says, if it is named as a part is.
fn part_of(path: &[u8]) -> Option<Part<'_>>
    ensures some { IfSome result (λ p. SaysPart path.now p.topic.now p.number) }
    ensures none { result ≡ None → IsUnnamed path.now }
{
    let Some(front) = file_of(path).strip_suffix(b".trace") else {
        return None;
    };
    if front.len() < 20 {
        return None;
    }
    let (front, digits) = front.split_at(front.len() - 20);
    if !are_digits(digits) {
        return None;
    }
    let Some(topic) = front.strip_suffix(b".") else {
        return None;
    };
    Some(Part {
        topic,
        number: number_of(digits),
    })
}

/// The topic in the name of the file with this path, if it is named as a part is.
pub(crate) fn topic_of(path: &[u8]) -> Option<&[u8]>
    ensures some { IfSome result (λ t. (digits : List ℕ) × IsNamed path.now t.now digits) }
    ensures none { result ≡ None → IsUnnamed path.now }
{
    match part_of(path) {
        Some(part) => Some(part.topic),
        None => None,
    }
}

// Where a history stands that has so many entries before this part, if it stands anywhere.
fn begun<'a>(place: Option<Place<'a>>, before: u64, part: Part<'a>) -> Option<Place<'a>>
    ensures some { IfSome result (λ p. Agrees place.entry p.topic.now p.first
        × (p.topic.now ≡ part.entry.topic.now)
        × (part.entry.number ≡ Some (p.first + before))
        × (p.first + before < 2 ^ 64)
        × (place.entry ≡ None → 1 ≤ p.first)) }
    ensures none { result ≡ None → (first : ℕ) → 1 ≤ first
        → Agrees place.entry part.entry.topic.now first
        → part.entry.number ≢ Some (first + before) }
{
    let Some(number) = part.number else {
        return None;
    };
    match place {
        None if number > before => Some(Place {
            topic: part.topic,
            first: number - before,
        }),
        Some(place)
            if place.topic == part.topic && place.first.checked_add(before) == Some(number) => {
            Some(place)
        }
        _ => None,
    }
}

// A history of so many entries at this place, where none of its events has a number above 2^64 - 1.
fn bounded<'a>(place: Option<Place<'a>>, count: u64) -> Result<Option<Place<'a>>, Misplaced>
    ensures { IfSome place.entry (λ p. 1 ≤ p.first) → HasRoom place.entry count result }
{
    let Some(Place { first, .. }) = place else {
        return Ok(place);
    };
    let Some(before) = first.checked_sub(1) else {
        return Ok(place);
    };
    if before.checked_add(count).is_some() {
        Ok(place)
    } else {
        Err(Misplaced)
    }
}

/// Where a history stands, by what its files' names have said so far and by that of one more file, which has the entries
/// that come behind `before` and up to `count`. It stands nowhere as long as none is named as a part of a topic's history.
///
/// # Errors
///
/// `Misplaced` where the file's name says that it stands elsewhere, or that it has events with numbers above 2^64 - 1.
pub(crate) fn placed<'a>(
    place: Option<Place<'a>>,
    before: u64,
    count: u64,
    path: &'a [u8],
) -> Result<Option<Place<'a>>, Misplaced>
    ensures { IfSome place.entry (λ p. 1 ≤ p.first)
        → GoesOn place.entry before count path.now result }
{
    let Some(part) = part_of(path) else {
        return bounded(place, count);
    };
    match begun(place, before, part) {
        Some(place) => bounded(Some(place), count),
        None => Err(Misplaced),
    }
}
