//! The lines of a picture, read one by one.
ghost use Rattle.std.specs.Prelude.{◌≡◌, Some};
ghost use Rattle.th_lines.specs.Fields.{by_word};
ghost use Rattle.th_lines.specs.Reads.{rest_of};
ghost use Rattle.th_traces.specs.Drafts.{allowed};
ghost use Rattle.th_traces.specs.Pictures.{ReadsLine, broadcast_start, head_line, is_capacity, kinds, step, versions, watch_start};
ghost use Rattle.th_traces.specs.declared.place.Place.TheVariants.{Nothing};

use crate::broadcast_draft::BroadcastDraft;
use crate::fields::last_number;
use crate::head::{Head, Version};
use crate::picture::Picture;
use crate::place::Place;
use crate::watch_draft::WatchDraft;
use std::alloc::Global;
use std::marker::Model;
use std::mem::replace;
use th_lines::LineFault;
use th_lines::fields::cut;
use th_model::Capacity;

/// What the lines of a picture have told so far. It has room for what was read, and no more.
#[derive(Drop)]
pub struct Draft {
    // How far they were read.
    place: Place,
}

impl Model for Draft {
    ghost use Rattle.th_traces.specs.declared.place.Place.{Place};

    ghost Value = { Place };

    ghost view = { λ d. d.place };
}

impl Draft {
    /// That of no line. It takes no memory.
    pub fn new() -> Draft
        ensures { result ≡ Nothing }
    {
        Draft {
            place: Place::Nothing,
        }
    }
}

/// Reads one more line of a trace's picture, without its line end: the first line, `AT`, those of the
/// values, senders and receivers, `BEGIN`. After `BEGIN` the answer is what they told, and the draft
/// is that of no line again.
///
/// # Errors
///
/// `BadLine` where the line is bad at its place; `Short` where it is not, and memory for what it
/// tells was refused. The draft is as it was.
#[tactic(auto, unfolding(crate::specs::Pictures::step))]
pub fn read_picture(
    alloc: Global,
    draft: &mut Draft,
    line: &[u8],
) -> Result<Option<(Head, Picture)>, LineFault>
    ensures exact { ReadsLine result draft.old draft.new (step draft.old line.now) }
{
    match replace(&mut draft.place, Place::Nothing) {
        Place::Nothing => match read_head(line) {
            Some(place) => {
                draft.place = place;
                Ok(None)
            }
            None => Err(LineFault::BadLine),
        },
        Place::Headed(version, capacity) => match broadcast_start(alloc, version, capacity, line) {
            Some(place) => {
                draft.place = place;
                Ok(None)
            }
            None => {
                draft.place = Place::Headed(version, capacity);
                Err(LineFault::BadLine)
            }
        },
        Place::WatchHeaded => match watch_start(alloc, line) {
            Some(place) => {
                draft.place = place;
                Ok(None)
            }
            None => {
                draft.place = Place::WatchHeaded;
                Err(LineFault::BadLine)
            }
        },
        Place::InBroadcast(version, picture) => in_broadcast(alloc, draft, version, picture, line),
        Place::InWatch(picture) => in_watch(alloc, draft, picture, line),
    }
}

// Reads a line below the start of a broadcast picture, which was taken out of the draft.
#[tactic(auto, unfolding(crate::specs::Pictures::step))]
fn in_broadcast(
    alloc: Global,
    draft: &mut Draft,
    version: Version,
    picture: BroadcastDraft,
    line: &[u8],
) -> Result<Option<(Head, Picture)>, LineFault>
    requires { draft.old ≡ Nothing }
    ensures { let old = Place.InBroadcast version picture in
        ReadsLine result old draft.new (step old line.now) }
{
    let mut picture = picture;
    match picture.take_line(alloc, line) {
        Ok(true) => Ok(Some((
            Head::Broadcast(version),
            Picture::Broadcast(picture.into_parts()),
        ))),
        Ok(false) => {
            draft.place = Place::InBroadcast(version, picture);
            Ok(None)
        }
        Err(fault) => {
            draft.place = Place::InBroadcast(version, picture);
            Err(fault)
        }
    }
}

// The same of a watch picture.
#[tactic(auto, unfolding(crate::specs::Pictures::step))]
fn in_watch(
    alloc: Global,
    draft: &mut Draft,
    picture: WatchDraft,
    line: &[u8],
) -> Result<Option<(Head, Picture)>, LineFault>
    requires { draft.old ≡ Nothing }
    ensures { let old = Place.InWatch picture in
        ReadsLine result old draft.new (step old line.now) }
{
    let mut picture = picture;
    match picture.take_line(alloc, line) {
        Ok(true) => Ok(Some((Head::Watch, Picture::Watch(picture.into_parts())))),
        Ok(false) => {
            draft.place = Place::InWatch(picture);
            Ok(None)
        }
        Err(fault) => {
            draft.place = Place::InWatch(picture);
            Err(fault)
        }
    }
}

// What the line of the start tells in a broadcast trace.
fn broadcast_start(
    alloc: Global,
    version: Version,
    capacity: Capacity,
    line: &[u8],
) -> Option<Place>
    ensures { result ≡ broadcast_start version capacity line.now }
{
    let (word, rest) = cut(line);
    if word != b"AT".as_slice() {
        return None;
    }
    let picture = BroadcastDraft::start(alloc, capacity, rest)?;
    Some(Place::InBroadcast(version, picture))
}

// The same in a watch trace.
fn watch_start(alloc: Global, line: &[u8]) -> Option<Place>
    ensures { result ≡ watch_start line.now }
{
    let (word, rest) = cut(line);
    if word != b"AT".as_slice() {
        return None;
    }
    let picture = WatchDraft::start(alloc, rest)?;
    Some(Place::InWatch(picture))
}

// What the first line tells.
#[tactic(auto, unfolding(crate::specs::Pictures::versions))]
fn read_head(line: &[u8]) -> Option<Place>
    ensures { result ≡ head_line line.now }
{
    let (word, rest) = cut(line);
    if word != b"TRACE".as_slice() {
        return None;
    }
    let (digit, rest) = cut(rest?);
    let (kind, rest) = cut(rest?);
    if digit == b"1".as_slice() {
        return of_kind(Version::One, kind, rest);
    }
    if digit == b"2".as_slice() {
        return of_kind(Version::Two, kind, rest);
    }
    None
}

// The same below the version.
#[tactic(auto, unfolding(crate::specs::Pictures::kinds))]
fn of_kind(version: Version, kind: &[u8], rest: Option<&[u8]>) -> Option<Place>
    ensures { result ≡ by_word (kinds version) kind.now (rest_of rest.entry) }
{
    if kind == b"B".as_slice() {
        let asked = last_number(rest)?;
        let capacity = own_capacity(asked)?;
        return Some(Place::Headed(version, capacity));
    }
    if kind == b"W".as_slice() && version == Version::One && rest.is_none() {
        return Some(Place::WatchHeaded);
    }
    None
}

// The capacity in force that is this number.
fn own_capacity(asked: u64) -> Option<Capacity>
    ensures { result ≡ allowed is_capacity (λ c. c) (Some asked) }
{
    let Ok(capacity) = Capacity::new(asked) else {
        return None;
    };
    if capacity.in_force() != asked {
        return None;
    }
    Some(capacity)
}
