//! What a history lacks that is to be whole, from the opening of its channel to its last handle, or whose files are to be those of
//! which anchors tell.
ghost use Rattle.std.specs.Prelude.{◌≡◌, IfOk, map, string_bytes, true};
ghost use Rattle.std.specs.Io.KnownBytes.{Appends};
ghost use Rattle.th_program.specs.Files.{IsLack, place_of, wanted_of};
ghost use Rattle.th_program.specs.Whole.{is_begun, lack_file, lack_if, lack_line, lack_of, lack_word, name_at};

use crate::anchors::{Unread, lack_by};
use crate::files::Opens;
use crate::modes::Wanted;
use crate::part_names::Place;
use crate::program::write_text;
use crate::shown::write_shown;
use std::io::Write;
use th_check::Joining;
use th_lines::Counted;

/// What a history lacks.
#[derive(Clone, Copy, Debug, Drop, PartialEq, Eq)]
pub(crate) enum Lack {
    /// Its beginning: its channel was not just opened there, or by its files' names it does not begin with event 1.
    Beginning,
    /// Its end: a handle is live there.
    Ending,
    /// An anchor of the file at this place.
    Anchor(usize),
    /// Later files, of which anchors tell.
    Rest,
}

// Whether a history begins where its topic does.
fn is_begun(history: &Joining, place: Option<Place<'_>>) -> bool
    ensures { result ≡ is_begun history.now (place_of place.entry) }
{
    match place {
        Some(place) => history.is_opened() && place.first == 1,
        None => history.is_opened(),
    }
}

// What the history lacks of a whole one, if anything, where it stands at this place by its files' names.
fn lack_of(history: &Joining, place: Option<Place<'_>>) -> Option<Lack>
    ensures { result ≡ lack_of history.now (place_of place.entry) }
{
    if !is_begun(history, place) {
        Some(Lack::Beginning)
    } else if !history.is_over() {
        Some(Lack::Ending)
    } else {
        None
    }
}

// What the history lacks of a whole one, if it is to be whole.
fn lack_if(whole: bool, history: &Joining, place: Option<Place<'_>>) -> Option<Lack>
    ensures { result ≡ lack_if whole history.now (place_of place.entry) }
{
    if whole { lack_of(history, place) } else { None }
}

/// What the history of these files, which stands at this place by their names, lacks of what is wanted of it.
///
/// # Errors
///
/// The first file that cannot be read again for its sum.
pub(crate) fn lack_in<O: Opens>(
    files: &O,
    names: &[String],
    wanted: Wanted<'_>,
    history: &Joining,
    place: Option<Place<'_>>,
) -> Result<Option<Lack>, Unread>
    ensures { IfOk result (IsLack (O.holds files.now) (wanted_of wanted.entry)
        (map string_bytes names.now) history.now (place_of place.entry)) }
{
    if let Some(lack) = lack_if(wanted.whole, history, place) {
        return Ok(Some(lack));
    }
    match wanted.anchors {
        Some(anchors) => lack_by(files, names, anchors),
        None => Ok(None),
    }
}

/// The name at this place, none where there is none.
pub(crate) fn name_at(names: &[String], at: usize) -> &str
    ensures { result.now ≡ name_at (map string_bytes names.now) at }
{
    match names.get(at) {
        Some(name) => name.as_str(),
        None => "",
    }
}

// The name of the file in which a history lacks this.
fn lack_file(lack: Lack, names: &[String]) -> &str
    ensures { result.now ≡ lack_file lack (map string_bytes names.now) }
{
    match lack {
        Lack::Beginning => name_at(names, 0),
        Lack::Ending | Lack::Rest => name_at(names, names.len().saturating_sub(1)),
        Lack::Anchor(at) => name_at(names, at),
    }
}

// The word that tells of it.
fn lack_word(lack: Lack) -> &'static [u8]
    ensures { result.now ≡ lack_word lack }
{
    match lack {
        Lack::Beginning => b"begun ",
        Lack::Ending => b"open ",
        Lack::Anchor(_) => b"unanchored ",
        Lack::Rest => b"ended ",
    }
}

/// Writes the line of a history that lacks this, of files with these names; `false` where the writer failed.
pub(crate) fn write_lack<W: Write>(output: &mut Counted<W>, lack: Lack, names: &[String]) -> bool
    ensures { result ≡ true → Appends
        (W.contents output.old.device) (W.contents output.new.device)
        (lack_line lack (map string_bytes names.now)) }
{
    if !write_text(output, lack_word(lack)) {
        return false;
    }
    if !write_shown(output, lack_file(lack, names).as_bytes()) {
        return false;
    }
    write_text(output, b"\n")
}
