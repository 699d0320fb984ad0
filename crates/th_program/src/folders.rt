//! The histories of the topics whose parts stand in a folder.
ghost use Rattle.std.specs.Prelude.{◌≡◌, ◌≢◌, ◌⊎◌, ◌≤◌, ◌<◌, IfOk, map, string_bytes, length};
ghost use Rattle.th_program.specs.Files.{EndsFolder, EndsUnread, wanted_of};

use crate::end::End;
use crate::files::{Opens, check_joined, worse};
use crate::modes::Wanted;
use crate::part_names::topic_of;
use crate::program::{explain, run_short, say};
use crate::shown::say_shown;
use std::alloc::{AllocError, Global};
use std::io::Write;
use th_lines::Counted;

// The files that are named as parts of topics' histories, in the order of their names.
fn parts_in(alloc: Global, found: Vec<String>) -> Result<Vec<String>, AllocError> {
    let mut parts = Vec::with_capacity(alloc, found.len())?;
    for name in found {
        if topic_of(name.as_bytes()).is_some() {
            parts.push(name)?;
        }
    }
    parts.sort()?;
    Ok(parts)
}

// Where the files end that are parts of the same topic's history as this one.
fn topic_end(parts: &[String], from: usize) -> usize
    requires within { from < length parts.now }
    ensures bounds { (from < result) × (result ≤ length parts.now) }
{
    let topic = topic_of(parts[from].as_bytes());
    let mut at = from + 1;
    while at < parts.len() && topic_of(parts[at].as_bytes()) == topic {
        at += 1;
    }
    at
}

/// Checks the files of each topic as one history, of which this is wanted, of those that stand in a folder of this name and are named
/// as parts of topics' histories, in the order of their names: a line for each topic. It is a fault of the words where there are none.
pub(crate) fn check_folder<O: Opens, W: Write, E: Write>(
    alloc: Global,
    files: &O,
    name: &str,
    found: Vec<String>,
    wanted: Wanted<'_>,
    output: &mut Counted<W>,
    errors: &mut Counted<E>,
    people: bool,
) -> End
    ensures { result ≢ End.Write →
        EndsFolder (O.holds files.now) (wanted_of wanted.entry)
        (W.contents output.old.device) (W.contents output.new.device) result
        ⊎ EndsUnread result
        (W.contents output.old.device) (W.contents output.new.device) }
{
    let Ok(parts) = parts_in(alloc, found) else {
        return run_short(errors);
    };
    let parts = parts.as_slice();
    if parts.is_empty() {
        say(errors, b"topichub: ");
        say_shown(errors, name.as_bytes());
        say(errors, b": it has no part of a history\n");
        return End::Usage;
    }
    let mut end = End::Done;
    let mut at = 0;
    while at < parts.len() {
        let to = topic_end(parts, at);
        let one = check_joined(alloc, files, &parts[at..to], wanted, output, errors, people);
        if one == End::Write {
            return End::Write;
        }
        end = worse(end, one);
        at = to;
    }
    end
}
