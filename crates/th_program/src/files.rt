//! Traces in files, checked.
ghost use Rattle.std.specs.Prelude.{◌≡◌, ◌≢◌, ◌+◌, ◌≤◌, ◌^◌, Option, None, List, ℕ, IfOk, IfSome, IsSome, OnErr, Ok, Err, map, string_bytes, true};
ghost use Rattle.std.specs.Io.KnownBytes.{Appends};
ghost use Rattle.th_program.specs.Anchors.{told_if};
ghost use Rattle.th_program.specs.Files.{AreFiles, EachIsTold, EndsAnchored, EndsFiles, EndsHistories, EndsJoined, EndsListed, EndsNamed, EndsSources, EndsUnlisted, IsNext, IsOutcome, TellsBroken, TellsHistory, broken_line, end_of, entries_of, fault_line, fault_word, file_line, joined_line, place_of, place_told, wanted_of, worse};
ghost use Rattle.th_program.specs.Listed.{held_by};
ghost use Rattle.th_program.specs.Run.{IsSaid, errors_of};

use crate::anchors::{Anchor, anchors_in};
use crate::end::{End, status};
use crate::folders::check_folder;
use crate::listed::{ListFault, listed, text_in};
use crate::modes::{Manner, Mode, ModeFault, Sources, Wanted};
use crate::part_names::{Place, placed};
use crate::program::{explain, run_short, say, write_number, write_text, write_verdict};
use crate::shown::{say_shown, write_shown};
use crate::whole::{Lack, lack_in, name_at, write_lack};
use crate::words::mode;
use std::alloc::Global;
use std::fs::File;
use std::io::{ErrorKind, Read, Write};
use std::{fs, io};
use th_check::{CheckFault, Joined, Joining, Verdict, check_explained};
use th_lines::Counted;

/// Where files are opened by their names.
pub trait Opens {
    /// A file that was opened.
    type File: Read + Drop;

    /// The bytes of the file with a name, where they are known.
    ghost holds: { Self → List ℕ → Option (List ℕ) } = { λ _ _. None };

    /// Opens the file with this name, to be read from its beginning.
    ///
    /// # Errors
    ///
    /// Where the file cannot be opened.
    fn open(&self, name: &str) -> io::Result<Self::File>
        ensures { IfOk result (λ file. Self.File.remaining file ≡ holds self.now name.now) };

    /// The paths of what stands in the folder with this name; `None` where it is no folder.
    ///
    /// # Errors
    ///
    /// Where the folder cannot be read, or for want of memory.
    fn list(&self, _alloc: Global, _name: &str) -> io::Result<Option<Vec<String>>>
        ensures { IsSome (holds self.now _name.now) → IfOk result (λ found. found ≡ None) }
    {
        Ok(None)
    }
}

impl Opens for HostRuntime {
    type File = File;

    fn open(&self, name: &str) -> io::Result<File> {
        let name = if name == "-" { "/dev/stdin" } else { name };
        if !is_stream(name) && !fs::metadata(self, name)?.is_file() {
            return Err(ErrorKind::InvalidInput.into());
        }
        fs::open(self, name)
    }

    fn list(&self, alloc: Global, name: &str) -> io::Result<Option<Vec<String>>> {
        if name == "-" || is_stream(name) || !fs::metadata(self, name)?.is_dir() {
            return Ok(None);
        }
        let mut found = Vec::new(alloc);
        for entry in fs::read_dir(self, name)? {
            match entry {
                Ok(entry) => found.push(String::from_str(alloc, entry.path().as_str())?)?,
                // (the names of parts are text)
                Err(e) if e.kind() == ErrorKind::InvalidFilename => {}
                Err(e) => return Err(e),
            }
        }
        Ok(Some(found))
    }
}

// Whether the name is that of an open descriptor. Whatever it is, somebody has opened it to be read.
fn is_stream(name: &str) -> bool {
    name == "/dev/stdin" || name.starts_with("/dev/fd/") || name.starts_with("/proc/self/fd/")
}

// The words that tell a fault.
fn fault_word(fault: CheckFault) -> &'static str
    ensures { result.now ≡ fault_word fault }
{
    match fault {
        CheckFault::Read => "read fault",
        CheckFault::TooLong => "too long",
        CheckFault::Short => "no memory",
    }
}

// How a run ends that has such an outcome alone.
fn end_of(outcome: Result<Verdict, CheckFault>) -> End
    ensures { result ≡ end_of outcome }
{
    match outcome {
        Ok(Verdict::Legal(_)) => End::Done,
        Ok(Verdict::Illegal(_)) => End::Illegal,
        Ok(Verdict::BadTrace(_)) => End::Bad,
        Err(CheckFault::Read) => End::Read,
        Err(CheckFault::TooLong) => End::TooLong,
        Err(CheckFault::Short) => End::Short,
    }
}

// Of two ends the first that says what stopped a check, else the first that finds a fault in a trace.
pub(crate) fn worse(one: End, other: End) -> End
    ensures { result ≡ worse one other }
{
    if status(&one) == 1 {
        one
    } else if status(&other) == 1 {
        other
    } else if status(&one) == 3 {
        one
    } else {
        other
    }
}

// Says why there is no verdict on a file.
fn say_fault<E: Write>(errors: &mut Counted<E>, name: &str, fault: CheckFault)
    ensures said { IsSaid
        (errors_of E.contents errors.old)
        (errors_of E.contents errors.new)
        (fault_line (name.now, Err fault)) }
    ensures still { errors.new.failures ≡ 0 → errors.old.failures ≡ 0 }
{
    say(errors, b"topichub: ");
    say_shown(errors, name.as_bytes());
    say(errors, b": ");
    say(errors, fault_word(fault).as_bytes());
    say(errors, b"\n");
}

// Writes the line of a file with its verdict; `false` where the writer failed.
fn write_file<W: Write>(output: &mut Counted<W>, name: &str, verdict: Verdict) -> bool
    ensures { result ≡ true → Appends
        (W.contents output.old.device) (W.contents output.new.device)
        (file_line (name.now, Ok verdict)) }
{
    if !write_shown(output, name.as_bytes()) {
        return false;
    }
    if !write_text(output, b": ") {
        return false;
    }
    write_verdict(output, verdict)
}

// Tells what came of a file; `false` where the writer failed. What is wrong with it is said to people.
fn tell_file<W: Write, E: Write>(
    output: &mut Counted<W>,
    errors: &mut Counted<E>,
    name: &str,
    outcome: Result<Verdict, CheckFault>,
    wrong: Option<&[u8]>,
) -> bool
    ensures told { result ≡ true → Appends
        (W.contents output.old.device) (W.contents output.new.device)
        (file_line (name.now, outcome)) }
    ensures said { wrong.entry ≡ None → IsSaid
        (errors_of E.contents errors.old)
        (errors_of E.contents errors.new)
        (fault_line (name.now, outcome)) }
    ensures still { errors.new.failures ≡ 0 → errors.old.failures ≡ 0 }
{
    match outcome {
        Ok(verdict) => {
            if !write_file(output, name, verdict) {
                return false;
            }
            if let Some(text) = wrong {
                say(errors, text);
            }
        }
        Err(fault) => say_fault(errors, name, fault),
    }
    true
}

// Checks a file by itself. What is wrong with it is put into the text.
fn check_file<O: Opens>(
    alloc: Global,
    files: &O,
    name: &str,
    text: &mut Vec<u8>,
) -> Result<Verdict, CheckFault>
    ensures { IsOutcome (O.holds files.now name.now) result }
{
    let Ok(file) = files.open(name) else {
        return Err(CheckFault::Read);
    };
    check_explained(alloc, &mut Counted::new(file), text)
}

/// Checks each of these files by itself. What is said of it goes to `output`, a line each; to `errors` go a line for each
/// file that there is no verdict on, and to people at a terminal what is wrong with a trace. All files are checked,
/// unless `output` fails. The end is the first that stopped a check, else the first fault found in a trace.
pub fn check_files<O: Opens, W: Write, E: Write>(
    alloc: Global,
    files: &O,
    names: &[String],
    output: &mut Counted<W>,
    errors: &mut Counted<E>,
    people: bool,
) -> End
    ensures { result ≢ End.Write → EachIsTold (O.holds files.now) (map string_bytes names.now)
        (W.contents output.old.device) (W.contents output.new.device) people
        (errors_of E.contents errors.old) (errors_of E.contents errors.new) result }
{
    let mut end = End::Done;
    for name in names {
        let mut text = Vec::new(alloc);
        let outcome = check_file(alloc, files, name.as_str(), &mut text);
        let wrong = if people { Some(text.as_slice()) } else { None };
        if !tell_file(output, errors, name.as_str(), outcome, wrong) {
            explain(errors, &End::Write);
            return End::Write;
        }
        end = worse(end, end_of(outcome));
    }
    end
}

// Checks a file as the next part of a history. What is wrong with it is put into the text.
fn add_file<O: Opens>(
    alloc: Global,
    files: &O,
    name: &str,
    history: &mut Joining,
    text: &mut Vec<u8>,
) -> Result<Joined, CheckFault>
    ensures joins { IfOk result (λ said. IsNext
        (O.holds files.now name.now) history.old said history.new) }
    ensures same { OnErr result (history.new ≡ history.old) }
{
    let Ok(file) = files.open(name) else {
        return Err(CheckFault::Read);
    };
    history.add(alloc, &mut Counted::new(file), text)
}

// How many entries a file has that goes on with a history.
fn entries_of(said: Result<Joined, CheckFault>) -> Option<u64>
    ensures { result ≡ entries_of said }
{
    match said {
        Ok(Joined::Judged(verdict)) => match verdict {
            Verdict::Legal(count) => Some(count),
            Verdict::Illegal(_) => None,
            Verdict::BadTrace(_) => None,
        },
        Ok(Joined::Apart) => None,
        Err(_) => None,
    }
}

// Writes the line of a file that is legal and begins elsewhere; `false` where the writer failed.
fn write_gap<W: Write>(output: &mut Counted<W>, name: &str) -> bool
    ensures { result ≡ true → Appends
        (W.contents output.old.device) (W.contents output.new.device)
        (broken_line name.now Joined.Apart) }
{
    if !write_text(output, b"gap ") {
        return false;
    }
    if !write_shown(output, name.as_bytes()) {
        return false;
    }
    write_text(output, b"\n")
}

// Tells which file breaks a history: the end of the run.
fn tell_broken<W: Write, E: Write>(
    output: &mut Counted<W>,
    errors: &mut Counted<E>,
    name: &str,
    said: Result<Joined, CheckFault>,
    wrong: Option<&[u8]>,
) -> End
    ensures { TellsBroken name.now said
        (W.contents output.old.device) (W.contents output.new.device) result }
{
    let (told, end) = match said {
        Ok(Joined::Judged(verdict)) => (write_file(output, name, verdict), end_of(Ok(verdict))),
        Ok(Joined::Apart) => (write_gap(output, name), End::Apart),
        Err(fault) => {
            say_fault(errors, name, fault);
            return end_of(Err(fault));
        }
    };
    if !told {
        explain(errors, &End::Write);
        return End::Write;
    }
    if let Some(text) = wrong {
        say(errors, text);
    }
    end
}

// Writes where a history of so many entries stands, if that is known; `false` where the writer failed.
fn write_place<W: Write>(output: &mut Counted<W>, place: Option<Place<'_>>, count: u64) -> bool
    ensures { result ≡ true → IfSome place.entry (λ p. p.first + count ≤ 2 ^ 64) → Appends
        (W.contents output.old.device) (W.contents output.new.device)
        (place_told (place_of place.entry) count) }
{
    let Some(place) = place else {
        return true;
    };
    let Some(more) = count.checked_sub(1) else {
        return true;
    };
    if !write_number(output, b" ", place.first) {
        return false;
    }
    if !write_number(output, b"-", place.first.saturating_add(more)) {
        return false;
    }
    if !write_text(output, b" ") {
        return false;
    }
    write_shown(output, place.topic)
}

// Writes the line that tells of a history; `false` where the writer failed.
fn write_joined<W: Write>(output: &mut Counted<W>, count: u64, place: Option<Place<'_>>) -> bool
    ensures { result ≡ true → IfSome place.entry (λ p. p.first + count ≤ 2 ^ 64) → Appends
        (W.contents output.old.device) (W.contents output.new.device)
        (joined_line count (place_of place.entry)) }
{
    if !write_number(output, b"joined ", count) {
        return false;
    }
    if !write_place(output, place, count) {
        return false;
    }
    write_text(output, b"\n")
}

// Tells of files with these names that are one history, at this place by their names, and which lacks this, if anything:
// the end of the run.
fn tell_history<W: Write, E: Write>(
    output: &mut Counted<W>,
    errors: &mut Counted<E>,
    names: &[String],
    count: u64,
    place: Option<Place<'_>>,
    lack: Option<Lack>,
) -> End
    ensures { IfSome place.entry (λ p. p.first + count ≤ 2 ^ 64)
        → TellsHistory (map string_bytes names.now) count (place_of place.entry) lack
        (W.contents output.old.device) (W.contents output.new.device) result }
{
    let (told, end) = match lack {
        Some(lack) => (write_lack(output, lack, names), End::Partial),
        None => (write_joined(output, count, place), End::Done),
    };
    if told {
        end
    } else {
        explain(errors, &End::Write);
        End::Write
    }
}

/// Checks these files as one history, in their order: each is to be legal, and to begin with the picture to which the
/// entries of the one before it lead. Files with names of parts of a topic's history are also to be parts of one topic, and
/// the number in each name is to be that of the history's first event and the entries before the file. Where it is to be
/// whole, it also begins with the picture of a channel that was just opened, and with event 1 where a name tells it, and
/// ends with no live handle. Where anchors are given, they tell of each file with its sum, and of no later one. `output` gets
/// one line: how many entries they have, and, where a name tells it, from which event to which; or which file is the first
/// that breaks the history, or in which it lacks what is wanted of it. No file behind one that breaks it is read. A file that
/// there is no verdict on is told of in `errors`, and so is, to people at a terminal, what is wrong with a trace. More than
/// 2^64 - 1 entries are too long.
pub fn check_joined<O: Opens, W: Write, E: Write>(
    alloc: Global,
    files: &O,
    names: &[String],
    wanted: Wanted<'_>,
    output: &mut Counted<W>,
    errors: &mut Counted<E>,
    people: bool,
) -> End
    ensures { EndsJoined (O.holds files.now) (wanted_of wanted.entry) (map string_bytes names.now)
        (W.contents output.old.device) (W.contents output.new.device) result }
{
    let mut history = Joining::new();
    let mut count: u64 = 0;
    let mut place: Option<Place<'_>> = None;
    for name in names {
        let mut text = Vec::new(alloc);
        let said = add_file(alloc, files, name.as_str(), &mut history, &mut text);
        let Some(more) = entries_of(said) else {
            let wrong = if people { Some(text.as_slice()) } else { None };
            return tell_broken(output, errors, name.as_str(), said, wrong);
        };
        let Some(sum) = count.checked_add(more) else {
            say_fault(errors, name.as_str(), CheckFault::TooLong);
            return End::TooLong;
        };
        let Ok(next) = placed(place, count, sum, name.as_bytes()) else {
            return tell_broken(output, errors, name.as_str(), Ok(Joined::Apart), None);
        };
        count = sum;
        place = next;
    }
    match lack_in(files, names, wanted, &history, place) {
        Ok(lack) => tell_history(output, errors, names, count, place, lack),
        Err(file) => {
            say_fault(errors, name_at(names, file.at), CheckFault::Read);
            End::Read
        }
    }
}

// Says why a list names no files: the end of the run.
fn refuse_list<E: Write>(errors: &mut Counted<E>, list: &str, why: Option<ListFault>) -> End
    ensures { EndsUnlisted result }
{
    let said: &str = match why {
        Some(ListFault::Unread(fault)) => {
            say_fault(errors, list, fault);
            return end_of(Err(fault));
        }
        Some(ListFault::NotText) => ": a name in it is not UTF-8\n",
        None => ": it names no file\n",
    };
    say(errors, b"topichub: ");
    say_shown(errors, list.as_bytes());
    say(errors, said.as_bytes());
    End::Usage
}

// Checks the files of these names as one history, of which this is wanted, or, of a folder that stands alone, those of each
// topic.
fn check_histories<O: Opens, W: Write, E: Write>(
    alloc: Global,
    files: &O,
    names: &[String],
    wanted: Wanted<'_>,
    output: &mut Counted<W>,
    errors: &mut Counted<E>,
    people: bool,
) -> End
    ensures { EndsHistories (O.holds files.now) (wanted_of wanted.entry) (map string_bytes names.now)
        (W.contents output.old.device) (W.contents output.new.device) result }
{
    let [name] = names else {
        return check_joined(alloc, files, names, wanted, output, errors, people);
    };
    match files.list(alloc, name.as_str()) {
        Ok(None) => check_joined(alloc, files, names, wanted, output, errors, people),
        Ok(Some(found)) => {
            check_folder(
                alloc,
                files,
                name.as_str(),
                found,
                wanted,
                output,
                errors,
                people,
            )
        }
        Err(_) => {
            say_fault(errors, name.as_str(), CheckFault::Read);
            End::Read
        }
    }
}

// Checks the files of these names, each by itself or as one history, whole or not, which are to be those of these anchors.
fn check_named<O: Opens, W: Write, E: Write>(
    alloc: Global,
    files: &O,
    names: &[String],
    manner: Manner,
    anchors: Option<&[Anchor<'_>]>,
    output: &mut Counted<W>,
    errors: &mut Counted<E>,
    people: bool,
) -> End
    ensures { EndsNamed (O.holds files.now) manner (told_if anchors.entry)
        (map string_bytes names.now)
        (W.contents output.old.device) (W.contents output.new.device) people
        (errors_of E.contents errors.old) (errors_of E.contents errors.new) result }
{
    match manner {
        Manner::Each => check_files(alloc, files, names, output, errors, people),
        Manner::Joined => {
            let wanted = Wanted {
                whole: false,
                anchors,
            };
            check_histories(alloc, files, names, wanted, output, errors, people)
        }
        Manner::Whole => {
            let wanted = Wanted {
                whole: true,
                anchors,
            };
            check_histories(alloc, files, names, wanted, output, errors, people)
        }
    }
}

// Checks the files that a list names.
fn check_list<O: Opens, R: Read, W: Write, E: Write>(
    alloc: Global,
    files: &O,
    list: &str,
    manner: Manner,
    anchors: Option<&[Anchor<'_>]>,
    input: &mut R,
    output: &mut Counted<W>,
    errors: &mut Counted<E>,
    people: bool,
) -> End
    ensures { EndsListed (O.holds files.now) manner (told_if anchors.entry)
        (held_by (O.holds files.now) (R.remaining input.old) list.now)
        (W.contents output.old.device) (W.contents output.new.device) people
        (errors_of E.contents errors.old) (errors_of E.contents errors.new) result }
{
    let names = match listed(alloc, files, list, input) {
        Ok(names) => names,
        Err(fault) => return refuse_list(errors, list, Some(fault)),
    };
    let names = names.as_slice();
    if names.is_empty() {
        return refuse_list(errors, list, None);
    }
    check_named(alloc, files, names, manner, anchors, output, errors, people)
}

// Checks the files of these sources, which are to be those of these anchors.
fn check_sources<O: Opens, R: Read, W: Write, E: Write>(
    alloc: Global,
    files: &O,
    sources: Sources,
    manner: Manner,
    anchors: Option<&[Anchor<'_>]>,
    input: &mut R,
    output: &mut Counted<W>,
    errors: &mut Counted<E>,
    people: bool,
) -> End
    ensures { EndsSources (O.holds files.now) (R.remaining input.old) manner
        (told_if anchors.entry) sources
        (W.contents output.old.device) (W.contents output.new.device) people
        (errors_of E.contents errors.old) (errors_of E.contents errors.new) result }
{
    match sources {
        Sources::Words(names) => {
            let names = names.as_slice();
            check_named(alloc, files, names, manner, anchors, output, errors, people)
        }
        Sources::List(list) => {
            let list = list.as_str();
            check_list(
                alloc, files, list, manner, anchors, input, output, errors, people,
            )
        }
    }
}

// The same of the anchors that the file of this name has.
fn check_anchored<O: Opens, R: Read, W: Write, E: Write>(
    alloc: Global,
    files: &O,
    sources: Sources,
    manner: Manner,
    name: &str,
    input: &mut R,
    output: &mut Counted<W>,
    errors: &mut Counted<E>,
    people: bool,
) -> End
    ensures { EndsAnchored (O.holds files.now) (R.remaining input.old) manner name.now sources
        (W.contents output.old.device) (W.contents output.new.device) people
        (errors_of E.contents errors.old) (errors_of E.contents errors.new) result }
{
    let text = match text_in(alloc, files, name) {
        Ok(text) => text,
        Err(fault) => {
            say_fault(errors, name, fault);
            return end_of(Err(fault));
        }
    };
    let Ok(anchors) = anchors_in(alloc, text.as_slice()) else {
        return run_short(errors);
    };
    let anchors = Some(anchors.as_slice());
    check_sources(
        alloc, files, sources, manner, anchors, input, output, errors, people,
    )
}

/// Checks the files that the words name, the program's name first, each by itself or as one history; `None`, with nothing
/// done, where they name none. A list of files that is `-` is the input.
pub fn check_by_words<O: Opens, R: Read, W: Write, E: Write>(
    alloc: Global,
    files: &O,
    words: &[&str],
    input: &mut R,
    output: &mut Counted<W>,
    errors: &mut Counted<E>,
    people: bool,
) -> Option<End>
    ensures ends { IfSome result (EndsFiles
        (O.holds files.now) (R.remaining input.old) (map (λ w. w.now) words.now)
        (W.contents output.old.device) (W.contents output.new.device) people
        (errors_of E.contents errors.old) (errors_of E.contents errors.new)) }
    ensures asked { AreFiles (map (λ w. w.now) words.now) → IsSome result }
    ensures none { result ≡ None
        → (input.new ≡ input.old) × (output.new ≡ output.old) × (errors.new ≡ errors.old) }
{
    match mode(alloc, words) {
        Ok(
            Mode::CheckFiles {
                sources,
                manner,
                anchors,
            },
        ) => match anchors {
            Some(name) => {
                let name = name.as_str();
                Some(check_anchored(
                    alloc, files, sources, manner, name, input, output, errors, people,
                ))
            }
            None => Some(check_sources(
                alloc, files, sources, manner, None, input, output, errors, people,
            )),
        },
        Err(ModeFault::Short) => Some(run_short(errors)),
        _ => None,
    }
}
