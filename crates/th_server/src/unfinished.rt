//! Files of earlier starts that were never whole.
use std::alloc::Global;
use std::fs;
use std::io::Eprint;
use std::rt::Files;

// How a trace's name ends until its file is whole.
const ENDING: &str = ".trace.part";

// How many files of this folder are not whole.
fn count_in<R: Files>(rt: &R, alloc: Global, folder: &str) -> u64 {
    let mut count: u64 = 0;
    let Ok(entries) = fs::read_dir(&(rt, alloc), folder) else {
        return count;
    };
    for entry in entries {
        match entry {
            Ok(entry) if entry.file_name().ends_with(ENDING) => count = count.saturating_add(1),
            _ => {}
        }
    }
    count
}

// Whether a folder's name is that of a start.
fn is_of_start(name: &str) -> bool {
    name.bytes().all(|byte| byte.is_ascii_digit())
}

// How many files of the folders of starts below this one are not whole.
fn count_below<R: Files>(rt: &R, alloc: Global, dir: &str) -> u64 {
    let mut count: u64 = 0;
    let Ok(entries) = fs::read_dir(&(rt, alloc), dir) else {
        return count;
    };
    for entry in entries {
        match entry {
            Ok(entry) if is_of_start(entry.file_name()) => {
                count = count.saturating_add(count_in(rt, alloc, entry.path().as_str()));
            }
            _ => {}
        }
    }
    count
}

/// Tells people of traces below this folder that other starts have not finished. They stay: such a start may be a server that lives.
pub(crate) fn tell_of_others<R: Files + Eprint>(rt: &R, alloc: Global, dir: &str) {
    let count = count_below(rt, alloc, dir);
    if count > 0 {
        let _ = eprintln!(rt;
            "topichub: {dir}: unfinished traces of other starts, which end in .part: {count}"
        );
    }
}
