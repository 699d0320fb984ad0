//! The folders that traces are written to.
ghost use Rattle.std.specs.Prelude.{◌≡◌, [], IfSome, None, Some};

use crate::cause::Cause;
use crate::limits::{file_bytes, trace_bytes};
use crate::node::is_own;
use std::alloc::Global;
use std::fs;
use std::fs::{DirBuilder, File, OpenFile};
use std::io::ErrorKind;
use std::os::unix::fs::DirBuilderExt;
use std::rt::Files;
use std::time::{Clock, SystemTime, UNIX_EPOCH};
use thiserror::Error;

// How many folders are tried, where the first names are taken.
const TRIES: u64 = 1000;

// Nobody but the user who serves may find a trace.
const MODE: u32 = 0o700;

/// Why there is no folder for traces.
#[derive(Clone, Copy, Debug, Drop, Error, PartialEq, Eq)]
pub(crate) enum FolderFault {
    /// It has no name.
    #[error("the folder for the traces has no name")]
    Unnamed,
    /// A file that grows past the system's limit would end the server.
    #[error("a trace may take {needed} bytes, and files of {allowed} are allowed")]
    Small {
        /// How many bytes a trace takes at most.
        needed: u64,
        /// How many a file may have.
        allowed: u64,
    },
    /// It is not there, or none can be made in it.
    #[error("no folder for the traces can be made{0}")]
    Unmade(Cause),
    /// Who owns it could have traces written elsewhere.
    #[error("the folder for the traces belongs to another user")]
    Foreign,
    /// What is written there could be gone once the machine has lost its power.
    #[error("the folder for the traces cannot be synced")]
    Unsynced,
}

/// A folder that traces are written to.
#[derive(Clone, Copy, Debug, Drop)]
pub struct Folder<'a> {
    /// Its path, of which the last part is the name of a start.
    pub path: &'a str,
    /// Whether a trace counts as written only once it is synced, and so is its name.
    pub syncs: bool,
}

impl<'a> Folder<'a> {
    /// The name of the start.
    pub(crate) fn start(&self) -> &'a str {
        match self.path.rsplit_once('/') {
            Some((_, start)) => start,
            None => self.path,
        }
    }
}

// A folder that nobody but the user who serves may enter. It is made with those that it is below, where they are not there.
fn private_folders() -> DirBuilder {
    let mut how = DirBuilder::new();
    how.recursive(true).mode(MODE);
    how
}

// Whether it belongs to the user who serves: nobody else can put something else in the place of what is in it.
fn is_own_folder<R: Files>(rt: &R, dir: &str) -> Result<(), FolderFault> {
    match fs::metadata(rt, dir) {
        Ok(found) if is_own(&found) => Ok(()),
        Ok(_) => Err(FolderFault::Foreign),
        Err(e) => Err(FolderFault::Unmade(Cause::of(&e))),
    }
}

/// Has the names in a folder outlive a loss of power, and says whether they do.
pub(crate) fn sync<R: Files>(rt: &R, path: &str) -> bool {
    match File::open(rt, path) {
        Ok(folder) => folder.sync_all().is_ok(),
        Err(_) => false,
    }
}

// The time, in seconds since 1970.
fn seconds_of(clock: &impl Clock) -> Option<u64> {
    let since = SystemTime::now(clock)
        .ok()?
        .duration_since(UNIX_EPOCH)
        .ok()?;
    Some(since.as_secs())
}

// A folder of its own for this start, below the one that is named: its name is the time, in seconds since 1970.
fn folder_of_start<R: Files + Clock>(
    rt: &R,
    alloc: Global,
    dir: &str,
) -> Result<String, FolderFault> {
    let Some(seconds) = seconds_of(rt) else {
        return Err(FolderFault::Unmade(Cause::none()));
    };
    let mut how = DirBuilder::new();
    how.mode(MODE);
    for later in 0..TRIES {
        let start = seconds.saturating_add(later);
        let Ok(name) = format!(in alloc; "{dir}/{start}") else {
            return Err(FolderFault::Unmade(Cause::none()));
        };
        match how.create(rt, name.as_str()) {
            Ok(()) => return Ok(name),
            Err(e) if e.kind() == ErrorKind::AlreadyExists => {}
            Err(e) => return Err(FolderFault::Unmade(Cause::of(&e))),
        }
    }
    Err(FolderFault::Unmade(Cause::none()))
}

// The same, where the one that is named may be used, and is synced if it has to be.
fn folder_at<R: Files + Clock>(
    rt: &R,
    alloc: Global,
    dir: &str,
    syncs: bool,
) -> Result<String, FolderFault> {
    if let Err(e) = private_folders().create(rt, dir) {
        return Err(FolderFault::Unmade(Cause::of(&e)));
    }
    is_own_folder(rt, dir)?;
    let name = folder_of_start(rt, alloc, dir)?;
    if syncs && !sync(rt, dir) {
        let _ = fs::remove_dir(rt, name.as_str());
        return Err(FolderFault::Unsynced);
    }
    Ok(name)
}

/// What keeps traces of histories that are cut at so many entries from being written below a folder, as far as that is seen before
/// anything is made.
pub(crate) fn fault_of(dir: Option<&str>, history: u64) -> Option<FolderFault>
    ensures unwanted { dir.entry ≡ None → result ≡ None }
    ensures unnamed { IfSome dir.entry (λ name.
        name.now ≡ [] → result ≡ Some FolderFault.Unnamed) }
{
    if dir?.is_empty() {
        return Some(FolderFault::Unnamed);
    }
    let (needed, allowed) = (trace_bytes(history), file_bytes());
    if allowed < needed {
        Some(FolderFault::Small { needed, allowed })
    } else {
        None
    }
}

/// The folder of this start below the one that is named, if one is; or why it could not be made.
pub(crate) fn make_folder<R: Files + Clock>(
    rt: &R,
    alloc: Global,
    dir: Option<&str>,
    syncs: bool,
) -> Result<Option<String>, FolderFault> {
    match dir {
        None => Ok(None),
        Some(dir) => match folder_at(rt, alloc, dir, syncs) {
            Ok(folder) => Ok(Some(folder)),
            Err(fault) => Err(fault),
        },
    }
}
