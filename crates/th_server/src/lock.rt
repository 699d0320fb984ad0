//! The lock of a server, on a file beside its socket.
ghost use Rattle.std.specs.Prelude.{◌≡◌, IfOk, None};
ghost use Rattle.std.specs.Fs.{IsFile, file_type};

use crate::cause::Cause;
use crate::node::{Node, is_own};
use crate::socket::SocketFault;
use std::alloc::{AllocError, Global};
use std::fs;
use std::fs::{File, Metadata, OpenOptions, Permissions, TryLockError};
use std::io::ErrorKind;
use std::os::unix::fs::{FileExt, MetadataExt, OpenOptionsExt, PermissionsExt};
use std::rt::Files;
use thiserror::Error;

// How often the file is looked for: it is gone between two looks only where another server ends there, or is refused.
const TRIES: u64 = 100;

// Nobody but the user who serves may open the file: to open it is enough to lock it.
const MODE: u32 = 0o600;

// The bits of a mode by which others may open a file.
const OTHERS: u32 = 0o077;

// What a server writes into the file begins so.
const MARK: &str = "topichub ";

// The mark, two numbers of 20 digits, a space and an LF.
const NOTE: usize = 51;

/// What is wrong with the file of a lock.
#[derive(Clone, Copy, Debug, Drop, Error, PartialEq, Eq)]
pub(crate) enum LockFault {
    /// It would be another file that is opened.
    #[error("it is a symbolic link")]
    Link,
    /// A folder, a FIFO, a device or a socket.
    #[error("it is no regular file")]
    Irregular,
    /// Who owns it could hold its lock for ever.
    #[error("it belongs to another user")]
    Foreign,
    /// It is another file besides.
    #[error("it has another name too")]
    Named,
    /// It is a file of somebody, who has written into it.
    #[error("it has something in it that no server has written")]
    Filled,
    /// It is there, and this user may not read or write it.
    #[error("it cannot be opened")]
    Closed,
    /// The file system has no locks, or none left.
    #[error("it cannot be locked")]
    Unlocked,
    /// Its mode lets others lock it, and somebody does.
    #[error("somebody has locked it, and its mode lets other users do so")]
    Lent,
    /// It is another file whenever it is looked at.
    #[error("it does not stay")]
    Moving,
}

/// The lock of a server, on a file beside its socket. It ends with the process.
#[derive(Drop)]
pub(crate) struct Lock {
    file: File,
    name: String,
    node: Node,
    // This start has made the file.
    is_new: bool,
}

// What keeps a file from being that of a lock.
fn fault_of(found: &Metadata) -> Option<LockFault>
    ensures regular { result ≡ None → IsFile (file_type found.now) }
{
    if found.is_symlink() {
        Some(LockFault::Link)
    } else if !found.is_file() {
        Some(LockFault::Irregular)
    } else if !is_own(found) {
        Some(LockFault::Foreign)
    } else if found.nlink() > 1 {
        Some(LockFault::Named)
    } else {
        None
    }
}

// Opens a file that was there before, and leaves its bytes. It is looked at first, since to open a FIFO may wait, and a link is
// followed. `None` where it has gone meanwhile.
fn open_left<R: Files<File = File>>(rt: &R, name: &str) -> Result<Option<File>, LockFault> {
    let Ok(found) = fs::symlink_metadata(rt, name) else {
        return Ok(None);
    };
    if let Some(fault) = fault_of(&found) {
        return Err(fault);
    }
    match OpenOptions::new().read(true).write(true).open(rt, name) {
        Ok(file) => Ok(Some(file)),
        Err(e) if e.kind() == ErrorKind::NotFound => Ok(None),
        Err(_) => Err(LockFault::Closed),
    }
}

// Makes the file, or opens the one that is there; and whether it was made. `None` where it has gone meanwhile.
fn open<R: Files<File = File>>(rt: &R, name: &str) -> Result<Option<(File, bool)>, SocketFault> {
    let made = OpenOptions::new()
        .read(true)
        .write(true)
        .create_new(true)
        .mode(MODE)
        .open(rt, name);
    match made {
        Ok(file) => Ok(Some((file, true))),
        Err(e) if e.kind() == ErrorKind::AlreadyExists => match open_left(rt, name) {
            Ok(Some(file)) => Ok(Some((file, false))),
            Ok(None) => Ok(None),
            Err(fault) => Err(SocketFault::Lock(fault)),
        },
        Err(e) => Err(SocketFault::Beside(Cause::of(&e))),
    }
}

// Locks the file, of which this was found once it was open.
fn hold(file: &File, found: &Metadata) -> Result<(), SocketFault>
    ensures regular { IfOk result (λ _. IsFile (file_type found.now)) }
{
    if let Some(fault) = fault_of(found) {
        return Err(SocketFault::Lock(fault));
    }
    match file.try_lock() {
        Ok(()) => Ok(()),
        Err(TryLockError::WouldBlock) if found.mode() & OTHERS == 0 => Err(SocketFault::Answers),
        Err(TryLockError::WouldBlock) => Err(SocketFault::Lock(LockFault::Lent)),
        Err(TryLockError::Error(_)) => Err(SocketFault::Lock(LockFault::Unlocked)),
    }
}

// What a server says of its socket in the file of its lock. It is as long each time, so nothing need be cut off.
fn note_of(alloc: Global, socket: Node) -> Result<String, AllocError> {
    let Node { dev, ino } = socket;
    format!(in alloc; "{MARK}{dev:020} {ino:020}\n")
}

// Whether nothing is in the file but what a server may have written.
fn is_written_by_server(file: &File) -> bool {
    let mut buffer = [0u8; NOTE + 1];
    match file.read_at(&mut buffer, 0) {
        Ok(0) => true,
        Ok(NOTE) => buffer.starts_with(MARK.as_bytes()),
        _ => false,
    }
}

// Takes the lock. `None` where the file was removed meanwhile, or another one stands there.
fn try_take<R: Files<File = File>>(
    rt: &R,
    name: &str,
) -> Result<Option<(File, bool, Node)>, SocketFault> {
    let Some((file, is_new)) = open(rt, name)? else {
        return Ok(None);
    };
    let Ok(found) = file.metadata() else {
        return Err(SocketFault::Lock(LockFault::Closed));
    };
    hold(&file, &found)?;
    let node = Node::of(&found);
    if !node.is_at(rt, name) {
        return Ok(None);
    }
    if !is_written_by_server(&file) {
        return Err(SocketFault::Lock(LockFault::Filled));
    }
    // Also where it was left by a server that made it for all to read, or under a mask that takes rights from its owner.
    let _ = file.set_permissions(Permissions::from_mode(MODE));
    Ok(Some((file, is_new, node)))
}

/// Takes the lock on the file `PATH.lock`, which is made where there is none.
pub(crate) fn take<R: Files<File = File>>(
    rt: &R,
    alloc: Global,
    path: &str,
) -> Result<Lock, SocketFault> {
    let Ok(name) = format!(in alloc; "{path}.lock") else {
        return Err(SocketFault::Short);
    };
    for _ in 0..TRIES {
        if let Some((file, is_new, node)) = try_take(rt, name.as_str())? {
            return Ok(Lock {
                file,
                name,
                node,
                is_new,
            });
        }
    }
    Err(SocketFault::Lock(LockFault::Moving))
}

impl Lock {
    /// Notes in the file that it is the lock of the server that made this socket.
    pub(crate) fn note(&self, alloc: Global, socket: Node) {
        if let Ok(text) = note_of(alloc, socket) {
            let _ = self.file.write_all_at(text.as_bytes(), 0);
        }
    }

    /// Whether the file says that it was the lock of the server that made this socket; or says nothing, as one that an older server
    /// has left.
    pub(crate) fn was_of(&self, alloc: Global, socket: Node) -> bool {
        let mut buffer = [0u8; NOTE];
        let Ok(text) = note_of(alloc, socket) else {
            return false;
        };
        match self.file.read_at(&mut buffer, 0) {
            Ok(0) => !self.is_new,
            Ok(read) => &buffer[..read] == text.as_bytes(),
            Err(_) => false,
        }
    }

    /// Lets go of the lock of a server that has removed its socket: nothing is left for which the file would be needed.
    pub(crate) fn end<R: Files>(self, rt: &R) {
        self.node.remove(rt, self.name.as_str());
    }

    /// Lets go of the lock of a server that is refused. One that was there before stays, with what it says.
    pub(crate) fn give_up<R: Files>(self, rt: &R) {
        if self.is_new {
            self.end(rt);
        }
    }
}
