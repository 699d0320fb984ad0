//! The socket of a server.
use crate::cause::Cause;
use crate::folders::FolderFault;
use crate::lock;
use crate::lock::{Lock, LockFault};
use crate::node::Node;
use crate::streams::open_closed;
use os::FromRawFd;
use std::alloc::Global;
use std::fmt::Display;
use std::fs::{File, Permissions};
use std::io::{Eprint, ErrorKind};
use std::net::{Net, Shutdown};
use std::os::fd::{AsFd, AsRawFd, OwnedFd};
use std::os::unix::fs::{FileTypeExt, MetadataExt, PermissionsExt};
use std::os::unix::net::{SocketAddr, UnixListener, UnixStream};
use std::rt::Files;
use std::time::Duration;
use std::{fs, io};
use th_program::Standing;
use thiserror::Error;

// How long a worker waits for a connection at a socket that was handed over before it looks whether the server ends, in seconds. Only a
// connection could wake it sooner, and one that this server made would be left to the next one wherever a client came first.
const TURN: u64 = 1;

// Nobody but the user who serves may connect.
const MODE: u32 = 0o600;

// All the bits of a mode that say what may be done.
const RIGHTS: u32 = 0o7777;

// As many connections may wait to be accepted as the system allows.
const BACKLOG: i32 = -1;

/// Why there is no socket.
#[derive(Clone, Copy, Debug, Drop, Error, PartialEq, Eq)]
pub(crate) enum SocketFault {
    /// A standard stream is closed, and stays so.
    #[error("a standard stream is closed, and there is no null device for it")]
    Streams,
    /// There is no path.
    #[error("the path is empty")]
    Unnamed,
    /// Another server has the lock.
    #[error("a server answers there")]
    Answers,
    /// What stands where the lock should be is none.
    #[error("{0}")]
    Lock(LockFault),
    /// Something stands at the path.
    #[error("something stands there; with --at-once, --replace takes the place of a socket whose server is gone")]
    Stands,
    /// What stands at the path is no socket.
    #[error("it is no socket, so --replace leaves it")]
    NoSocket,
    /// What stands at the path is a socket, and nobody knows whether its server is gone.
    #[error("its server has left no lock, so --replace leaves it")]
    Other,
    /// There is no file of the lock.
    #[error("no file can be made beside it{0}")]
    Beside(Cause),
    /// The path is longer than the address of a socket may be, or has a NUL in it.
    #[error("the path has more than 107 bytes, or a NUL")]
    TooLong,
    /// It could not be bound, or takes no connections.
    #[error("no socket can be made there{0}")]
    Bind(Cause),
    /// What was handed over is not at the path.
    #[error("no socket stands there, so none was handed over")]
    Missing,
    /// What was handed over is no socket.
    #[error("the descriptor that was handed over is no socket")]
    NotHanded,
    /// What was handed over is no socket of this kind.
    #[error("the socket that was handed over is no Unix socket that takes connections")]
    NoListener,
    /// There is a socket, and no folder for traces.
    #[error("{0}")]
    Traces(FolderFault),
    /// The bytes that it may take are too few for its sessions.
    #[error("so many sessions at once need --memory-bytes {0} at least")]
    Bytes(u64),
    /// There was no memory.
    #[error("no memory")]
    Short,
}

// What a server has made, and so removes.
#[derive(Drop)]
struct Made {
    // Who has it is the one server at this path, from before the socket is made until it is removed.
    lock: Lock,
    node: Node,
}

/// A socket at a path.
#[derive(Drop)]
pub(crate) struct Socket {
    pub(crate) listener: UnixListener,
    // The same socket, with the calls that a listener has not. It is made with it, since at the end there may be no descriptor left.
    stream: UnixStream,
    // None where the socket was handed over: then it belongs to whoever made it.
    made: Option<Made>,
}

impl SocketFault {
    /// Tells people what was wrong, and where: at the socket's path, or at the folder that is to have the traces.
    pub(crate) fn tell<R: Eprint>(self, rt: &R, path: &str, traces: &str) {
        let _ = match self {
            SocketFault::Lock(fault) => eprintln!(rt; "topichub: {path}.lock: {fault}"),
            SocketFault::Unnamed => eprintln!(rt; "topichub: {}", SocketFault::Unnamed),
            SocketFault::Traces(FolderFault::Unnamed) => {
                eprintln!(rt; "topichub: {}", FolderFault::Unnamed)
            }
            SocketFault::Traces(fault) => eprintln!(rt; "topichub: {traces}: {fault}"),
            fault => eprintln!(rt; "topichub: {path}: {fault}"),
        };
    }
}

impl Socket {
    /// Nobody gets a connection any more at a socket that was made here: whoever waits for one is woken, and so is whoever waits to be
    /// accepted. One that was handed over goes on without this server: who waits there sees within a `TURN` that the server ends.
    pub(crate) fn close(&self) {
        if self.made.is_some() {
            let _ = self.stream.shutdown(Shutdown::Both);
        }
    }

    /// Removes the socket at the path if it was made here, and leaves whatever else may stand there; one that was handed over is left as
    /// it was.
    pub(crate) fn leave<R: Files>(self, rt: &R, path: &str) {
        // As long as it listens, no other file is the same node.
        let Socket {
            listener: _listener,
            stream,
            made,
        } = self;
        match made {
            Some(Made { lock, node }) => {
                node.remove(rt, path);
                lock.end(rt);
            }
            None => {
                let _ = stream.set_read_timeout(None);
            }
        }
    }
}

// The same socket as a stream.
fn as_stream(listener: &UnixListener) -> io::Result<UnixStream> {
    Ok(UnixStream::from(OwnedFd::from(listener.try_clone()?)))
}

// Has the socket take connections, if it is of a kind that does.
fn listen(listener: &UnixListener) -> bool {
    libc::net::listen(listener.as_raw_fd(), BACKLOG) == 0
}

// Why no socket could be bound at the path, where the system said this.
fn why_unbound<R: Files>(rt: &R, path: &str, error: &io::Error) -> SocketFault {
    match fs::symlink_metadata(rt, path) {
        Ok(_) => SocketFault::Stands,
        Err(_) => SocketFault::Bind(Cause::of(error)),
    }
}

// Removes what stands at the path, where it is the socket of a server that is gone: the one that had this lock before. Nobody is
// asked, since to connect would be a session of a server that lives.
fn remove_stale<R: Files>(
    rt: &R,
    alloc: Global,
    path: &str,
    lock: &Lock,
) -> Result<(), SocketFault> {
    let Ok(found) = fs::symlink_metadata(rt, path) else {
        return Ok(());
    };
    if !found.file_type().is_socket() {
        return Err(SocketFault::NoSocket);
    }
    let node = Node::of(&found);
    if !lock.was_of(alloc, node) {
        return Err(SocketFault::Other);
    }
    node.remove(rt, path);
    Ok(())
}

// A socket at the path that takes no connections yet, so that it has its mode before anybody can connect.
fn bind<R: Files + Net>(rt: &R, path: &str) -> Result<(UnixListener, Node), SocketFault> {
    let Ok(address) = SocketAddr::from_pathname(path) else {
        return Err(SocketFault::TooLong);
    };
    let socket = match rt.unix_socket() {
        Ok(socket) => socket,
        Err(e) => return Err(SocketFault::Bind(Cause::of(&e))),
    };
    // Its file has this mode from the start then, less the process's mask.
    libc::fchmod(socket.as_raw_fd(), MODE);
    if let Err(e) = rt.bind_unix(socket.as_fd(), &address) {
        return Err(why_unbound(rt, path, &e));
    }
    let found = match fs::symlink_metadata(rt, path) {
        Ok(found) => found,
        Err(e) => return Err(SocketFault::Bind(Cause::of(&e))),
    };
    let node = Node::of(&found);
    if found.mode() & RIGHTS == MODE {
        return Ok((UnixListener::from(socket), node));
    }
    if let Err(e) = fs::set_permissions(rt, path, Permissions::from_mode(MODE)) {
        node.remove(rt, path);
        return Err(SocketFault::Bind(Cause::of(&e)));
    }
    Ok((UnixListener::from(socket), node))
}

// A socket at the path that takes connections, by who has the lock.
fn make_with<R: Files + Net>(
    rt: &R,
    alloc: Global,
    path: &str,
    replaces: bool,
    lock: &Lock,
) -> Result<(UnixListener, UnixStream, Node), SocketFault> {
    if replaces {
        remove_stale(rt, alloc, path, lock)?;
    }
    let (listener, node) = bind(rt, path)?;
    lock.note(alloc, node);
    match as_stream(&listener) {
        Ok(stream) if listen(&listener) => Ok((listener, stream, node)),
        _ => {
            node.remove(rt, path);
            Err(SocketFault::Bind(Cause::none()))
        }
    }
}

/// Makes a socket at the path. Where something stands there it stays, but for a socket whose server is gone, where such a one is to be
/// replaced. Whether it is gone is decided by a lock on `PATH.lock`.
pub(crate) fn make<R: Files<File = File> + Net>(
    rt: &R,
    alloc: Global,
    path: &str,
    replaces: bool,
) -> Result<Socket, SocketFault> {
    if !open_closed(rt) {
        return Err(SocketFault::Streams);
    }
    if path.is_empty() {
        return Err(SocketFault::Unnamed);
    }
    let lock = lock::take(rt, alloc, path)?;
    match make_with(rt, alloc, path, replaces, &lock) {
        Ok((listener, stream, node)) => Ok(Socket {
            listener,
            stream,
            made: Some(Made { lock, node }),
        }),
        Err(fault) => {
            lock.give_up(rt);
            Err(fault)
        }
    }
}

// What this descriptor is, where it is a socket that takes connections.
fn as_socket(listener: UnixListener) -> Result<Socket, SocketFault> {
    match listener.local_addr() {
        Ok(_) => {}
        // It is a socket of another family.
        Err(e) if e.kind() == ErrorKind::InvalidInput => return Err(SocketFault::NoListener),
        Err(_) => return Err(SocketFault::NotHanded),
    }
    if !listen(&listener) {
        return Err(SocketFault::NoListener);
    }
    let Ok(stream) = as_stream(&listener) else {
        return Err(SocketFault::NotHanded);
    };
    match stream.set_read_timeout(Some(Duration::from_secs(TURN))) {
        Ok(()) => Ok(Socket {
            listener,
            stream,
            made: None,
        }),
        Err(_) => Err(SocketFault::NotHanded),
    }
}

// The socket that was handed over as this descriptor, and is bound at the path.
fn inherited<R: Files<File = File>>(
    rt: &R,
    path: &str,
    descriptor: u64,
) -> Result<Socket, SocketFault> {
    if !open_closed(rt) {
        return Err(SocketFault::Streams);
    }
    let Ok(found) = fs::symlink_metadata(rt, path) else {
        return Err(SocketFault::Missing);
    };
    if !found.file_type().is_socket() {
        return Err(SocketFault::Missing);
    }
    let Ok(descriptor) = i32::try_from(descriptor) else {
        return Err(SocketFault::Missing);
    };
    // Whoever started the server says that this is a socket that listens, and gives it up to the server.
    as_socket(unsafe { UnixListener::from_raw_fd(descriptor) })
}

/// The socket of a server that is to run so: the one that was handed over, or one that is made at the path.
pub(crate) fn find<R: Files<File = File> + Net>(
    rt: &R,
    alloc: Global,
    path: &str,
    how: &Standing,
) -> Result<Socket, SocketFault> {
    match how.socket_fd {
        Some(descriptor) => inherited(rt, path, descriptor),
        None => make(rt, alloc, path, how.replaces),
    }
}
