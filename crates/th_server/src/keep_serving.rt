//! Serves any number of connections, so many at a time.
ghost use Rattle.std.specs.Prelude.{◌≡◌, ◌≢◌, ◌≤◌, ◌+◌, true, false, IfErr, IsSome, IsTrue, vec_capacity, vec_len};
ghost use Rattle.th_program.specs.declared.end.End.TheVariants.{Done};

use crate::busy::refuse;
use crate::bytes::{Division, divide};
use crate::client::Client;
use crate::connections::Connections;
use crate::elapsed::has_passed;
use crate::folders::{Folder, fault_of, make_folder};
use crate::limits::tell_if_few;
use crate::parts::{Keeper, Store};
use crate::socket;
use crate::socket::{Socket, SocketFault};
use crate::unfinished::tell_of_others;
use std::alloc::Global;
use std::fs::File;
use std::io::{Eprint, ErrorKind, Input, Print, Read};
use std::net::{Net, Shutdown};
use std::os::unix::net::{UnixListener, UnixStream};
use std::random::RandomSource;
use std::rt::Files;
use std::sync::{Arc, Wait};
use std::thread;
use std::thread::{JoinHandle, Scope, Threads, sleep};
use std::time::{Clock, Duration, Instant};
use th_lines::Counted;
use th_model::Kind;
use th_program::{End, Standing};
use th_session::{Bounds, Keeping, SessionFault, run_session};
use th_shared::{Histories, SharedDesk};

// How long no connection is waited for after one that could not be accepted, in milliseconds: descriptors may come back.
const PAUSE: u64 = 100;

// How long sessions may take to their end once their input is ended, in milliseconds.
const LAST: u64 = 5000;

// One session, by a worker at this place.
fn attend<R: Wait + Clock + Clone + Eprint>(
    rt: &R,
    alloc: Global,
    shared: &SharedDesk<R>,
    connections: &Connections,
    stream: &UnixStream,
) {
    let number = connections.begin();
    let faults = &connections.faults;
    let Ok(mut desk) = shared.another() else {
        faults.ended(rt, number, Some(SessionFault::Short));
        return;
    };
    let client = Client {
        connections,
        stream,
    };
    let mut reader = Counted::new(stream);
    let mut writer = Counted::new(stream);
    let (_, fault) = run_session(
        rt,
        alloc,
        &mut reader,
        &mut writer,
        &mut desk,
        &client,
        number,
        Keeping::Nothing,
        Bounds::none(),
    );
    if !connections.is_ending() {
        faults.ended(rt, number, fault);
    }
}

// A connection that was accepted.
#[derive(Drop)]
enum Came {
    // It is to be served.
    Within(Arc<UnixStream>),
    // As many are served already as may be.
    Beyond(Arc<UnixStream>),
}

// The next connection, or why there is none. One for which there is no memory is a session that had none.
fn accept<R: Wait + Clock + Eprint>(
    rt: &R,
    alloc: Global,
    listener: &UnixListener,
    connections: &Connections,
) -> Result<Arc<UnixStream>, ErrorKind> {
    let stream = match listener.accept() {
        Ok((stream, _)) => stream,
        Err(e) => return Err(e.kind()),
    };
    let Ok(kept) = Arc::new(alloc, stream) else {
        let number = connections.begin();
        connections
            .faults
            .ended(rt, number, Some(SessionFault::Short));
        return Err(ErrorKind::OutOfMemory);
    };
    Ok(kept)
}

// The next connection, for one worker after another. `None` where none came to a socket that was handed over, none could be accepted,
// or none is to begin any more.
fn next<R: Wait + Clock + Eprint>(
    rt: &R,
    alloc: Global,
    listener: &UnixListener,
    connections: &Connections,
) -> Option<Came> {
    let _turn = connections.turn.lock(rt);
    if connections.is_ending() {
        return None;
    }
    match accept(rt, alloc, listener, connections) {
        Ok(stream) if connections.enter() => Some(Came::Within(stream)),
        Ok(stream) => Some(Came::Beyond(stream)),
        Err(ErrorKind::WouldBlock) => None,
        Err(_) => {
            sleep(rt, Duration::from_millis(PAUSE));
            None
        }
    }
}

// Serves a connection at this place.
fn attend_at<R: Wait + Clock + Clone + Eprint>(
    rt: &R,
    alloc: Global,
    shared: &SharedDesk<R>,
    connections: &Connections,
    stream: Arc<UnixStream>,
    place: u64,
) {
    if let Ok(theirs) = Arc::try_clone(&stream) {
        connections.put(rt, place, Some(theirs));
        // Whoever ends the server may have been through the places before.
        if !connections.is_ending() {
            attend(rt, alloc, shared, connections, &*stream);
        }
        connections.put(rt, place, None);
    }
    // The connection is closed behind this: a client that sees that may come again at once.
    connections.leave();
}

// Serves one connection after another at this place, until the server ends.
fn work<R: Wait + Clock + Clone + Eprint>(
    rt: &R,
    alloc: Global,
    shared: &SharedDesk<R>,
    listener: &UnixListener,
    connections: &Connections,
    place: u64,
) {
    for _ in rt.forever() {
        if connections.is_ending() {
            return;
        }
        match next(rt, alloc, listener, connections) {
            Some(Came::Within(stream)) => {
                attend_at(rt, alloc, shared, connections, stream, place);
            }
            Some(Came::Beyond(stream)) => refuse(rt, &*stream),
            None => {}
        }
    }
}

// How many workers serve so many sessions at a time: where a client beyond them is to be told so, one more than those, who tells it.
fn workers_for(how: &Standing) -> u64
    ensures busy { how.now.is_busy_told ≡ true → how.now.at_once ≤ 1024
        → result ≡ how.now.at_once + 1 }
    ensures waits { how.now.is_busy_told ≡ false → result ≡ how.now.at_once }
{
    if how.is_busy_told {
        how.at_once.saturating_add(1)
    } else {
        how.at_once
    }
}

// Starts so many workers, for whom there is room, and says whether all of them were started.
fn start_workers<'s, E, R: Threads + Wait + Clock + Clone + Send + Sync + Eprint>(
    scope: &Scope<'s, E>,
    rt: &'s R,
    alloc: Global,
    listener: &'s UnixListener,
    shared: &'s SharedDesk<R>,
    connections: &'s Connections,
    workers: Vec<JoinHandle<()>>,
    places: u64,
) -> (Vec<JoinHandle<()>>, bool)
    requires room { places ≤ vec_capacity workers }
    requires none { vec_len workers ≡ 0 }
    ensures all { IsTrue result.1 → vec_len result.0 ≡ places }
{
    let mut workers = workers;
    for place in 0..places {
        match scope.spawn(move || work(rt, alloc, shared, listener, connections, place)) {
            Ok(worker) => workers.push_reserved(worker),
            Err(_) => return (workers, false),
        }
    }
    (workers, true)
}

// Waits until standard input has ended.
fn read_to_end<R: Input + Wait>(rt: &R) {
    let mut input = rt.reader();
    let mut buffer = [0u8; 4096];
    for _ in rt.forever() {
        match input.read(&mut buffer) {
            Ok(0) => return,
            Ok(_) => {}
            Err(_) => return,
        }
    }
}

// Waits until nobody is served any more, and no longer than `LAST`.
fn wait_for_all<R: Wait + Clock>(rt: &R, connections: &Connections) {
    let begun = Instant::now(rt).ok();
    // A sleep takes longer than it is asked to, and so would all of them together.
    for _ in 0..LAST {
        if !connections.is_any(rt) || has_passed(rt, begun, LAST).unwrap_or(false) {
            return;
        }
        sleep(rt, Duration::from_millis(1));
    }
}

// Ends all sessions: each one's input, and after a while both its sides.
fn end_all<R: Wait + Clock>(rt: &R, made: &Socket, connections: &Connections) {
    connections.end();
    made.close();
    connections.shut(rt, Shutdown::Read);
    wait_for_all(rt, connections);
    connections.shut(rt, Shutdown::Both);
}

// Serves at this socket, and says when clients can connect: by threads of this scope.
fn serve_all<
    's,
    E,
    R: Threads + Wait + Clock + Clone + Send + Sync + Print + Eprint + Store + Input,
>(
    scope: &Scope<'s, E>,
    rt: &'s R,
    alloc: Global,
    made: &'s Socket,
    shared: &'s SharedDesk<R>,
    connections: &'s Connections,
    keeper: &'s Keeper<'s>,
    how: &Standing,
) -> End {
    let listener = &made.listener;
    let places = workers_for(how);
    let Ok(workers) = Vec::with_capacity(alloc, places as usize) else {
        return End::Short;
    };
    let Some(histories) = shared.histories() else {
        return End::Short;
    };
    let one = scope.spawn(move || keeper.keep_all(rt, alloc, shared, histories, Kind::Broadcast));
    let other = scope.spawn(move || keeper.keep_all(rt, alloc, shared, histories, Kind::Watch));
    let are_kept = one.is_ok() && other.is_ok();
    let places = if are_kept { places } else { 0 };
    let (workers, all) = start_workers(
        scope,
        rt,
        alloc,
        listener,
        shared,
        connections,
        workers,
        places,
    );
    let mut end = if are_kept && all {
        End::Done
    } else {
        End::Short
    };
    if end == End::Done && println!(rt; "listening").is_err() {
        end = End::Write;
    }
    if end == End::Done && how.until_eof {
        read_to_end(rt);
    }
    if end != End::Done || how.until_eof {
        end_all(rt, made, connections);
    }
    for worker in workers {
        worker.join(rt);
    }
    histories.end(rt);
    if let Ok(one) = one {
        one.join(rt);
    }
    if let Ok(other) = other {
        other.join(rt);
    }
    end
}

// The same, once all threads have ended.
fn serve_at<R: Threads + Wait + Clock + Clone + Send + Sync + Print + Eprint + Store + Input>(
    rt: &R,
    alloc: Global,
    made: &Socket,
    shared: &SharedDesk<R>,
    connections: &Connections,
    keeper: &Keeper<'_>,
    how: &Standing,
) -> End {
    thread::scope(thread::scope_env(), rt, |scope| {
        serve_all(scope, rt, alloc, made, shared, connections, keeper, how)
    })
}

// Serves at this socket: how many sessions began, once the server was ended; or what else ended it.
fn serve_on<
    R: Threads + Wait + Clock + RandomSource + Clone + Send + Sync + Print + Eprint + Store + Input,
>(
    rt: &R,
    alloc: Global,
    made: &Socket,
    folder: Option<Folder<'_>>,
    how: &Standing,
    division: Division,
) -> Result<u64, End>
    ensures { IfErr result (λ end. end ≢ Done) }
{
    let Ok(own) = rt.clone() else {
        return Err(End::Short);
    };
    let Division {
        history,
        memory,
        room,
    } = division;
    let Ok(histories) = Histories::new(alloc, history, memory) else {
        return Err(End::Short);
    };
    let Ok(desk) = SharedDesk::rolling(own, alloc, histories, room) else {
        return Err(End::Short);
    };
    let Ok(connections) = Connections::new(alloc, workers_for(how), how.at_once) else {
        return Err(End::Short);
    };
    let Ok(keeper) = Keeper::new(alloc, folder, how.anchors) else {
        return Err(End::Short);
    };
    let end = serve_at(rt, alloc, made, &desk, &connections, &keeper, how);
    connections.faults.end(rt);
    keeper.keep_last(rt, alloc, desk);
    match end {
        End::Done => Ok(connections.begun()),
        end => Err(end),
    }
}

/// Makes a socket at the path, or takes one that is bound there already, serves any number of connections, so many at a time, and
/// removes the socket that it made once it ends. Where it could not begin, why.
pub(crate) fn keep_serving<
    R: Threads
        + Wait
        + Clock
        + RandomSource
        + Clone
        + Send
        + Sync
        + Print
        + Eprint
        + Files<File = File>
        + Store
        + Net
        + Input,
>(rt: &R, alloc: Global, path: &str, how: &Standing) -> (End, Option<SocketFault>)
    ensures fault { IsSome result.1 → result.0 ≢ Done }
{
    let traces = how.traces.as_ref().map(|dir| dir.as_str());
    let division = match divide(how) {
        Ok(division) => division,
        Err(least) => return (End::Short, Some(SocketFault::Bytes(least))),
    };
    if let Some(fault) = fault_of(traces, division.history) {
        return (End::Write, Some(SocketFault::Traces(fault)));
    }
    let made = match socket::find(rt, alloc, path, how) {
        Ok(made) => made,
        Err(fault) => return (End::Socket, Some(fault)),
    };
    tell_if_few(rt, path, how.at_once, workers_for(how));
    let (end, fault) = match make_folder(rt, alloc, traces, how.syncs) {
        Ok(folder) => {
            if let Some(dir) = traces {
                tell_of_others(rt, alloc, dir);
            }
            let folder = folder.as_ref().map(|name| Folder {
                path: name.as_str(),
                syncs: how.syncs,
            });
            (serve_on(rt, alloc, &made, folder, how, division), None)
        }
        Err(fault) => (Err(End::Write), Some(SocketFault::Traces(fault))),
    };
    made.leave(rt, path);
    match end {
        Ok(begun) if println!(rt; "done {begun}").is_err() => (End::Write, None),
        Ok(_) => (End::Done, None),
        Err(end) => (end, fault),
    }
}
