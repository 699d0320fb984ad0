//! A thread for each connection.
ghost use Rattle.std.specs.Prelude.{◌≡◌, ◌≤◌, IfOk, IfSome, None, vec_capacity, vec_len};
ghost use Rattle.std.specs.PromisedHandle.{KeepsEach};
ghost use Rattle.th_session.specs.Run.{strictness};
ghost use Rattle.th_sockets.specs.Serve.{EachHasEnded, ended_in};
ghost use Rattle.th_sockets.specs.Terms.{AreOnTerms, HasEndedBy};

use crate::attended::{Attended, attend};
use crate::observer::Observer;
use crate::terms::Terms;
use std::alloc::Global;
use std::os::unix::net::{UnixListener, UnixStream};
use std::random::RandomSource;
use std::sync::Wait;
use std::thread;
use std::thread::{Promise, PromisedHandle, Scope, Threads};
use std::time::Clock;
use th_session::{Bounds, Gate, Keeping};
use th_shared::SharedDesk;

/// What is left once all sessions have ended.
#[derive(Drop)]
pub struct Served<R: Wait + Clone> {
    /// The last owner of the topics.
    pub desk: SharedDesk<R>,
    /// The sessions in the order of their numbers.
    pub sessions: Vec<Attended>,
}

/// Why there were fewer sessions than were asked for. Those that began have all ended.
#[derive(Drop)]
pub enum ServeFault<R: Wait + Clone> {
    /// A connection could not be accepted.
    Accept(Served<R>),
    /// A thread could not be started. Its connection is closed.
    Start(Served<R>),
    /// There was no memory; `None` where there was none for the desk.
    Short(Option<Served<R>>),
}

// Why no further connection is accepted.
#[derive(Clone, Copy, Debug)]
enum Stop {
    Accept,
    Start,
    Short,
}

// A connection that is to be served.
#[derive(Drop)]
struct Connection<'r, 'g, 'o, R, G, O> {
    rt: &'r R,
    alloc: Global,
    stream: UnixStream,
    terms: Terms<'g, G>,
    observer: &'o O,
}

// Its session.
fn serve<R: Wait + Clock + Clone, G: Gate, O: Observer>(
    connection: Connection<'_, '_, '_, R, G, O>,
    desk: SharedDesk<R>,
) -> Attended
    ensures { HasEndedBy G.holds_back G.lets G.gives_up connection.entry.terms result }
{
    let Connection {
        rt,
        alloc,
        stream,
        terms,
        observer,
    } = connection;
    attend(rt, alloc, &stream, &stream, desk, &terms, observer)
}

// Its session in a thread of this scope, where one can be started.
fn start<'s, E, R: Wait + Clock + Clone + Send + Sync, G: Gate + Sync, O: Observer + Sync>(
    scope: &Scope<'s, E>,
    connection: Connection<'s, 's, 's, R, G, O>,
    desk: SharedDesk<R>,
) -> Option<PromisedHandle<Attended, Terms<'s, G>>>
    ensures terms { IfSome result (λ handle. handle.promise ≡ connection.entry.terms) }
{
    let promise = connection.terms.again();
    match scope.spawn_with(promise, move || serve(connection, desk)) {
        Ok(handle) => Some(handle),
        Err(_) => None,
    }
}

// Accepts so many connections, and starts a session for each; and why there are fewer, where there are.
fn start_all<
    's,
    E,
    R: Threads + Wait + Clock + Clone + Send + Sync,
    G: Gate + Sync,
    O: Observer + Sync,
>(
    scope: &Scope<'s, E>,
    rt: &'s R,
    alloc: Global,
    shared: &SharedDesk<R>,
    listener: &UnixListener,
    sessions: u64,
    gate: &'s G,
    observer: &'s O,
    keeping: Keeping,
    bounds: Bounds,
) -> (Vec<PromisedHandle<Attended, Terms<'s, G>>>, Option<Stop>)
    ensures all { result.1 ≡ None → vec_len result.0 ≡ sessions }
    ensures most { vec_len result.0 ≤ sessions }
    ensures terms { AreOnTerms gate.now keeping bounds result.0.items }
{
    let Ok(mut threads) = Vec::with_capacity(alloc, sessions as usize) else {
        return (Vec::new(alloc), Some(Stop::Short));
    };
    for before in 0..sessions {
        let Ok(theirs) = shared.another() else {
            return (threads, Some(Stop::Short));
        };
        let Ok((stream, _)) = listener.accept() else {
            return (threads, Some(Stop::Accept));
        };
        let connection = Connection {
            rt,
            alloc,
            stream,
            terms: Terms {
                gate,
                number: before + 1,
                keeping,
                bounds,
            },
            observer,
        };
        let Some(handle) = start(scope, connection, theirs) else {
            return (threads, Some(Stop::Start));
        };
        threads.push_reserved(handle);
    }
    (threads, None)
}

// Waits until all of these threads have ended. There is room for what they leave.
fn join_all<R: Threads, T: Drop, P: Promise<T>>(
    rt: &R,
    threads: Vec<PromisedHandle<T, P>>,
    ended: Vec<T>,
) -> Vec<T>
    requires room { vec_len threads ≤ vec_capacity ended }
    requires none { vec_len ended ≡ 0 }
    ensures all { vec_len result ≡ vec_len threads }
    ensures each { KeepsEach P.Promise (vec_len threads) threads.items result.items }
{
    let mut ended = ended;
    for handle in threads {
        ended.push_reserved(handle.join(rt));
    }
    ended
}

// Serves so many connections, and waits until all sessions that began have ended; and why there are fewer, where there are.
fn serve_all<
    's,
    E,
    R: Threads + Wait + Clock + Clone + Send + Sync,
    G: Gate + Sync,
    O: Observer + Sync,
>(
    scope: &Scope<'s, E>,
    rt: &'s R,
    alloc: Global,
    shared: &SharedDesk<R>,
    listener: &UnixListener,
    sessions: u64,
    gate: &'s G,
    observer: &'s O,
    keeping: Keeping,
    bounds: Bounds,
) -> (Vec<Attended>, Option<Stop>)
    ensures all { result.1 ≡ None → vec_len result.0 ≡ sessions }
    ensures most { vec_len result.0 ≤ sessions }
    ensures each { EachHasEnded
        (λ number. strictness G.holds_back G.lets G.gives_up (gate.now, number))
        keeping bounds result.0.items }
{
    let Ok(ended) = Vec::with_capacity(alloc, sessions as usize) else {
        return (Vec::new(alloc), Some(Stop::Short));
    };
    let (threads, stop) = start_all(
        scope, rt, alloc, shared, listener, sessions, gate, observer, keeping, bounds,
    );
    (join_all(rt, threads, ended), stop)
}

/// Accepts so many connections, 1 to 64, one after another, and serves each as a session in a thread of its own: they are
/// numbered from 1, each line waits at the gate, none is longer than these bounds, and the observer hears of each end. It ends when
/// all have ended. Where
/// nothing is kept of what sessions are answered, a session takes no more memory as it goes on, but for its handles, the names of
/// the topics that they are on, and 24 bytes with each handle that it spends.
///
/// # Errors
///
/// A connection could not be accepted, a thread could not be started, there was no memory, or the system gave no random keys. No
/// further connection is accepted then, and those that began are served to their ends.
pub fn serve_on<
    R: Threads + Wait + Clock + RandomSource + Clone + Send + Sync,
    G: Gate + Sync,
    O: Observer + Sync,
>(
    rt: &R,
    alloc: Global,
    listener: &UnixListener,
    sessions: u64,
    gate: &G,
    observer: &O,
    keeping: Keeping,
    bounds: Bounds,
) -> Result<Served<R>, ServeFault<R>>
    requires least { 1 ≤ sessions }
    requires most { sessions ≤ 64 }
    ensures all { IfOk result (λ served. vec_len served.sessions ≡ sessions) }
    ensures each { EachHasEnded
        (λ number. strictness G.holds_back G.lets G.gives_up (gate.now, number))
        keeping bounds (ended_in result) }
{
    let Ok(own) = rt.clone() else {
        return Err(ServeFault::Short(None));
    };
    let Ok(desk) = SharedDesk::new(own, alloc) else {
        return Err(ServeFault::Short(None));
    };
    let shared = &desk;
    let (ended, stop) = thread::scope(thread::scope_env(), rt, |scope| {
        serve_all(
            scope, rt, alloc, shared, listener, sessions, gate, observer, keeping, bounds,
        )
    });
    let served = Served {
        desk,
        sessions: ended,
    };
    match stop {
        None => Ok(served),
        Some(Stop::Accept) => Err(ServeFault::Accept(served)),
        Some(Stop::Start) => Err(ServeFault::Start(served)),
        Some(Stop::Short) => Err(ServeFault::Short(Some(served))),
    }
}
