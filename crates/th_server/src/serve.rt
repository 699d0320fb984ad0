//! What the program serves on a socket.
ghost use Rattle.std.specs.Prelude.{◌≡◌, ◌≢◌, ◌≤◌, IfErr, IfOk, vec_len};
ghost use Rattle.th_program.specs.declared.end.End.TheVariants.{Done};
ghost use Rattle.th_server.specs.Serving.{sessions_of};

use crate::socket;
use crate::socket::SocketFault;
use std::alloc::Global;
use std::fs::File;
use std::io::{Eprint, Print};
use std::net::Net;
use std::os::unix::net::UnixListener;
use std::random::RandomSource;
use std::rt::Files;
use std::sync::Wait;
use std::thread::Threads;
use std::time::Clock;
use th_program::End;
use th_session::{Bounds, Keeping, OpenGate, SessionFault};
use th_sockets::{Attended, Observer, ServeFault, Served, serve_on};

/// Says as an error which session was stopped, and by what.
#[derive(Drop)]
pub(crate) struct Teller<'a, R> {
    pub(crate) rt: &'a R,
}

impl<'a, R: Eprint> Observer for Teller<'a, R> {
    fn ended(&self, session: u64, fault: Option<SessionFault>) {
        if let Some(fault) = fault {
            let _ = eprintln!(self.rt; "topichub: session {session}: {fault}");
        }
    }
}

// The sessions, once all of them have ended; or what ended the server before.
fn sessions_of<R: Wait + Clone>(
    served: Result<Served<R>, ServeFault<R>>,
) -> Result<Vec<Attended>, End>
    ensures { result ≡ sessions_of served }
{
    match served {
        Ok(served) => {
            let Served { sessions, .. } = served;
            Ok(sessions)
        }
        Err(ServeFault::Accept(_)) => Err(End::Socket),
        Err(ServeFault::Start(_)) => Err(End::Socket),
        Err(ServeFault::Short(_)) => Err(End::Short),
    }
}

// Serves so many connections of the listener, and says when clients can connect.
fn attend<R: Threads + Wait + Clock + RandomSource + Clone + Send + Sync + Print + Eprint>(
    rt: &R,
    alloc: Global,
    listener: &UnixListener,
    sessions: u64,
) -> Result<Vec<Attended>, End>
    requires least { 1 ≤ sessions }
    requires most { sessions ≤ 64 }
    ensures all { IfOk result (λ ended. vec_len ended ≡ sessions) }
    ensures fault { IfErr result (λ end. end ≢ Done) }
{
    if println!(rt; "listening").is_err() {
        return Err(End::Write);
    }
    let teller = Teller { rt };
    let served = serve_on(
        rt,
        alloc,
        listener,
        sessions,
        &OpenGate,
        &teller,
        Keeping::Nothing,
        Bounds::usual(),
    );
    sessions_of(served)
}

// Says that so many sessions have ended.
fn say_done<R: Print>(rt: &R, ended: Vec<Attended>) -> Result<Vec<Attended>, End>
    ensures same { IfOk result (λ sessions. sessions ≡ ended) }
    ensures fault { IfErr result (λ end. end ≢ Done) }
{
    let count = ended.len();
    match println!(rt; "done {count}") {
        Ok(()) => Ok(ended),
        Err(_) => Err(End::Write),
    }
}

/// Makes a socket at the path, serves so many connections, and removes the socket. The sessions, once all of them have ended; or what
/// ended the server. Where something stands at the path already it stays, and nobody is served. Where it could not be made, why.
pub fn serve<
    R: Threads
        + Wait
        + Clock
        + RandomSource
        + Clone
        + Send
        + Sync
        + Print
        + Eprint
        + Files<File = File>
        + Net,
>(
    rt: &R,
    alloc: Global,
    path: &str,
    sessions: u64,
) -> (Result<Vec<Attended>, End>, Option<SocketFault>)
    requires least { 1 ≤ sessions }
    requires most { sessions ≤ 64 }
    ensures all { IfOk result.0 (λ ended. vec_len ended ≡ sessions) }
    ensures fault { IfErr result.0 (λ end. end ≢ Done) }
{
    let made = match socket::make(rt, alloc, path, false) {
        Ok(made) => made,
        Err(fault) => return (Err(End::Socket), Some(fault)),
    };
    let served = attend(rt, alloc, &made.listener, sessions);
    made.leave(rt, path);
    match served {
        Ok(ended) => (say_done(rt, ended), None),
        Err(end) => (Err(end), None),
    }
}
