//! The words that ask to serve.
ghost use Rattle.std.specs.Prelude.{◌≡◌, ℕ, IfOk, IfSome, IsSome, IsTrue, None, Some, map, string_bytes};
ghost use Rattle.th_program.specs.Words.{AreServe, IsWithin};
ghost use Rattle.th_program.specs.declared.end.End.TheVariants.{Done, Short};
ghost use Rattle.th_server.specs.Serving.{Asks, HaveEnded, Serves};
ghost use Rattle.th_server.specs.Words.{asks_to_serve};

use crate::keep_serving::keep_serving;
use crate::outcome::Outcome;
use crate::parts::Store;
use crate::serve::serve;
use crate::socket::SocketFault;
use std::alloc::{AllocError, Global};
use std::fs::File;
use std::io::{Eprint, Input, Print};
use std::net::Net;
use std::random::RandomSource;
use std::rt::Files;
use std::sync::Wait;
use std::thread::Threads;
use std::time::Clock;
use th_program::{End, Mode, ModeFault, Serving, explanation, mode, texts};

// Whether the words ask to serve.
fn asks_to_serve(words: &[String]) -> bool
    ensures { result ≡ asks_to_serve (map string_bytes words.now) }
{
    match words {
        [_, mode, ..] => mode.as_str() == "serve",
        _ => false,
    }
}

// The path, and how many sessions are served there, where the words say it rightly.
fn asked_to_serve(alloc: Global, words: &[String]) -> Result<Option<(String, Serving)>, AllocError>
    ensures asked { IfOk result (λ found.
        IfSome found (Asks (map string_bytes words.now))) }
    ensures within { IfOk result (λ found. IfSome found (λ asked. IsWithin asked.1)) }
    ensures rightly { (n : ℕ) → AreServe (map string_bytes words.now) n →
        IfOk result (λ found. IsSome found) }
{
    let words = texts(alloc, words)?;
    match mode(alloc, words.as_slice()) {
        Ok(Mode::Serve { path, serving }) => Ok(Some((path, serving))),
        Ok(Mode::Replay) => Ok(None),
        Ok(Mode::Check) => Ok(None),
        Ok(Mode::CheckFiles { .. }) => Ok(None),
        Err(ModeFault::Short) => Err(AllocError),
        Err(ModeFault::Usage(_)) => Ok(None),
        Err(ModeFault::Help(_)) => Ok(None),
    }
}

// Says what stopped a server on standard error; and below it what was wrong at the path, or at the folder for the traces.
fn explain<R: Eprint>(rt: &R, path: &str, traces: &str, end: &End, fault: Option<SocketFault>) {
    if let Some(line) = explanation(end) {
        let _ = eprintln!(rt; "{line}");
    }
    if let Some(fault) = fault {
        fault.tell(rt, path, traces);
    }
}

// Where there was no memory to read the words.
fn unread<R: Eprint>(rt: &R, alloc: Global) -> Outcome
    ensures asked { result.asked ≡ None }
    ensures end { result.end ≡ Short }
{
    explain(rt, "", "", &End::Short, None);
    Outcome {
        asked: None,
        sessions: Vec::new(alloc),
        end: End::Short,
    }
}

// Serves what was asked for.
fn serve_asked<
    R: Threads
        + Wait
        + Clock
        + RandomSource
        + Clone
        + Send
        + Sync
        + Print
        + Eprint
        + Input
        + Files<File = File>
        + Store
        + Net
        + AllocGlobal,
>(rt: &R, path: String, serving: Serving) -> Outcome
    requires within { IsWithin serving }
    ensures asked { result.asked ≡ Some (path, serving) }
    ensures done { result.end ≡ Done → HaveEnded result.asked result.sessions.items }
{
    let alloc = rt.alloc();
    let (end, sessions) = match &serving {
        Serving::Sessions(count) => {
            let (served, fault) = serve(rt, alloc, path.as_str(), *count);
            let (end, sessions) = match served {
                Ok(sessions) => (End::Done, sessions),
                Err(end) => (end, Vec::new(alloc)),
            };
            explain(rt, path.as_str(), "", &end, fault);
            (end, sessions)
        }
        Serving::Standing(how) => {
            let (end, fault) = keep_serving(rt, alloc, path.as_str(), how);
            let traces = how.traces.as_ref().map_or("", |dir| dir.as_str());
            explain(rt, path.as_str(), traces, &end, fault);
            (end, Vec::new(alloc))
        }
    };
    Outcome {
        asked: Some((path, serving)),
        sessions,
        end,
    }
}

/// Serves where the words of the command line ask for it, and answers what came of it; `None` where they ask for
/// something else, or are wrong. `listening` and `done` go to standard output, and what stopped it to standard error, with
/// what was wrong at the path.
pub fn serve_by_words<
    R: Threads
        + Wait
        + Clock
        + RandomSource
        + Clone
        + Send
        + Sync
        + Print
        + Eprint
        + Input
        + Files<File = File>
        + Store
        + Net
        + AllocGlobal,
>(rt: &R, words: &[String]) -> Option<Outcome>
    ensures only { IfSome result (λ _. IsTrue (asks_to_serve (map string_bytes words.now))) }
    ensures rightly { IsTrue (asks_to_serve (map string_bytes words.now)) → (n : ℕ)
        → AreServe (map string_bytes words.now) n → IsSome result }
    ensures serves { IfSome result (Serves (map string_bytes words.now)) }
{
    if !asks_to_serve(words) {
        return None;
    }
    match asked_to_serve(rt.alloc(), words) {
        Ok(Some((path, serving))) => Some(serve_asked(rt, path, serving)),
        Ok(None) => None,
        Err(_) => Some(unread(rt, rt.alloc())),
    }
}
