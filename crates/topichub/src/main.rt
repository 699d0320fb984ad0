//! The program: does what its words ask for, on the standard streams or on a socket, and ends with a status.
#![tactic(auto)]

use std::process::ExitCode;
use th_program::{given_words, run_on_streams};
use th_server::serve_by_words;

fn main(rt: HostRuntime) -> ExitCode {
    match given_words(&rt) {
        Ok(words) => match serve_by_words(&rt, words.as_slice()) {
            Some(outcome) => outcome.status(),
            None => run_on_streams(&rt, Ok(words.as_slice())),
        },
        Err(why) => run_on_streams(&rt, Err(why)),
    }
}
