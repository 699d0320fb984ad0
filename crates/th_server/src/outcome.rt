//! What came of words that ask to serve.
ghost use Rattle.std.specs.Prelude.{◌≡◌};
ghost use Rattle.std.specs.Process.{exit_status};
ghost use Rattle.th_program.specs.Status.{status_of};

use std::process::ExitCode;
use th_program::{End, Serving, status};
use th_sockets::Attended;

/// What came of words that ask to serve.
#[derive(Drop)]
pub struct Outcome {
    /// What they ask for: the path, and what is served there. `None` where there was no memory to read them.
    pub asked: Option<(String, Serving)>,
    /// The sessions, where so many were asked for and all of them have ended; else none.
    pub sessions: Vec<Attended>,
    /// How the server ended.
    pub end: End,
}

impl Outcome {
    /// The exit status that says how the server ended.
    pub fn status(&self) -> ExitCode
        ensures { exit_status result ≡ status_of self.now.end }
    {
        ExitCode::from(status(&self.end))
    }
}
