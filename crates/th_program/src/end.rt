//! How the program ends, and the exit status that says so.
ghost use Rattle.std.specs.Prelude.{◌≡◌, option_map};
ghost use Rattle.th_program.specs.Status.{explanation_of, status_of};

/// How a run of the program ended.
#[derive(Clone, Copy, Debug, PartialEq, Eq)]
pub enum End {
    /// All that was asked for was done.
    Done,
    /// Help was asked for and printed.
    Help,
    /// Standard input could not be read.
    Read,
    /// Standard output could not be written.
    Write,
    /// The input has more lines, or took more reads, than one run may.
    TooLong,
    /// There was no memory.
    Short,
    /// A socket could not be opened or used.
    Socket,
    /// The words were wrong.
    Usage,
    /// A trace that was checked has a reply which the channel would not give.
    Illegal,
    /// A trace that was checked has a line which is none of a trace.
    Bad,
    /// Of traces that were checked as one history, one does not begin where the one before it ends.
    Apart,
    /// Traces that were checked as a whole history are a part of one.
    Partial,
}

/// The exit status: 0 where all went well, 1 where the machine or a limit stopped the run, 2 where
/// the words were wrong, and 3 where the program did its work and found a fault in what it was
/// given.
pub fn status(end: &End) -> u8
    ensures { result ≡ status_of end.now }
{
    match end {
        End::Done | End::Help => 0,
        End::Read | End::Write | End::TooLong | End::Short | End::Socket => 1,
        End::Usage => 2,
        End::Illegal | End::Bad | End::Apart | End::Partial => 3,
    }
}

/// The line for standard error that says what stopped the run: some exactly where the status is 1.
pub fn explanation(end: &End) -> Option<&'static str>
    ensures { option_map (λ text. text.now) result ≡ explanation_of end.now }
{
    match end {
        End::Read => Some("topichub: read fault"),
        End::Write => Some("topichub: write fault"),
        End::TooLong => Some("topichub: too long"),
        End::Short => Some("topichub: no memory"),
        End::Socket => Some("topichub: socket fault"),
        End::Done | End::Help | End::Usage | End::Illegal | End::Bad | End::Apart | End::Partial =>
            None,
    }
}
