//! What the program can be asked to do.
use crate::anchors::Anchor;

/// What the program is asked to do.
#[derive(Drop)]
pub enum Mode {
    /// Carry out a schedule from standard input, and print its replies.
    Replay,
    /// Check the trace from standard input, and print the verdict.
    Check,
    /// Check the traces in files, and print what is said of each, or of all as one history.
    CheckFiles {
        /// Which files.
        sources: Sources,
        /// As what.
        manner: Manner,
        /// The file with the anchors of which they are to be; without one they may be any. Nobody asks so of files that are no
        /// history.
        anchors: Option<String>,
    },
    /// Serve sessions on a Unix socket.
    Serve {
        /// Where the socket is made.
        path: String,
        /// How many.
        serving: Serving,
    },
}

/// Which files are checked.
#[derive(Drop)]
pub enum Sources {
    /// Those with these names, one at least.
    Words(Vec<String>),
    /// Those whose names are listed in the file of this name; `-` is standard input.
    List(String),
}

/// As what files are checked.
#[derive(Clone, Copy, Debug, Drop, PartialEq, Eq)]
pub enum Manner {
    /// Each by itself.
    Each,
    /// All as one history.
    Joined,
    /// All as one history that is whole: from the opening of its channel to its last handle.
    Whole,
}

/// What is wanted of a history.
#[derive(Clone, Copy, Drop)]
pub struct Wanted<'a> {
    /// Whether it is to be whole: from the opening of its channel to its last handle.
    pub whole: bool,
    /// What its files are to be, if that was told.
    pub anchors: Option<&'a [Anchor<'a>]>,
}

/// How many sessions are served.
#[derive(Debug, Drop, PartialEq, Eq)]
pub enum Serving {
    /// So many, 1 to 64.
    Sessions(u64),
    /// Any number, by a server that stands.
    Standing(Standing),
}

/// How a server runs that stands until it is ended from outside.
#[derive(Debug, Drop, PartialEq, Eq)]
pub struct Standing {
    /// How many sessions at a time, 1 to 1,024.
    pub at_once: u64,
    /// Whether a socket is replaced whose server is gone.
    pub replaces: bool,
    /// Whether the end of standard input ends the server.
    pub until_eof: bool,
    /// Whether a fault is told with what and where, also where nobody sits at a terminal.
    pub is_verbose: bool,
    /// From so many entries on a topic's history is cut, 1 to 1,000,000.
    pub history: u64,
    /// How many entries all topics' histories hold together, 1,024 to 1,000,000,000.
    pub memory: u64,
    /// The folder that the parts are written below which were cut; without one they are let go.
    pub traces: Option<String>,
    /// The descriptor of a socket that is bound already, 3 to 1,023; without one a socket is made.
    pub socket_fd: Option<u64>,
    /// Whether a client beyond those is told so and closed, and does not wait.
    pub is_busy_told: bool,
    /// How many bytes topics, histories and sessions may take together, 67,108,864 to
    /// 1,099,511,627,776; without it as many as the system gives.
    pub memory_bytes: Option<u64>,
    /// Whether a trace's file is on the disk before it gets its name. Nobody asks so without a
    /// folder of traces.
    pub syncs: bool,
    /// Whether a line on standard error tells, at each cut, a sum that binds all files of that topic
    /// so far. Nobody asks so without a folder of traces.
    pub anchors: bool,
}

/// Which mode a command's name is of.
#[derive(Clone, Copy, Debug, PartialEq, Eq)]
pub(crate) enum Asked {
    Replay,
    Check,
    Serve,
}

/// Words that name no mode.
#[derive(Drop)]
pub enum ModeFault {
    /// The words are wrong. The text says how, for standard error.
    Usage(String),
    /// Help was asked for, or the version. This is its text, for standard output.
    Help(String),
    /// There was no memory to read the words or to write the text.
    Short,
}
