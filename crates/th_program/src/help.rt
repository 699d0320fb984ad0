//! The texts of `topichub --help` and of `topichub MODE --help` for each mode.

/// The version of the program.
pub const VERSION: &str = "0.1.0";

/// One line on the program.
pub const ABOUT: &str = "Broadcast and watch channels by name: run commands, print the replies";

/// What stands below the program's commands.
pub const AFTER: &str = "\
A broadcast channel gives every value to every receiver, and keeps only the
newest ones: a receiver that is too slow is told how many it missed. A watch
channel keeps only the newest value, and tells each reader of it once.

A schedule is a text with one command a line, each preceded by the name of the
actor that gives it. `topichub replay` reads it from standard input and prints
the replies, line by line, on standard output.

Example: a topic `news` that keeps 2 values. Bob is slow and misses one. Each
line of the schedule is shown with its reply:

  alice OPEN news B 2      OK 2
  alice BIND news          OK
  bob SUB news             OK
  alice PUB news one       OK 1
  alice PUB news two       OK 1
  alice PUB news three     OK 1
  bob TRY news             LAG 1
  bob TRY news             VAL two

With the left half in a file, `topichub replay < FILE` prints the right half.
`topichub replay --help` lists all commands and replies.

The command TRACE prints what happened on a topic. `topichub check` reads such
traces and says whether they are what a channel would do.

`topichub serve PATH --sessions N` takes the same commands from N clients on a
Unix socket, where NEXT and CHANGED wait; with `--at-once N` it serves any number
of clients, N at a time, until it is stopped.

Exit status:
  0  success; for check, all traces are legal
  1  stopped, with a line on standard error: `topichub: read fault`,
     `topichub: write fault`, `topichub: too long`, `topichub: no memory` or
     `topichub: socket fault`
  2  wrong arguments
  3  a trace is illegal or bad, or the traces are not one history";

/// One line on the mode `replay`.
pub const REPLAY_ABOUT: &str =
    "Read a schedule from standard input, print its replies on standard output";

/// What stands below the text on wrong words where they begin with `replay`.
pub const REPLAY_INPUT: &str =
    "\nThe schedule is read from standard input, as in: topichub replay < FILE\n";

/// What stands below the options of the mode `replay`.
pub const REPLAY_AFTER: &str = "\
Each line is `ACTOR COMMAND`, its fields separated by one space. It ends with LF
or CR LF and has at most 4096 bytes. Names of actors and topics have 1 to 32 of
the bytes a-z, 0-9, _ and -. Numbers are decimal, without leading zeros. A value
is the rest of the line, 1 to 1024 bytes.

Commands on topics of both kinds:
  OPEN t B cap          open the broadcast topic t; cap is 1 to 65536, rounded
                        up to a power of two
  OPEN t B cap AT base  the same; its first value has the position base
  OPEN t W value        open the watch topic t with this value
  BIND t                get a sender of t
  UNBIND t              close it
  SUB t                 get a receiver of t, for what is sent from now on
  UNSUB t               close it
  PUB t value           send
  READERS t             how many receivers t has
  END t                 close the hub's own sender, which t was opened with
  TRACE t               print what happened on t since its last TRACE

On a broadcast topic:
  TRY t                 receive, if there is anything
  NEXT t                the same; BLOCKED if TRY would be EMPTY
  SUB t OLDEST          get a receiver that begins at the oldest value t keeps
  RESUB t               get a new receiver in place of the old one
  LEFT t                how many values the receiver has still to read
  QUEUED t              how many values t keeps for its receivers

On a watch topic:
  GET t                 the newest value
  TAKE t                the same, and mark it as seen
  HAS t                 is the newest value unseen?
  TRYCHANGED t          has it changed? If so, mark it as seen
  CHANGED t             the same; BLOCKED if TRYCHANGED would be NOTYET
  MARK t                make the newest value unseen
  UNMARK t              make it seen
  SWAP t value          publish, and get the old value; needs no receiver
  EDIT t SET value      publish; needs no receiver
  EDIT t DIFFER value   the same, if the value differs from the newest one
  EDIT t QUIET value    replace the newest value, and tell nobody

On no topic:
  LIST                  the topics in order of opening
  QUIT                  close all that the actor holds, and end the actor

Replies, one for each line:
  OK                    done
  OK n                  OPEN: the capacity in force (of a watch topic 1); PUB on
                        a broadcast topic: how many receivers will get the
                        value; LEFT, QUEUED, READERS: how many; LIST: how many
                        topics, and below it a line for each, `t B` or `t W`;
                        TRACE: how many lines, and below it the trace
  VAL value             the next value
  LAG n                 n values were missed; the oldest one left comes next
  EMPTY, NOTYET         there is nothing yet
  BLOCKED               there is nothing yet, and a schedule does not wait
  CLOSED                no sender is left; except for HAS, nothing is left to
                        receive either
  NEW value             GET, TAKE: the newest value, which was unseen
  SAME value            GET, TAKE: the newest value, which was seen already
  WAS value             SWAP: the old value
  YES, NO               HAS: unseen, or seen; EDIT: published, or not
  CHANGED               the newest value was unseen, and is seen now
  BYE                   QUIT: the actor holds nothing any more
  ERR code word         refused, and nothing changed (17 and 20 are logged)

Refusals:
  10 bad-line           the line is not an actor and a command
  11 no-topic           no topic of this name
  12 exists             OPEN of a name that exists
  13 wrong-kind         the command is not for this kind of topic
  14 bad-capacity       0, or above 65536
  15 held               the actor has such a handle already
  16 not-held           the actor has no such handle
  17 no-receivers       PUB, and nobody would get the value
  18 closed             the sender that is needed is closed
  19 too-many           a 1025th topic or actor, or no further handle
  20 exhausted          the last position or version is reached
  21 no-memory          memory was refused
  22 log-full           the topic's log is full; a TRACE makes room
  23 long-line          more than 4096 bytes

If standard error is a terminal, a line there says what to do about a refusal,
the first time that its code occurs.

What may surprise you:
  OPEN t W v answers OK 1: a watch topic keeps one value, and that is its
  capacity in force.
  EDIT t QUIET v answers NO, though the value is the newest one from then on:
  NO says that nobody was told.
  16 not-held: PUB, SWAP, EDIT and UNBIND use the actor's own sender, which
  BIND gets. Commands that receive, look or mark, and LEFT, RESUB and UNSUB,
  use its own receiver, which SUB gets. Opening a topic gives you neither.
  18 closed, though there are receivers: the sender that is needed is closed.
  BIND and END need the hub's own, which END closes; SUB, READERS and QUEUED
  use the actor's own, or otherwise the hub's.
  CLOSED comes once no sender is left, the hub's included.

At most 1000000 lines. Exit status as in `topichub --help`.";

/// One line on the mode `check`.
pub const CHECK_ABOUT: &str = "Read traces, print whether they are legal on standard output";

/// Its words.
pub const CHECK_FILES: &str =
    "Files with a trace each, - for standard input; without any, a trace from standard input";

/// Its option.
pub const CHECK_JOINED: &str = "Check that the files, in this order, are one history";

/// Its option beside that.
pub const CHECK_WHOLE: &str =
    "Check that this history is whole: from the opening of its topic to its last handle";

/// Its option for files that are to be those of a server.
pub const CHECK_ANCHORS: &str =
    "Check that its files are those that serve --anchors told of in ANCHORS";

/// Its word for files that are named elsewhere.
pub const CHECK_LIST: &str =
    "Check the files that LIST names, each ended by NUL or LF; - is standard input";

/// What is wrong where it is given without files.
pub const NO_FILES: &str =
    "error: the argument '--joined' needs files\n\nFor more information, try '--help'.\n";

/// What stands below the text on wrong words where they begin with `check`.
pub const CHECK_INPUT: &str =
    "\nTraces are read from files, or one from standard input, as in: topichub check < FILE\n";

/// What stands there instead where one of them seems to be a name that begins with `-`.
pub const CHECK_DASHED: &str =
    "\nPut a name that begins with - behind --, or write it as ./NAME: topichub check -- NAME\n";

/// What stands below the options of the mode `check`.
pub const CHECK_AFTER: &str = "\
A trace is what the command TRACE prints, without its first line `OK n`: the
picture (state) of a channel, each call with its reply, and how many there were.
The check makes a channel of that picture and runs the calls again. It prints one
line:

  legal n               a trace of n entries, and the channel replies the same
  illegal l             line l is a reply that the channel would not give there
  bad l                 line l may not stand there, or it is missing

With FILEs, it prints one such line per file, prefixed by its name, as in `FILE:
legal n`. Files that cannot be read, or are not regular, are reported on standard
error, and the others are checked. Control characters in names are printed as ?.

With --joined, the files are one history if each is legal and begins with the
picture to which the entries of the one before it lead. Files that are named
TOPIC.NUMBER.trace, as `serve` names them, must also be of one topic, and each
number must be that of the first event plus the entries of all files before it.
It prints one line, and reads no further than the first file that breaks the
history. The line is

  joined n              one history of n entries; if a name says where it stands,
                        followed by the first event, the last one and the topic,
                        as in `joined 84 1-84 news`
  gap f                 file f is legal, and begins elsewhere, by its first
                        picture or by its name

or the line of the first file that is not legal. Given one folder alone, it checks
the files in it that are named so, with a line for each topic. This finds mistakes;
it is no protection against somebody who can write to the files.

With --whole too, nothing may be missing at either end. Instead of the line
`joined n` it prints

  begun f               if the history does not begin with a topic that was just
                        opened, or, by its files' names, with event 1; f is the
                        first file
  open f                otherwise, if a sender or a receiver is live at its end; f
                        is the last file

With --anchors, the files must be those that `serve --anchors` printed lines for,
in the text ANCHORS, such as a journal. Lines count that end in
`anchor START/TOPIC.NUMBER.trace SUM`. Instead of the line `joined n` it prints

  unanchored f          if no line has the name of file f and its sum: it is not as
                        it was written, or a file before it is missing or was
                        changed; f is the first such file
  ended f               otherwise, if a line has a later file of that topic and
                        start: files are missing at the end; f is the last file

Lines are counted from 1. The first line that is bad or illegal is named, and
nothing below it is read. At a terminal, standard error also says what is wrong
there: the line, and the reply that the channel would give. A trace has at most
1000000 entries; a history may have more.

Exit status as in `topichub --help`: for several files 0 if all are legal, 1 if one
could not be read, otherwise 3.";

/// One line on the mode `serve`.
pub const SERVE_ABOUT: &str = "Serve clients on a Unix socket, each in a thread of its own";

/// What stands below the text on wrong words where they begin with `serve`.
pub const SERVE_INPUT: &str = "\nUsage is as in: topichub serve hub.sock --at-once 64\n";

/// The word of the mode `serve`.
pub const SERVE_PATH: &str = "Where to make the socket; nothing may stand there yet";

/// Its word for so many sessions.
pub const SERVE_SESSIONS: &str = "Serve this many connections, 1 to 64, and end";

/// Its word for a server that stands.
pub const SERVE_AT_ONCE: &str = "Serve any number of connections, this many at a time, 1 to 1024";

/// The word by which such a server takes the place of another.
pub const SERVE_REPLACE: &str = "Replace a socket whose server is gone";

/// The word by which it ends with its input.
pub const SERVE_UNTIL_EOF: &str = "End all sessions, and the server, at the end of standard input";

/// The word by which it says more of a fault.
pub const SERVE_VERBOSE: &str =
    "Changes nothing: what stopped the server, and where, is always said";

/// The word for how long a topic's history may be.
pub const SERVE_HISTORY: &str =
    "Cut a topic's history at this many entries, 1 to 1000000; 100000 if left out";

/// The word for how long all of them may be.
pub const SERVE_MEMORY: &str =
    "Entries that all histories hold together, 1024 to 1000000000; 2000000 if left out";

/// The word for where it puts what it has cut.
pub const SERVE_TRACES: &str = "Keep each part that was cut, as a trace in a folder below DIR";

/// The word for a socket that somebody else has bound.
pub const SERVE_SOCKET_FD: &str =
    "Take descriptor FD, 3 to 1023, as the socket; it is bound at PATH already";

/// The word by which a client beyond the number does not wait.
pub const SERVE_BUSY: &str = "Tell clients beyond N that the server is full, and disconnect them";

/// The word for how many bytes it may take.
pub const SERVE_MEMORY_BYTES: &str =
    "Bytes that topics, histories and sessions take together, 67108864 to 1099511627776";

/// The word by which traces outlive a power cut.
pub const SERVE_SYNC: &str = "Sync each trace to disk before its file gets its name";

/// The word by which traces can be held against what was told of them.
pub const SERVE_ANCHORS: &str =
    "Print a checksum of the topic's files so far, on standard error, for each trace";

/// What stands below the options of the mode `serve`.
pub const SERVE_AFTER: &str = "\
The server makes the socket, prints `listening` on standard output, and serves the
first N connections, one session each, numbered from 1 in the order in which they
were accepted. Once all have ended it removes the socket and prints `done N`.

With `--at-once N` it serves any number of connections, N at a time. Others wait
until a session ends; with `--busy` they are told, and disconnected. A session has
no limit on its lines there, and one that waits ends within seconds after its
client has gone. `--replace` removes a socket at PATH whose server is gone, which
it knows by a lock on the file PATH.lock.
With `--until-eof` the server ends at the end of standard input: each session
answers what it has read, one that waits ends unanswered, all handles are closed,
the socket is removed, and `done N` says how many sessions there were.

Such a server trims histories by itself, so nobody has to TRACE: a topic's history
at `--history K` entries, or at `--memory M` divided by the number of topics if that
is less. With `--traces DIR` each part that is cut goes to a file in a folder below
DIR, a trace that `topichub check` reads; otherwise it is dropped. With `--sync` it
is on disk before it gets its name, so that a power cut leaves none that is empty.
With `--anchors` each file that is complete gets a line on standard error: a SHA-256
of this file and those of the topic before it. Keep these lines where nobody can
write who can write to DIR, for `topichub check --anchors`.

With `--memory-bytes B` topics, histories and sessions take at most B bytes. An OPEN
or a TRACE that needs more is answered `ERR 21 no-memory`, and changes nothing.

With `--socket-fd FD` the socket is bound already and is this descriptor, as
systemd's socket activation hands it over. PATH is then where it is bound. Nothing
is made or removed there, so `--replace` is refused.

A session's lines are the commands of `topichub replay --help`, without an actor in
front: each session is an actor. Each line is answered in turn, and lines may be
sent ahead of their replies. NEXT and CHANGED wait here until there is an answer,
and BLOCKED is never the reply. A session ends after QUIT, at the end of its input,
or when its connection fails; then all its handles are closed. A session that was
stopped is reported on standard error, with its number.

Example, with two shells and `socat`:

  topichub serve hub.sock --sessions 2
  socat - UNIX-CONNECT:hub.sock

Only the user who runs the server can connect: the socket has the mode 0600, and its
directory decides who can reach it. Values are bytes. With `--sessions` a session
takes at most 1000000 lines, and a topic's history 1000000 events from one TRACE to
the next. A signal such as Ctrl-C ends the program at once, and leaves the socket.

Exit status as in `topichub --help`; 1 with `topichub: socket fault` if the socket
cannot be made, or a connection cannot be served.";
