//! What to do about a refusal, for people.
ghost use Rattle.std.specs.Prelude.{◌≡◌, ◌<◌, IfSome, option_map};
ghost use Rattle.th_program.specs.Advice.{advice_on, after, head_after, news, nothing_heard, place_in};

use std::marker::Model;
use th_lines::Code;
use th_lines::fields::number;

/// The refusals in the order of their codes, which begin at 10.
const CODES: [Code; 14] = [
    Code::BadLine,
    Code::NoTopic,
    Code::Exists,
    Code::WrongKind,
    Code::BadCapacity,
    Code::Held,
    Code::NotHeld,
    Code::NoReceivers,
    Code::Closed,
    Code::TooMany,
    Code::Exhausted,
    Code::NoMemory,
    Code::LogFull,
    Code::LongLine,
];

const FIRST_CODE: u64 = 10;

/// How many bytes of a line tell which refusal it is, as `ERR 16` does.
const HEAD: usize = 6;

/// The line that says what to do about this refusal, with its end.
fn advice(code: Code) -> &'static str
    ensures { result.now ≡ advice_on code }
{
    match code {
        Code::BadLine => {
            "ERR 10 bad-line: a line is ACTOR COMMAND, as `bob SUB news`; topichub replay --help lists them all\n"
        }
        Code::NoTopic => {
            "ERR 11 no-topic: OPEN t B cap or OPEN t W value first; LIST tells which topics there are\n"
        }
        Code::Exists => {
            "ERR 12 exists: the topic is open, and stays so: go on with it, or OPEN one of another name\n"
        }
        Code::WrongKind => {
            "ERR 13 wrong-kind: LIST tells the topic's kind, B or W, and topichub replay --help its commands\n"
        }
        Code::BadCapacity => { "ERR 14 bad-capacity: OPEN t B cap takes a cap from 1 to 65536\n" }
        Code::Held => {
            "ERR 15 held: the actor has one already: go on with it, or spend it first by UNSUB t or UNBIND t\n"
        }
        Code::NotHeld => {
            "ERR 16 not-held: the actor needs its own: SUB t first to receive or look, BIND t first to send\n"
        }
        Code::NoReceivers => {
            "ERR 17 no-receivers: let an actor SUB t, then PUB again; on a W topic SWAP needs no receiver\n"
        }
        Code::Closed => {
            "ERR 18 closed: END t has spent the hub's sender: BIND t before END; who did can still SUB t\n"
        }
        Code::TooMany => {
            "ERR 19 too-many: at most 1024 actors at once, QUIT makes room; at most 1024 topics, none is removed\n"
        }
        Code::Exhausted => {
            "ERR 20 exhausted: the topic takes no further value: OPEN another one, with a smaller AT base\n"
        }
        Code::NoMemory => {
            "ERR 21 no-memory: nothing has changed: give the line again once memory is free\n"
        }
        Code::LogFull => {
            "ERR 22 log-full: nothing has changed: TRACE t makes room, then give the line again\n"
        }
        Code::LongLine => {
            "ERR 23 long-line: a line has at most 4096 bytes, and the value in it at most 1024\n"
        }
    }
}

// The place of the code that a line tells of which begins so.
fn place_in(head: &[u8]) -> Option<usize>
    ensures place { result ≡ place_in head.now }
    ensures within { IfSome result (λ place. place < 14) }
{
    let digits = head.strip_prefix(b"ERR ")?;
    let place = number(digits)?.checked_sub(FIRST_CODE)?;
    if place < CODES.len() as u64 {
        Some(place as usize)
    } else {
        None
    }
}

/// What was heard of the replies so far. It takes no memory.
#[derive(Drop)]
pub struct Heard {
    // The first bytes of the line that is under way, and how many they are.
    head: [u8; HEAD],
    length: usize,
    // Which refusals were told of, in the order of their codes.
    told: [bool; CODES.len()],
}

impl Model for Heard {
    ghost use Rattle.std.specs.Prelude.{◌≤◌, take};
    ghost use Rattle.th_program.specs.Advice.{Heard};

    ghost Value = { Heard };

    ghost view = { λ h. record { head = take h.length h.head; told = h.told } };

    ghost invariant = { λ h. h.length ≤ 6 };
}

impl Heard {
    /// Nothing was heard yet.
    pub fn new() -> Heard
        ensures { result ≡ nothing_heard }
    {
        Heard {
            head: [0; HEAD],
            length: 0,
            told: [false; CODES.len()],
        }
    }

    /// Hears one byte more, and answers the line of advice on a refusal that it is the first to tell of.
    pub fn hear(&mut self, byte: u8) -> Option<&'static str>
        ensures heard { self.new ≡ after self.old byte }
        ensures news { option_map (λ text. text.now) result ≡ news self.old byte }
    {
        self.take(byte);
        let place = place_in(&self.head[..self.length])?;
        let is_told = self.told[place];
        self.told[place] = true;
        if is_told {
            None
        } else {
            Some(advice(CODES[place]))
        }
    }

    // Takes one byte more of the line under way, or of the next one.
    fn take(&mut self, byte: u8)
        ensures { self.new ≡ record self.old { head = head_after self.old.head byte } }
    {
        if byte == b'\n' {
            self.length = 0;
        } else if self.length < HEAD {
            self.head[self.length] = byte;
            self.length += 1;
        }
    }
}
