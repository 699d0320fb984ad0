//! The replies of a session that wait to be written, and its gate, which is told of them.
ghost use Rattle.std.specs.Prelude.{◌≡◌, ◌+◌, true, false};
ghost use Rattle.th_lines.specs.Output.{AddsOrFails, Flushes, output};
ghost use Rattle.th_session.specs.Answer.{PutsTold};
ghost use Rattle.th_session.specs.Run.{Awaits, Enters, IsLet, strictness, waits};
ghost use Rattle.th_session.specs.Rows.{told_by};

use crate::fault::Stop;
use crate::gate::Gate;
use crate::owing::{flush, pause, pay_if, put_answer, put_told};
use crate::session::{Answer, Session};
use std::io::Write;
use std::marker::Model;
use std::time::{Clock, Duration};
use th_lines::{Action, Command, Counted, Reply, WriteBuffer, WriteFailed};
use th_model::ReceiverVerb;
use th_registry::channel::TopicReceipt;
use th_registry::{Desk, MOST_IN_ROW};

/// How often a gate is asked for one line.
const MOST_ASKS: u32 = 1000;

/// The most bytes of the reply to a send: a number, or a refusal.
const SENT_ROOM: usize = 32;

/// How long a session sleeps at a gate before it asks again, in milliseconds.
const PAUSE: u64 = 10;

/// How long a session waits for an answer before it asks its gate whether to wait on, in milliseconds.
const LOOK: u64 = 1000;

/// The replies of a session that wait, and its gate.
#[derive(Drop)]
pub(crate) struct Replies<'a, C, G: Gate> {
    clock: &'a C,
    gate: &'a G,
    // The session's number.
    session: u64,
    // The answers' texts that are not written yet.
    waiting: WriteBuffer,
    // For how many lines the gate was told that their replies are written.
    told: u64,
}

impl<'a, C, G: Gate> Model for Replies<'a, C, G> {
    ghost use Rattle.th_session.specs.Run.{Unwritten};

    ghost Value = { Unwritten G };

    ghost view = { λ r. record { text = r.waiting; gate = (r.gate.now, r.session) } };
}

// Tells the gate of each line behind the first ones, up to the one of this number.
fn tell<G: Gate>(gate: &G, session: u64, told: u64, answered: u64) {
    for line in told..answered {
        gate.answered(session, line + 1);
    }
}

// Whether the command is one that waits for its answer, and would wait now.
fn would_wait<D: Desk>(session: &Session<D>, desk: &D, command: &Command<'_>) -> bool
    ensures { result ≡ true → waits command.now ≡ true }
{
    match command {
        Command::On(name, Action::ByReceiver(verb)) => match verb {
            ReceiverVerb::Recv | ReceiverVerb::Changed => session.would_wait(desk, name, *verb),
            _ => false,
        },
        _ => false,
    }
}

// Whether the answer may be longer than a line.
fn has_lines(answer: &Answer) -> bool {
    matches!(answer, Answer::Trace | Answer::Reply(Reply::Topics(_)))
}

// Waits until the command has its answer; or not, where the gate gives it up for the session of this number.
fn wait<G: Gate, D: Desk>(
    gate: &G,
    number: u64,
    session: &mut Session<D>,
    desk: &mut D,
    owed: &D::Owed,
    command: &Command<'_>,
) -> bool
    requires paid { D.owes owed.now ≡ false }
    ensures session { session.new ≡ session.old }
    ensures desk { desk.new ≡ desk.old }
    ensures gate { result ≡ false → G.gives_up gate.now number ≡ true }
{
    for _ in 0..u64::MAX {
        if session.wait(desk, owed, command, Duration::from_millis(LOOK)) {
            return true;
        }
        if !gate.waits_on(number) {
            return false;
        }
    }
    // No wait is as long as that, and only the gate gives a line up.
    true
}

impl<'a, C: Clock, G: Gate> Replies<'a, C, G> {
    /// Nothing waits yet.
    pub(crate) fn new(
        clock: &'a C,
        gate: &'a G,
        session: u64,
        waiting: WriteBuffer,
    ) -> Replies<'a, C, G>
        ensures { result ≡ record { text = waiting; gate = (gate.now, session) } }
    {
        Replies {
            clock,
            gate,
            session,
            waiting,
            told: 0,
        }
    }

    /// Wakes who waits for what was done, writes all that waits, and tells the gate of the lines whose replies are
    /// written by that. So many lines were answered.
    pub(crate) fn settle<D: Desk, W: Write>(
        &mut self,
        desk: &mut D,
        owed: &mut D::Owed,
        writer: &mut Counted<W>,
        answered: u64,
    ) -> Result<(), WriteFailed>
        ensures desk { desk.new ≡ desk.old }
        ensures gate { self.new.gate ≡ self.old.gate }
        ensures wrote { Flushes (output W.contents writer.old self.old.text)
            (output W.contents writer.new self.new.text) result }
        ensures paid { D.owes owed.new ≡ false }
    {
        desk.wake(owed);
        match flush::<D, W>(&mut self.waiting, writer, owed) {
            Ok(()) => {}
            Err(e) => return Err(e),
        }
        tell(self.gate, self.session, self.told, answered);
        self.told = answered;
        Ok(())
    }

    /// Whether the gate lets the line through now that is so many behind the next one. So many lines were answered.
    pub(crate) fn lets(&self, answered: u64, ahead: usize) -> bool
        ensures { result ≡ true →
            IsLet (strictness G.holds_back G.lets G.gives_up self.now.gate) (answered + ahead) }
    {
        let line = answered.saturating_add(1).saturating_add(ahead as u64);
        self.gate.may(self.session, line)
    }

    /// Whether the replies to sends in a row go in without a write. So none of them is left without its reply but where a
    /// write fails.
    pub(crate) fn has_room_for_sends(&self) -> bool {
        self.waiting.has_room_for(MOST_IN_ROW * SENT_ROOM)
    }

    /// Where this command would wait at the desk, it settles, and waits until it has its answer, or the gate gives it up.
    /// So many lines were answered.
    pub(crate) fn settle_before<D: Desk, W: Write>(
        &mut self,
        session: &mut Session<D>,
        desk: &mut D,
        owed: &mut D::Owed,
        writer: &mut Counted<W>,
        answered: u64,
        command: &Command<'_>,
    ) -> Result<(), Stop>
        ensures session { session.new ≡ session.old }
        ensures desk { desk.new ≡ desk.old }
        ensures gate { self.new.gate ≡ self.old.gate }
        ensures wrote { Awaits (strictness G.holds_back G.lets G.gives_up self.old.gate)
            (waits command.now ≡ true) (output W.contents writer.old self.old.text)
            (output W.contents writer.new self.new.text) result }
    {
        if !would_wait(session, desk, command) {
            return Ok(());
        }
        match self.settle(desk, owed, writer, answered) {
            Ok(()) => {}
            Err(_) => return Err(Stop::Write),
        }
        if wait(self.gate, self.session, session, desk, owed, command) {
            Ok(())
        } else {
            Err(Stop::Gone)
        }
    }

    /// Waits until the gate lets the next line through. So many lines were answered. All replies are written before
    /// each sleep.
    pub(crate) fn enter<D: Desk, W: Write>(
        &mut self,
        desk: &mut D,
        owed: &mut D::Owed,
        writer: &mut Counted<W>,
        answered: u64,
    ) -> Result<(), Stop>
        ensures desk { desk.new ≡ desk.old }
        ensures gate { self.new.gate ≡ self.old.gate }
        ensures wrote { Enters (strictness G.holds_back G.lets G.gives_up self.old.gate) answered
            (output W.contents writer.old self.old.text)
            (output W.contents writer.new self.new.text) result }
    {
        let line = answered.saturating_add(1);
        if self.gate.may(self.session, line) {
            return Ok(());
        }
        for _ in 1..MOST_ASKS {
            match self.settle(desk, owed, writer, answered) {
                Ok(()) => {}
                Err(_) => return Err(Stop::Write),
            }
            pause::<C, D>(self.clock, Duration::from_millis(PAUSE), owed);
            if self.gate.may(self.session, line) {
                return Ok(());
            }
        }
        Err(Stop::Gate)
    }

    /// Puts the text of the answer that the session was given last behind what waits. Where that may write, who waits for
    /// what was done is woken before: a peer that does not read may hold the write up.
    #[inline(always)]
    pub(crate) fn put<D: Desk, W: Write>(
        &mut self,
        session: &Session<D>,
        answer: Answer,
        desk: &mut D,
        owed: &mut D::Owed,
        writer: &mut Counted<W>,
    ) -> Result<(), WriteFailed>
        ensures desk { desk.new ≡ desk.old }
        ensures gate { self.new.gate ≡ self.old.gate }
        ensures told { PutsTold answer session.now
            (output W.contents writer.old self.old.text)
            (output W.contents writer.new self.new.text) result }
    {
        let waiting = &mut self.waiting;
        let may_write = !waiting.has_room() || has_lines(&answer);
        pay_if(desk, owed, may_write);
        put_answer(session, answer, waiting, writer, may_write, owed)
    }

    /// Puts the text of what a topic replied behind what waits, by its receipt. Where that may write, who waits for what was
    /// done is woken before.
    #[inline(always)]
    pub(crate) fn put_told<D: Desk, W: Write>(
        &mut self,
        receipt: &TopicReceipt,
        desk: &mut D,
        owed: &mut D::Owed,
        writer: &mut Counted<W>,
    ) -> Result<(), WriteFailed>
        ensures desk { desk.new ≡ desk.old }
        ensures gate { self.new.gate ≡ self.old.gate }
        ensures told { AddsOrFails (told_by receipt.now)
            (output W.contents writer.old self.old.text)
            (output W.contents writer.new self.new.text) result }
    {
        let waiting = &mut self.waiting;
        let may_write = !waiting.has_room();
        pay_if(desk, owed, may_write);
        put_told::<D, W>(receipt, waiting, writer, may_write, owed)
    }
}
