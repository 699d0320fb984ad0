//! The hub of a schedule.
ghost use Rattle.std.specs.Prelude.{◌≡◌, ◌||◌, List, ℕ, None, remove, IfOk};
ghost use Rattle.th_lines.specs.Intake.{line_given};
ghost use Rattle.th_lines.specs.Output.{AddsOrFails, output};
ghost use Rattle.th_lines.specs.declared.command.Command.TheVariants.{On};
ghost use Rattle.th_session.specs.Kept.{told};
ghost use Rattle.th_session.specs.Quiet.{action_of};
ghost use Rattle.th_session.specs.Script as script;
ghost use Rattle.th_session.specs.Script.{Replied, has_quit};
ghost use Rattle.th_replay.specs.Session.{Turns};
ghost use Rattle.th_replay.specs.Schedule.{PutsAnswer, PutsAt, answers, asks_by_place, by_place, is_short, picture_asks, picture_step, place_of, seen_start};

use indexmap::IndexMap;
use std::alloc::{AllocError, Global};
use std::io::Write;
use std::marker::Model;
use th_lines::{
    Action, Code, Command, Counted, LineFault, Reply, WriteBuffer, WriteFailed, name_and_rest,
    read_command,
};
use th_model::{Name, NameRef};
use th_registry::LocalDesk;
use th_session::local::step;
use th_session::quiet::{self, Own};
use th_session::{Answer, Keeping, Session};

/// The most actors at one time.
const MOST_ACTORS: usize = 1024;

/// How many actors there is room for at first. At twice the most, the places of actors that quit are taken back without
/// more memory.
const ACTOR_ROOM: usize = 2 * MOST_ACTORS;

/// The hub of a schedule: the topics, and the actors that have begun and not quit since.
#[derive(Drop)]
pub struct Hub {
    // The topics, at the desk of one thread.
    desk: LocalDesk,
    // The actors in the order in which they began, each with what it holds. One that quits is taken out.
    actors: IndexMap<Name, Session<LocalDesk>>,
}

impl Model for Hub {
    ghost use Rattle.std.specs.Prelude.{◌≡◌};
    ghost use Rattle.th_registry.specs.Pictures.{SeenTopics};
    ghost use Rattle.th_replay.specs.Schedule.{Hub, holdings, most_entries};

    ghost Value = { Hub SeenTopics };

    ghost view = { λ h. record {
      topics = h.desk.topics;
      actors = holdings h.actors.entries;
    } };

    ghost invariant = { λ h. h.desk.limit ≡ most_entries };
}

// Whether memory was refused.
#[inline(always)]
fn is_short(reply: &Reply) -> bool
    ensures { result ≡ is_short (Replied reply.now) }
{
    match reply {
        Reply::Refused(Code::NoMemory) => true,
        _ => false,
    }
}

// Whether the actor has quit.
#[inline(always)]
fn has_quit(reply: &Reply) -> bool
    ensures { result ≡ has_quit (Replied reply.now) }
{
    match reply {
        Reply::Bye => true,
        _ => false,
    }
}

// Whether nobody begins who was answered so.
#[inline(always)]
fn begins_nobody(answer: &Answer) -> bool
    ensures { (given : script.Answer) → answer.now ≡ told given →
        result ≡ (is_short given || has_quit given) }
{
    match answer {
        Answer::Reply(reply) => is_short(reply) || has_quit(reply),
        Answer::Event => false,
        Answer::Trace => false,
    }
}

impl Hub {
    /// No topic and no actor, with room for as many actors as there may be.
    pub fn new(alloc: Global) -> Result<Hub, AllocError>
        ensures { IfOk result (λ hub. hub ≡ seen_start) }
    {
        let actors = IndexMap::with_capacity(alloc, ACTOR_ROOM)?;
        Ok(Hub {
            desk: LocalDesk::new(alloc),
            actors,
        })
    }

    /// Answers a line, which is given without its end, or as `None` where it has more than 4,096 bytes: finds the actor
    /// whose name stands first, reads and carries out the command behind it, and puts the answer's text behind what waits.
    /// A line that spells none is answered 10 and begins nobody, whoever says it, and one that is too long 23. One look-up
    /// of the actor's name, and none of it is copied but where the actor begins.
    ///
    /// # Errors
    ///
    /// The writer failed, and a front of what waited and the answer's text was written. The command was carried out.
    #[inline(always)]
    pub fn answer<W: Write>(
        &mut self,
        alloc: Global,
        line: Option<&[u8]>,
        out: &mut WriteBuffer,
        writer: &mut Counted<W>,
    ) -> Result<(), WriteFailed>
        ensures { (text : List ℕ) × Turns answers self.old (line_given line.entry) text self.new
            × AddsOrFails text
            (output W.contents writer.old out.old) (output W.contents writer.new out.new) result }
    {
        let Some(line) = line else {
            return out.append(writer, &Reply::Refused(Code::LongLine));
        };
        let Some((name, rest)) = name_and_rest(line) else {
            return out.append(writer, &Reply::Refused(Code::BadLine));
        };
        let Some(text) = rest else {
            return out.append(writer, &Reply::Refused(Code::BadLine));
        };
        let place = self.actors.get_index_of(&name);
        match read_command(alloc, text) {
            Ok(command) => match place {
                Some(place) => self.carry_out(place, command, out, writer),
                None => self.carry_out_first(alloc, name, command, out, writer),
            },
            Err(LineFault::BadLine) => out.append(writer, &Reply::Refused(Code::BadLine)),
            Err(LineFault::Short) => out.append(writer, &Reply::Refused(Code::NoMemory)),
        }
    }

    // Carries out a command of the actor at this place. Of what its own sender or receiver does nothing is kept, so that is told
    // from the topic's log.
    #[inline(always)]
    fn carry_out<W: Write>(
        &mut self,
        place: usize,
        command: Command<'_>,
        out: &mut WriteBuffer,
        writer: &mut Counted<W>,
    ) -> Result<(), WriteFailed>
        ensures { PutsAt place command.entry self.old self.new
            (output W.contents writer.old out.old) (output W.contents writer.new out.new) result }
    {
        match command {
            Command::On(name, action) => match action {
                Action::BySender(verb) => {
                    self.by_own(place, &name, Own::Sender(verb), out, writer)
                }
                Action::ByReceiver(verb) => {
                    self.by_own(place, &name, Own::Receiver(verb), out, writer)
                }
                other => self.by_step(place, Command::On(name, other), out, writer),
            },
            other => self.by_step(place, other, out, writer),
        }
    }

    // What the own sender or receiver of the actor at this place does.
    #[inline(always)]
    fn by_own<W: Write>(
        &mut self,
        place: usize,
        name: &NameRef<'_>,
        own: Own,
        out: &mut WriteBuffer,
        writer: &mut Counted<W>,
    ) -> Result<(), WriteFailed>
        ensures { PutsAt place (On name.now (action_of own)) self.old self.new
            (output W.contents writer.old out.old) (output W.contents writer.new out.new) result }
    {
        let Some((_, session)) = self.actors.get_index(place) else {
            return out.append(writer, &Reply::Refused(Code::NotHeld));
        };
        let desk = &mut self.desk;
        quiet::carry_out(session, &mut desk.topics, name, own, out, writer)
    }

    // Carries out any command of the actor at this place, who is gone where it has quit. That takes time with the number of
    // actors; nothing else here does.
    fn by_step<W: Write>(
        &mut self,
        place: usize,
        command: Command<'_>,
        out: &mut WriteBuffer,
        writer: &mut Counted<W>,
    ) -> Result<(), WriteFailed>
        ensures { PutsAt place command.entry self.old self.new
            (output W.contents writer.old out.old) (output W.contents writer.new out.new) result }
    {
        let Some(session) = self.actors.get_index_mut(place) else {
            return out.append(writer, &Reply::Refused(Code::NotHeld));
        };
        match step(session, &mut self.desk, command) {
            Answer::Reply(reply) => {
                let is_gone = has_quit(&reply);
                let put = session.put_answer(Answer::Reply(reply), out, writer);
                if is_gone {
                    self.take_out(place);
                }
                put
            }
            told => {
                let put = session.put_answer(told, out, writer);
                session.let_go(&mut self.desk, Keeping::Nothing);
                put
            }
        }
    }

    // Takes the actor at this place out. The others stay in their order.
    fn take_out(&mut self, place: usize)
        ensures topics { self.new.topics ≡ self.old.topics }
        ensures actors { self.new.actors ≡ remove self.old.actors place }
    {
        let _ = self.actors.shift_remove_index(place);
    }

    // Carries out the first command of an actor. It has begun then, unless it was refused for want of memory, or has quit
    // at once. Room for one more is made first, so that nothing has changed where it is refused.
    fn carry_out_first<W: Write>(
        &mut self,
        alloc: Global,
        name: NameRef<'_>,
        command: Command<'_>,
        out: &mut WriteBuffer,
        writer: &mut Counted<W>,
    ) -> Result<(), WriteFailed>
        requires { place_of self.old.actors name ≡ None }
        ensures { PutsAnswer (by_place picture_step self.old name.entry command.entry None)
            (asks_by_place picture_asks self.old command.entry None) self.old self.new
            (output W.contents writer.old out.old) (output W.contents writer.new out.new) result }
    {
        if self.actors.len() >= MOST_ACTORS {
            return out.append(writer, &Reply::Refused(Code::TooMany));
        }
        let Ok(()) = self.actors.reserve(1) else {
            return out.append(writer, &Reply::Refused(Code::NoMemory));
        };
        let mut session = Session::new(alloc);
        let answer = step(&mut session, &mut self.desk, command);
        let is_over = begins_nobody(&answer);
        let put = session.put_answer(answer, out, writer);
        if is_over {
            return put;
        }
        session.let_go(&mut self.desk, Keeping::Nothing);
        let Ok(_) = self.actors.insert(name.to_name(), session) else {
            unreachable!();
        };
        put
    }
}
