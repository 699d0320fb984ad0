//! A session's run: lines are read, carried out one by one, and answered.
ghost use Rattle.std.specs.Prelude.{◌≡◌, ◌≤◌, ◌+◌, ◌^◌, ℕ, IfOk, false};
ghost use Rattle.th_lines.specs.Feeding as feeding;
ghost use Rattle.th_lines.specs.Feeding.{failures_by};
ghost use Rattle.th_lines.specs.Intake.{line_given};
ghost use Rattle.th_lines.specs.Output.{output};
ghost use Rattle.th_session.specs.Ending.{devices};
ghost use Rattle.th_session.specs.Rows.{ServesRow};
ghost use Rattle.th_session.specs.Run.{AnswersInTime, AreLet, Ran, Served, Serves, beginning, fault_by, may_wait, reader_failures, strictness, tells_bye, writer_failures};
ghost use Rattle.th_session.specs.Script.{Replied, has_quit};

use crate::answer::refused;
use crate::bounds::Bounds;
use crate::fault::{SessionFault, Stop};
use crate::gate::Gate;
use crate::keeping::Keeping;
use crate::replies::Replies;
use crate::rows::{Rows, put_row};
use crate::session::{Answer, Session};
use std::alloc::{AllocError, Global};
use std::io::{Read, Write};
use std::marker::Model;
use std::time::Clock;
use th_lines::{
    Code, Counted, Fed, Feeder, Intake, Reply, Row, TakesLines, WriteBuffer, read_command,
};
use th_registry::Desk;

/// How far a session's run has got. It cannot be let go of, since it may owe a wake.
struct Run<'a, D: Desk, C, G: Gate> {
    // The actor. Each line that is answered changes it.
    session: Session<D>,
    // The replies that are not written yet.
    replies: Replies<'a, C, G>,
    // What is kept of the answers. It never changes.
    keeping: Keeping,
    // Lines that are carried out in a row.
    rows: Rows,
    // Whom it owes a wake for what was done.
    owed: D::Owed,
}

impl<'a, D: Desk, C, G: Gate> Model for Run<'a, D, C, G> {
    ghost use Rattle.th_session.specs.Run.{Progress};

    ghost Value = { Progress G };

    ghost view = { λ r. record {
      kept = r.session;
      waiting = r.replies.text;
      gate = r.replies.gate;
      keeping = r.keeping;
      owes = D.owes r.owed;
    } };
}

// Whether this is the reply to `QUIT`.
fn is_bye(reply: &Reply) -> bool
    ensures { result ≡ has_quit (Replied reply.now) }
{
    match reply {
        Reply::Bye => true,
        _ => false,
    }
}

// Whether the actor has quit who is answered so.
fn tells_bye(answer: &Answer) -> bool
    ensures { result ≡ tells_bye answer.now }
{
    match answer {
        Answer::Reply(reply) => is_bye(reply),
        Answer::Event => false,
        Answer::Trace => false,
    }
}

// Carries out a line, and settles before one that would wait. So many lines were answered.
#[inline(always)]
fn answer_in_time<C: Clock, G: Gate, D: Desk, W: Write>(
    session: &mut Session<D>,
    replies: &mut Replies<'_, C, G>,
    alloc: Global,
    desk: &mut D,
    owed: &mut D::Owed,
    writer: &mut Counted<W>,
    answered: u64,
    line: Option<&[u8]>,
) -> Result<Answer, Stop>
    ensures answers { let gate = strictness G.holds_back G.lets G.gives_up replies.old.gate in
        AnswersInTime D.says gate (line_given line.entry)
        (session.old, desk.old) (session.new, desk.new)
        (output W.contents writer.old replies.old.text)
        (output W.contents writer.new replies.new.text) result }
    ensures gate { replies.new.gate ≡ replies.old.gate }
{
    let Some(bytes) = line else {
        return Ok(Answer::Reply(Reply::Refused(Code::LongLine)));
    };
    let command = match read_command(alloc, bytes) {
        Ok(command) => command,
        Err(fault) => return Ok(refused(fault)),
    };
    match replies.settle_before(session, desk, owed, writer, answered, &command) {
        Ok(()) => Ok(session.step_owing(desk, owed, command)),
        Err(e) => Err(e),
    }
}

// Carries out the next line once the gate lets it through, puts its reply behind those that wait, and lets go of what is
// not kept. So many lines were answered.
#[inline(always)]
fn serve<C: Clock, G: Gate, D: Desk, W: Write>(
    session: &mut Session<D>,
    replies: &mut Replies<'_, C, G>,
    alloc: Global,
    keeping: Keeping,
    desk: &mut D,
    owed: &mut D::Owed,
    writer: &mut Counted<W>,
    answered: u64,
    line: Option<&[u8]>,
) -> Result<(), Stop>
    ensures serves { let gate = strictness G.holds_back G.lets G.gives_up replies.old.gate in
        Serves keeping D.says gate answered (line_given line.entry)
        ((session.old, desk.old), output W.contents writer.old replies.old.text)
        ((session.new, desk.new), output W.contents writer.new replies.new.text) result }
    ensures gate { replies.new.gate ≡ replies.old.gate }
{
    match replies.enter(desk, owed, writer, answered) {
        Ok(()) => {}
        Err(e) => return Err(e),
    }
    match answer_in_time(session, replies, alloc, desk, owed, writer, answered, line) {
        Ok(answer) => {
            let quits = tells_bye(&answer);
            let put = replies.put(session, answer, desk, owed, writer);
            session.let_go(desk, keeping);
            match put {
                Ok(()) if quits => Err(Stop::Quit),
                Ok(()) => Ok(()),
                Err(_) => Err(Stop::Write),
            }
        }
        Err(why) => Err(why),
    }
}

// Carries out lines in a row, if they are one, puts their replies behind those that wait, and lets go of what is not kept.
#[inline(always)]
fn serve_row<C: Clock, G: Gate, D: Desk, W: Write>(
    session: &mut Session<D>,
    replies: &mut Replies<'_, C, G>,
    rows: &mut Rows,
    alloc: Global,
    keeping: Keeping,
    desk: &mut D,
    owed: &mut D::Owed,
    writer: &mut Counted<W>,
    answered: u64,
    most: u64,
    intake: &Intake,
) -> Row<Stop>
    ensures serves { ServesRow D.says keeping intake.now most
        ((session.old, desk.old), output W.contents writer.old replies.old.text)
        result.count result.end
        ((session.new, desk.new), output W.contents writer.new replies.new.text) }
    ensures gate { replies.new.gate ≡ replies.old.gate }
    ensures let_through { AreLet (strictness G.holds_back G.lets G.gives_up replies.old.gate)
        answered result.count }
{
    let count = rows.carry_out(session, replies, alloc, desk, answered, most, intake);
    if count > 0 {
        let put = put_row(session, replies, desk, owed, writer, count);
        session.let_go(desk, keeping);
        return match put {
            Ok(()) => Row { count, end: Ok(()) },
            Err(_) => Row {
                count,
                end: Err(Stop::Write),
            },
        };
    }
    Row { count, end: Ok(()) }
}

impl<'a, D: Desk, C: Clock, G: Gate, W: Write> TakesLines<D, Counted<W>> for Run<'a, D, C, G> {
    ghost use Rattle.th_session.specs.Run.{IsOver, IsSettled, Took, strictness};

    type Stop = Stop;

    ghost took = { Took D.says (strictness G.holds_back G.lets G.gives_up) W.contents };

    ghost halts = { IsOver D.says (strictness G.holds_back G.lets G.gives_up) W.contents };

    ghost is_settled = { IsSettled };

    // Wakes who waits, writes all that waits, and tells the gate.
    fn settle(&mut self, desk: &mut D, writer: &mut Counted<W>, taken: u64) -> Result<(), Stop> {
        match self.replies.settle(desk, &mut self.owed, writer, taken) {
            Ok(()) => Ok(()),
            Err(_) => Err(Stop::Write),
        }
    }

    // Answers a line.
    #[inline(always)]
    fn take(
        &mut self,
        alloc: Global,
        desk: &mut D,
        writer: &mut Counted<W>,
        taken: u64,
        line: Option<&[u8]>,
    ) -> Result<(), Stop> {
        serve(
            &mut self.session,
            &mut self.replies,
            alloc,
            self.keeping,
            desk,
            &mut self.owed,
            writer,
            taken,
            line,
        )
    }

    // Answers the lines of a row.
    #[inline(always)]
    fn take_row(
        &mut self,
        alloc: Global,
        desk: &mut D,
        writer: &mut Counted<W>,
        taken: u64,
        most: u64,
        intake: &Intake,
    ) -> Row<Stop> {
        serve_row(
            &mut self.session,
            &mut self.replies,
            &mut self.rows,
            alloc,
            self.keeping,
            desk,
            &mut self.owed,
            writer,
            taken,
            most,
            intake,
        )
    }
}

impl<'a, D: Desk, C: Clock, G: Gate> Run<'a, D, C, G> {
    // With an actor that has nothing, and owes nobody a wake at this desk. It makes the buffer of the replies.
    fn new(
        clock: &'a C,
        alloc: Global,
        gate: &'a G,
        number: u64,
        keeping: Keeping,
        desk: &D,
    ) -> Result<Run<'a, D, C, G>, AllocError>
        ensures { IfOk result (λ r. r ≡ beginning keeping (gate.now, number)) }
    {
        let waiting = WriteBuffer::new(alloc)?;
        Ok(Run {
            session: Session::new(alloc),
            replies: Replies::new(clock, gate, number, waiting),
            keeping,
            rows: Rows::new(alloc),
            owed: desk.owing_nothing(),
        })
    }

    // The actor, and whom it owes a wake.
    fn into_parts(self) -> (Session<D>, D::Owed)
        ensures { result.0 ≡ self.entry.kept }
    {
        let Run {
            session,
            replies: _,
            keeping: _,
            rows: _,
            owed,
        } = self;
        (session, owed)
    }

    // Reads on until the run is over, by at most so many reads, answers the lines as they come, and then settles.
    fn go<R: Read, W: Write>(
        &mut self,
        feeder: &mut Feeder,
        alloc: Global,
        reader: &mut Counted<R>,
        writer: &mut Counted<W>,
        desk: &mut D,
        reads: u64,
    ) -> Option<SessionFault>
        requires feeder { feeder.old ≡ feeding.beginning feeder.old.limit }
        requires run { self.old ≡ beginning self.old.keeping self.old.gate }
        ensures ran { Ran self.old.keeping D.says
            (strictness G.holds_back G.lets G.gives_up self.old.gate) feeder.old.limit reads
            (devices R.remaining reader.old W.contents writer.old)
            (devices R.remaining reader.new W.contents writer.new)
            desk.old (self.new.kept, desk.new) result
            × (writer.new.failures ≡ writer_failures writer.old.failures result) }
        ensures reads { reader.new.calls ≤ reader.old.calls + reads }
        ensures reader { reader.new.failures ≡ reader_failures reader.old.failures result }
    {
        let fed = feeder.feed(self, alloc, desk, writer, reader, reads);
        let taken = feeder.taken();
        let fault = fault_by(fed);
        if !may_wait(fault) {
            return fault;
        }
        let answered = answered_of(fault, taken);
        match self.replies.settle(desk, &mut self.owed, writer, answered) {
            Ok(()) => fault,
            Err(_) => Some(SessionFault::Write),
        }
    }
}

// The fault by which a run ends, by why no further line is fed.
fn fault_by(fed: Fed<Stop>) -> Option<SessionFault>
    ensures fault { result ≡ fault_by fed }
    ensures reader { (n : ℕ) → failures_by n fed ≡ reader_failures n result }
{
    match fed {
        Fed::Ended => None,
        Fed::Stopped(Stop::Quit) => None,
        Fed::Stopped(Stop::Gate) => Some(SessionFault::Gate),
        Fed::Stopped(Stop::Gone) => Some(SessionFault::Gone),
        Fed::Stopped(Stop::Write) => Some(SessionFault::Write),
        Fed::Failed => Some(SessionFault::Read),
        Fed::Full | Fed::Spent => Some(SessionFault::TooLong),
    }
}

// How many lines were answered, of so many that were handed out: a line that the gate did not let through, or gave up, was not.
fn answered_of(fault: Option<SessionFault>, taken: u64) -> u64 {
    match fault {
        Some(SessionFault::Gate) => taken.saturating_sub(1),
        Some(SessionFault::Gone) => taken.saturating_sub(1),
        _ => taken,
    }
}

// Whether replies may wait still where a run ended so.
fn may_wait(fault: Option<SessionFault>) -> bool
    ensures { result ≡ may_wait fault }
{
    match fault {
        Some(SessionFault::Read) => false,
        Some(SessionFault::Write) => false,
        _ => true,
    }
}

/// Carries out the lines of a reader as the session of this number, one by one, and writes their replies. The session
/// ends after the line that is answered `BYE`, behind which none is read; at the end of its input, where what stands
/// after the last LF is a line too; or by a fault. However it ends, it then spends all its handles: the session that is
/// handed out holds none, and has the receipts and the segments that it was answered ([`Session::parts`]), if they are
/// kept.
///
/// Lines that come together are carried out together, and their replies are written together: before each read, before a
/// command that would wait at the desk, before each sleep at the gate, at the end, and whenever 60 KiB of them wait. So no
/// reply is held back while the session waits for anything. Before each write, and once all handles are spent, the desk
/// wakes who waits for what was done: so a peer that does not read holds up nobody else. The gate is told of each line whose
/// reply is written, but where 60 KiB waited, by the next of the other writes.
///
/// It answers no more lines and makes no more reads than its bounds say, where an interrupted read is made again and
/// counts; at most 1,000 interrupted writes and flushes are made again. All its buffers, 132 KiB, are made at the start;
/// where memory is refused later, the line is answered `ERR 21 no-memory` and nothing else has changed. A line of more
/// than 4,096 bytes is answered `ERR 23 long-line`. A line costs no call of the reader or the writer, and no memory but
/// for what its command takes. What is kept grows with each event: a run that keeps nothing takes no more memory as it
/// goes on.
///
/// # Faults
///
/// `Read` and `Write` exactly where the reader and the writer failed; `Gate` at the 1,000th no to one line, some 10 seconds
/// after the first; `Gone` where the gate gave up a line that waited; `TooLong` where a line beyond the bound begins or one
/// more read would be needed; `Short` where there is no memory for the buffers, before the first read. All lines that were
/// carried out are answered, and but for `Write` all replies are written.
pub fn run_session<C: Clock, R: Read, W: Write, D: Desk, G: Gate>(
    rt: &C,
    alloc: Global,
    reader: &mut Counted<R>,
    writer: &mut Counted<W>,
    desk: &mut D,
    gate: &G,
    number: u64,
    keeping: Keeping,
    bounds: Bounds,
) -> (Session<D>, Option<SessionFault>)
    ensures served { Served keeping D.says
        (strictness G.holds_back G.lets G.gives_up (gate.now, number)) bounds.lines bounds.reads
        (devices R.remaining reader.old W.contents writer.old)
        (devices R.remaining reader.new W.contents writer.new)
        desk.old desk.new result.0 result.1 }
    ensures reads { reader.new.calls ≤ reader.old.calls + bounds.reads }
    ensures reader { reader.new.failures ≡ reader_failures reader.old.failures result.1 }
    ensures writer { writer.new.failures ≡ writer_failures writer.old.failures result.1 }
{
    let Ok(mut feeder) = Feeder::new(alloc, bounds.lines) else {
        return (Session::new(alloc), Some(SessionFault::Short));
    };
    let Ok(mut run) = Run::new(rt, alloc, gate, number, keeping, &*desk) else {
        return (Session::new(alloc), Some(SessionFault::Short));
    };
    let fault = run.go(&mut feeder, alloc, reader, writer, desk, bounds.reads);
    let (mut session, mut owed) = run.into_parts();
    session.spend_all(desk);
    desk.wake(&mut owed);
    D::close(owed);
    (session, fault)
}
