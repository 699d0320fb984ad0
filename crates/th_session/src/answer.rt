//! One line answered: from its bytes to the bytes of its answer.
ghost use Rattle.std.specs.Prelude.{◌≡◌};
ghost use Rattle.th_lines.specs.Output.{AddsOrFails, output};
ghost use Rattle.th_lines.specs.Replies.{spell};
ghost use Rattle.th_lines.specs.declared.reply.Reply.{Reply};
ghost use Rattle.th_registry.specs.Receipts.{reply_in};
ghost use Rattle.th_session.specs.Answer.{Answers, Puts, PutsTold, refused};
ghost use Rattle.th_session.specs.Kept.{Tells, told};
ghost use Rattle.th_session.specs.Table.{replied_channel};

use crate::session::{Answer, Session};
use crate::trace::append_trace;
use std::alloc::Global;
use std::io::Write;
use th_lines::{
    Code, Counted, LineFault, Reply, ValueWord, WriteBuffer, WriteFailed, read_command,
};
use th_model::{BReply, Value, WReply};
use th_registry::channel::TopicReceipt;
use th_registry::{Channel, Desk};

/// What a channel of some kind replied, as an actor is told it.
pub(crate) trait AsReply {
    /// The reply that is told.
    ghost told: { Self → Reply };

    /// Puts its text behind what waits. A value stays where it is.
    fn append<W: Write>(
        &self,
        out: &mut WriteBuffer,
        writer: &mut Counted<W>,
    ) -> Result<(), WriteFailed>
        ensures { AddsOrFails (spell (told self.now))
            (output W.contents writer.old out.old) (output W.contents writer.new out.new) result };
}

impl AsReply for BReply<Value> {
    ghost use Rattle.th_session.specs.Table.{replied_broadcast};

    ghost told = { replied_broadcast };

    #[inline(always)]
    fn append<W: Write>(
        &self,
        out: &mut WriteBuffer,
        writer: &mut Counted<W>,
    ) -> Result<(), WriteFailed> {
        let plain = match self {
            BReply::Value(value) => return out.append_value(writer, ValueWord::Value, value),
            BReply::Sent(n) => Reply::Count(*n),
            BReply::NoReceivers(_) => Reply::Refused(Code::NoReceivers),
            BReply::Exhausted(_) => Reply::Refused(Code::Exhausted),
            BReply::Empty => Reply::Empty,
            BReply::Closed => Reply::Closed,
            BReply::Lagged(n) => Reply::Lagged(*n),
            BReply::NewRx(_) => Reply::Done,
            BReply::NewTx(_) => Reply::Done,
            BReply::Count(n) => Reply::Count(*n),
            BReply::Done => Reply::Done,
            BReply::TooMany => Reply::Refused(Code::TooMany),
            BReply::NoHandle(_) => Reply::Refused(Code::NotHeld),
        };
        out.append(writer, &plain)
    }
}

impl AsReply for WReply<Value> {
    ghost use Rattle.th_session.specs.Table.{replied_watch};

    ghost told = { replied_watch };

    #[inline(always)]
    fn append<W: Write>(
        &self,
        out: &mut WriteBuffer,
        writer: &mut Counted<W>,
    ) -> Result<(), WriteFailed> {
        let plain = match self {
            WReply::Was(value) => return out.append_value(writer, ValueWord::Was, value),
            WReply::Shown(value, true) => return out.append_value(writer, ValueWord::New, value),
            WReply::Shown(value, false) => return out.append_value(writer, ValueWord::Same, value),
            WReply::Done => Reply::Done,
            WReply::NoReceivers(_) => Reply::Refused(Code::NoReceivers),
            WReply::Exhausted(_) => Reply::Refused(Code::Exhausted),
            WReply::Modified(true) => Reply::Yes,
            WReply::Modified(false) => Reply::No,
            WReply::Changed(true) => Reply::Yes,
            WReply::Changed(false) => Reply::No,
            WReply::Marked => Reply::Changed,
            WReply::NotYet => Reply::NotYet,
            WReply::Closed => Reply::Closed,
            WReply::Gone(true) => Reply::Yes,
            WReply::Gone(false) => Reply::No,
            WReply::NewRx(_) => Reply::Done,
            WReply::NewTx(_) => Reply::Done,
            WReply::Count(n) => Reply::Count(*n),
            WReply::TooMany => Reply::Refused(Code::TooMany),
            WReply::NoHandle(_) => Reply::Refused(Code::NotHeld),
        };
        out.append(writer, &plain)
    }
}

// What the topic replied, by the receipt.
#[inline(always)]
pub(crate) fn append_told<W: Write>(
    receipt: &TopicReceipt,
    out: &mut WriteBuffer,
    writer: &mut Counted<W>,
) -> Result<(), WriteFailed>
    ensures { AddsOrFails (spell (replied_channel (reply_in receipt.now)))
        (output W.contents writer.old out.old) (output W.contents writer.new out.new) result }
{
    match receipt {
        Channel::Broadcast(receipt) => receipt.reply().append(out, writer),
        Channel::Watch(receipt) => receipt.reply().append(out, writer),
    }
}

// The answer to a line that gave no command.
pub(crate) fn refused(fault: LineFault) -> Answer
    ensures { result ≡ told (refused fault) }
{
    match fault {
        LineFault::BadLine => Answer::Reply(Reply::Refused(Code::BadLine)),
        LineFault::Short => Answer::Reply(Reply::Refused(Code::NoMemory)),
    }
}

impl<D: Desk> Session<D> {
    // The answer to a line.
    fn answer_to(&mut self, alloc: Global, desk: &mut D, line: &[u8]) -> Answer
        ensures { Tells result (λ answer.
            Answers D.says self.old desk.old line.now answer self.new desk.new) }
    {
        match read_command(alloc, line) {
            Ok(command) => self.step(desk, command),
            Err(fault) => refused(fault),
        }
    }

    /// Answers a line, which is given without its end: carries out the command that it spells, and puts the answer's
    /// text behind what waits: the spelling of a reply; or the number of a trace's lines, and these. A line that spells
    /// no command is answered 10, and one for which memory was refused 21; then nothing has changed. However long the text
    /// is, it takes no memory.
    ///
    /// # Errors
    ///
    /// The writer failed, and a front of what waited and the answer's text was written. The command was carried out.
    pub fn answer<W: Write>(
        &mut self,
        alloc: Global,
        desk: &mut D,
        line: &[u8],
        out: &mut WriteBuffer,
        writer: &mut Counted<W>,
    ) -> Result<(), WriteFailed>
        ensures { Puts D.says self.old desk.old line.now self.new desk.new
            (output W.contents writer.old out.old) (output W.contents writer.new out.new) result }
    {
        let answer = self.answer_to(alloc, desk, line);
        self.put_answer(answer, out, writer)
    }

    /// Puts the text of the answer that this session was given last behind what waits: the spelling of a reply; or the
    /// number of a trace's lines, and these. However long the text is, it takes no memory.
    ///
    /// # Errors
    ///
    /// The writer failed, and a front of what waited and the answer's text was written.
    pub fn put_answer<W: Write>(
        &self,
        answer: Answer,
        out: &mut WriteBuffer,
        writer: &mut Counted<W>,
    ) -> Result<(), WriteFailed>
        ensures { PutsTold answer self.now
            (output W.contents writer.old out.old) (output W.contents writer.new out.new) result }
    {
        match answer {
            Answer::Reply(reply) => out.append(writer, &reply),
            Answer::Event => match self.last_receipt() {
                Some(receipt) => append_told(receipt, out, writer),
                None => Ok(()),
            },
            Answer::Trace => match self.last_segment() {
                Some(segment) => append_trace(segment, out, writer),
                None => Ok(()),
            },
        }
    }
}
