//! What a check asks of the calls of a kind of channel.
ghost use Rattle.std.specs.Prelude.{◌≡◌, Option, Some, None};
ghost use Rattle.th_lines.specs.Commands.{IsValue};
ghost use Rattle.th_traces.specs.Grammars.{gives_value, reply_of};
ghost use Rattle.th_traces.specs.Watch.{edit_value};
ghost use Rattle.th_check.specs.Judging.{IsJudged, IsOther};

use crate::fault::{Expected, Stop};
use crate::printed::{is_number, is_value};
use th_model::{BCall, BReply, Edit, Value, WCall, WReply};
use th_traces::{EntryLines, says_reply, spells_reply};

/// The calls of a trace that is judged.
pub(crate) trait JudgedCall: EntryLines {
    ghost use Rattle.th_check.specs.declared.fault.Expected.{Expected};

    /// How the reply that is expected is told.
    ghost told: { Option Self.Reply → Expected };

    /// The number and the value of a call are such.
    ghost call_fits: { Self → Type 0 };

    /// The number or the value of a reply is such.
    ghost reply_fits: { Self.Reply → Type 0 };

    /// What is known of the machine's replies to a call.
    ghost answers: { Self → Self.Reply → Type 0 };

    // What the types of its numbers and values say of a call that is printed.
    fn is_call(&self)
        ensures { call_fits self.now };

    // The same of a reply.
    fn is_reply(reply: &Self::Reply)
        ensures { reply_fits reply.now };

    // Whether the line says this reply to a call, which gives a value or none; else why it stops the check.
    fn judge_reply(gives: bool, line: &[u8], reply: Self::Reply) -> Result<(), Stop>
        ensures { (call : Self) → gives_value Self.grammar call ≡ gives → answers call reply
            → IsJudged (reply_of Self.grammar call line.now) reply (told (Some reply)) result };

    // How it is told that the call would wait.
    fn tell_none() -> Expected
        ensures { result ≡ told None };
}

// Why a line stops the check that is not the reply that is expected to a call, which gives a value or none.
#[cold]
pub(crate) fn another<C: EntryLines>(gives: bool, line: &[u8], own: Expected) -> Stop
    ensures { (call : C) → gives_value C.grammar call ≡ gives
        → IsOther (reply_of C.grammar call line.now) own result }
{
    if says_reply::<C>(gives, line) {
        Stop::Illegal(own)
    } else {
        Stop::Bad
    }
}

impl JudgedCall for BCall<Value> {
    ghost use Rattle.th_check.specs.declared.fault.Expected.TheVariants as expected;
    ghost use Rattle.th_log.specs.Machines.{broadcast};
    ghost use Rattle.th_traces.specs.BroadcastWords.{HasFields, ReplyFits};
    ghost use Rattle.th_check.specs.Stages.{GivenBy};

    ghost told = { expected.Broadcast };

    ghost call_fits = { HasFields };

    ghost reply_fits = { ReplyFits };

    ghost answers = { GivenBy broadcast };

    fn is_call(&self) {
        match self {
            BCall::Send(tx, value) => {
                is_number(tx.0);
                is_value(value);
            }
            BCall::TryRecv(rx) => is_number(rx.0),
            BCall::Recv(rx) => is_number(rx.0),
            BCall::Subscribe(tx) => is_number(tx.0),
            BCall::SubscribeOldest(tx) => is_number(tx.0),
            BCall::Resubscribe(rx) => is_number(rx.0),
            BCall::CloneTx(tx) => is_number(tx.0),
            BCall::DropTx(tx) => is_number(tx.0),
            BCall::DropRx(rx) => is_number(rx.0),
            BCall::Queued(tx) => is_number(tx.0),
            BCall::Left(rx) => is_number(rx.0),
            BCall::Readers(tx) => is_number(tx.0),
        }
    }

    #[inline(always)]
    fn is_reply(reply: &BReply<Value>) {
        match reply {
            BReply::Sent(n) => is_number(*n),
            BReply::NoReceivers(_) => {}
            BReply::Exhausted(_) => {}
            BReply::Value(value) => is_value(value),
            BReply::Empty => {}
            BReply::Closed => {}
            BReply::Lagged(n) => is_number(*n),
            BReply::NewRx(rx) => is_number(rx.0),
            BReply::NewTx(tx) => is_number(tx.0),
            BReply::Count(n) => is_number(*n),
            BReply::Done => {}
            BReply::TooMany => {}
            BReply::NoHandle(_) => {}
        }
    }

    #[inline(always)]
    fn judge_reply(gives: bool, line: &[u8], reply: BReply<Value>) -> Result<(), Stop> {
        BCall::<Value>::is_reply(&reply);
        let said = spells_reply::<BCall<Value>>(line, &reply);
        if said {
            return Ok(());
        }
        let own = Expected::Broadcast(Some(reply));
        Err(another::<BCall<Value>>(gives, line, own))
    }

    fn tell_none() -> Expected {
        Expected::Broadcast(None)
    }
}

impl JudgedCall for WCall<Value> {
    ghost use Rattle.th_check.specs.declared.fault.Expected.TheVariants as expected;
    ghost use Rattle.th_traces.specs.WatchWords.{IsCall, ReplyFits};
    ghost use Rattle.th_check.specs.Points.{watch_machine};
    ghost use Rattle.th_check.specs.Stages.{GivenBy};

    ghost told = { expected.Watch };

    ghost call_fits = { IsCall };

    ghost reply_fits = { ReplyFits };

    ghost answers = { GivenBy watch_machine };

    fn is_call(&self) {
        match self {
            WCall::Send(tx, value) => {
                is_number(tx.0);
                is_value(value);
            }
            WCall::Replace(tx, value) => {
                is_number(tx.0);
                is_value(value);
            }
            WCall::EditBy(tx, edit) => {
                is_number(tx.0);
                is_edit(edit);
            }
            WCall::Borrow(rx) => is_number(rx.0),
            WCall::Take(rx) => is_number(rx.0),
            WCall::HasChanged(rx) => is_number(rx.0),
            WCall::TryChanged(rx) => is_number(rx.0),
            WCall::Changed(rx) => is_number(rx.0),
            WCall::MarkChanged(rx) => is_number(rx.0),
            WCall::MarkUnchanged(rx) => is_number(rx.0),
            WCall::Subscribe(tx) => is_number(tx.0),
            WCall::CloneRx(rx) => is_number(rx.0),
            WCall::CloneTx(tx) => is_number(tx.0),
            WCall::DropTx(tx) => is_number(tx.0),
            WCall::DropRx(rx) => is_number(rx.0),
            WCall::IsClosed(tx) => is_number(tx.0),
            WCall::Readers(tx) => is_number(tx.0),
        }
    }

    #[inline(always)]
    fn is_reply(reply: &WReply<Value>) {
        match reply {
            WReply::Done => {}
            WReply::NoReceivers(_) => {}
            WReply::Exhausted(_) => {}
            WReply::Was(value) => is_value(value),
            WReply::Modified(_) => {}
            WReply::Shown(value, _) => is_value(value),
            WReply::Changed(_) => {}
            WReply::Marked => {}
            WReply::NotYet => {}
            WReply::Closed => {}
            WReply::Gone(_) => {}
            WReply::NewRx(rx) => is_number(rx.0),
            WReply::NewTx(tx) => is_number(tx.0),
            WReply::Count(n) => is_number(*n),
            WReply::TooMany => {}
            WReply::NoHandle(_) => {}
        }
    }

    #[inline(always)]
    fn judge_reply(gives: bool, line: &[u8], reply: WReply<Value>) -> Result<(), Stop> {
        WCall::<Value>::is_reply(&reply);
        let said = spells_reply::<WCall<Value>>(line, &reply);
        if said {
            return Ok(());
        }
        let own = Expected::Watch(Some(reply));
        Err(another::<WCall<Value>>(gives, line, own))
    }

    fn tell_none() -> Expected {
        Expected::Watch(None)
    }
}

fn is_edit(edit: &Edit<Value>)
    ensures { IsValue (edit_value edit.now) }
{
    match edit {
        Edit::Set(value) => is_value(value),
        Edit::Differ(value) => is_value(value),
        Edit::Quiet(value) => is_value(value),
    }
}
