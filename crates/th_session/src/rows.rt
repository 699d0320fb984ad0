//! Lines that came together and are carried out in a row: sends to one topic, or what one receiver takes again and again.
ghost use Rattle.std.specs.Prelude.{◌≡◌, ◌∷◌, ◌++◌, ◌+◌, ◌≤◌, ◌<◌, ◌-◌, Bool, List, [], ℕ, Some, IfSome, MatchOption, drop, length, map};
ghost use Rattle.std.specs.List.{concat};
ghost use Rattle.th_lines.specs.Commands.{command_of};
ghost use Rattle.th_lines.specs.Lines.{Good, lines_from};
ghost use Rattle.th_lines.specs.Output.{AddsOrFails, output};
ghost use Rattle.th_lines.specs.declared.command.Action.TheVariants.{ByReceiver, BySender};
ghost use Rattle.th_lines.specs.declared.command.Command.TheVariants.{On};
ghost use Rattle.th_model.specs.declared.verb.SenderVerb.TheVariants.{Send};
ghost use Rattle.th_session.specs.Run.{AreLet, IsLet, strictness};
ghost use Rattle.th_session.specs.Rows.{AreThere, CarriesLines, CarriesOut, SendEach, told_by};
ghost use Rattle.th_registry.specs.Rows.{times};

use crate::gate::Gate;
use crate::replies::Replies;
use crate::session::Session;
use bstr::ByteSlice;
use std::alloc::Global;
use std::collections::VecDeque;
use std::io::Write;
use std::time::Clock;
use th_lines::{Action, Command, Counted, Intake, WriteFailed, front_line, read_command};
use th_model::{NameRef, ReceiverVerb, SenderVerb, Value};
use th_registry::{Desk, MOST_IN_ROW};

// The first two words of a line, with the spaces behind them: the same in each line that sends to a topic.
fn two_words(line: &[u8]) -> Option<&[u8]> {
    let word = line.find_byte(b' ')?;
    let name = (&line[word + 1..]).find_byte(b' ')?;
    Some(&line[..word + name + 2])
}

// What this line sends, and to which topic, if it does.
fn send_of(alloc: Global, line: &[u8]) -> Option<(NameRef<'_>, Value)>
    ensures { IfSome result (λ r.
        command_of line.now ≡ Some (On r.0 (BySender (Send r.1)))) }
{
    let Ok(command) = read_command(alloc, line) else {
        return None;
    };
    let Command::On(name, action) = command else {
        return None;
    };
    let Action::BySender(verb) = action else {
        return None;
    };
    match verb {
        SenderVerb::Send(value) => Some((name, value)),
        _ => None,
    }
}

// What this line takes by a receiver, and of which topic, if it is a command that waits.
fn wait_of(alloc: Global, line: &[u8]) -> Option<(NameRef<'_>, ReceiverVerb)>
    ensures { IfSome result (λ r. command_of line.now ≡ Some (On r.0 (ByReceiver r.1))) }
{
    let Ok(command) = read_command(alloc, line) else {
        return None;
    };
    let Command::On(name, action) = command else {
        return None;
    };
    let Action::ByReceiver(verb) = action else {
        return None;
    };
    match verb {
        ReceiverVerb::Recv | ReceiverVerb::Changed => Some((name, verb)),
        _ => None,
    }
}

// The value of the line at the front of these bytes, where it begins so and sends to this topic; and what stands behind it.
fn next_send<'b>(
    alloc: Global,
    name: &NameRef<'_>,
    front: &[u8],
    bytes: &'b [u8],
) -> Option<(Value, &'b [u8])>
    ensures { IfSome result (λ r. (line : List ℕ)
        × (command_of line ≡ Some (On name.now (BySender (Send r.0))))
        × ((ended : Bool) (more : List ℕ) → lines_from ended [] (bytes.now ++ more)
        ≡ Good line ∷ lines_from ended [] (r.1.now ++ more))) }
{
    let (line, behind) = front_line(bytes)?;
    if !line.starts_with(front) {
        return None;
    }
    let (topic, value) = send_of(alloc, line)?;
    if topic != *name {
        return None;
    }
    Some((value, behind))
}

// What stands behind the line at the front of these bytes, where it is this one.
fn behind_same<'b>(line: &[u8], bytes: &'b [u8]) -> Option<&'b [u8]>
    ensures { IfSome result (λ r. (ended : Bool) (more : List ℕ) →
        lines_from ended [] (bytes.now ++ more)
        ≡ Good line.now ∷ lines_from ended [] (r.now ++ more)) }
{
    let (next, behind) = front_line(bytes)?;
    if next == line { Some(behind) } else { None }
}

// How many lines there are from this one on that are the same, at most so many, and the gate lets through.
fn count_same<C: Clock, G: Gate>(
    replies: &Replies<'_, C, G>,
    answered: u64,
    line: &[u8],
    ahead: &[u8],
    most: usize,
) -> usize
    requires some { 0 < most }
    requires first { let gate = strictness G.holds_back G.lets G.gives_up replies.now.gate in
        IsLet gate answered }
    ensures most { result ≤ most }
    ensures same { AreThere line.now ahead.now (times result line.now) }
    ensures let_through { let gate = strictness G.holds_back G.lets G.gives_up replies.now.gate in
        AreLet gate answered result }
{
    let mut rest = ahead;
    for count in 1..most {
        if !replies.lets(answered, count) {
            return count;
        }
        match behind_same(line, rest) {
            Some(behind) => rest = behind,
            None => return count,
        }
    }
    most
}

// Puts the value of the next line behind the others, where that line is so many behind the next one, the gate lets it through, and
// it sends to the same topic: what stands behind it.
fn read_next<'b, C: Clock, G: Gate>(
    replies: &Replies<'_, C, G>,
    alloc: Global,
    answered: u64,
    ahead: usize,
    name: &NameRef<'_>,
    front: &[u8],
    bytes: &'b [u8],
    values: &mut VecDeque<Value>,
) -> Option<&'b [u8]>
    ensures let_through { IfSome result
        (λ _. IsLet (strictness G.holds_back G.lets G.gives_up replies.now.gate)
        (answered + ahead)) }
    ensures read { MatchOption result (values.new.items ≡ values.old.items)
        (λ behind. (line : List ℕ) × (value : List ℕ)
        × (command_of line ≡ Some (On name.now (BySender (Send value))))
        × (values.new.items ≡ values.old.items ++ value ∷ [])
        × ((ended : Bool) (more : List ℕ) → lines_from ended [] (bytes.now ++ more)
        ≡ Good line ∷ lines_from ended [] (behind.now ++ more))) }
{
    if !replies.lets(answered, ahead) {
        return None;
    }
    let (value, behind) = next_send(alloc, name, front, bytes)?;
    match values.push_back(value) {
        Ok(()) => Some(behind),
        Err(_) => None,
    }
}

// The values of the lines from this one on that send to the same topic, at most so many, and the gate lets through; and the
// topic's name.
fn read_sends<'l, C: Clock, G: Gate>(
    replies: &Replies<'_, C, G>,
    alloc: Global,
    answered: u64,
    line: &'l [u8],
    front: &[u8],
    ahead: &[u8],
    most: usize,
    values: &mut VecDeque<Value>,
) -> Option<NameRef<'l>>
    requires some { 0 < most }
    requires none { values.old.items ≡ [] }
    requires first { let gate = strictness G.holds_back G.lets G.gives_up replies.now.gate in
        IsLet gate answered }
    ensures { IfSome result (λ name. (lines : List (List ℕ)) × (length lines ≤ most)
        × AreLet (strictness G.holds_back G.lets G.gives_up replies.now.gate)
        answered (length lines)
        × SendEach name lines values.new.items × AreThere line.now ahead.now lines) }
{
    let (name, value) = send_of(alloc, line)?;
    let Ok(()) = values.push_back(value) else {
        return None;
    };
    let mut rest = ahead;
    for count in 1..most {
        match read_next(replies, alloc, answered, count, &name, front, rest, values) {
            Some(behind) => rest = behind,
            None => return Some(name),
        }
    }
    Some(name)
}

// Whether sends in a row may be made of lines that begin so: to a broadcast topic of which the actor holds a sender.
fn may_send<D: Desk>(session: &Session<D>, desk: &D, front: &[u8]) -> bool {
    let Some(name) = front.get(4..front.len().saturating_sub(1)) else {
        return false;
    };
    match NameRef::new(name) {
        Ok(name) => session.has_broadcast_sender(desk, &name),
        Err(_) => false,
    }
}

/// Lines that are carried out in a row.
#[derive(Drop)]
pub(crate) struct Rows {
    // Room for the values of a row.
    values: VecDeque<Value>,
}

impl Rows {
    /// It takes no memory.
    pub(crate) fn new(alloc: Global) -> Rows {
        Rows {
            values: VecDeque::new(alloc),
        }
    }

    // Sends of the line that was handed out and of those behind it, where they send to one topic: how many.
    fn sends<C: Clock, G: Gate, D: Desk>(
        &mut self,
        session: &mut Session<D>,
        replies: &Replies<'_, C, G>,
        alloc: Global,
        desk: &mut D,
        answered: u64,
        most: usize,
        line: &[u8],
        ahead: &[u8],
    ) -> usize
        requires some { 0 < most }
        requires first { let gate = strictness G.holds_back G.lets G.gives_up replies.now.gate in
            IsLet gate answered }
        ensures row { CarriesLines D.says line.now ahead.now most
            (session.old, desk.old) result (session.new, desk.new) }
        ensures let_through { AreLet
            (strictness G.holds_back G.lets G.gives_up replies.now.gate) answered result }
    {
        let Some(front) = two_words(line) else {
            return 0;
        };
        if !ahead.starts_with(front) || !replies.has_room_for_sends() {
            return 0;
        }
        if !may_send(session, desk, front) {
            return 0;
        }
        let values = &mut self.values;
        values.clear();
        let Some(name) = read_sends(replies, alloc, answered, line, front, ahead, most, values)
        else {
            return 0;
        };
        if values.len() < 2 {
            return 0;
        }
        session.send_row(desk, &name, values)
    }

    /// Carries out the line that was handed out, together with those behind it that are a row with it: how many lines, 0
    /// where it is to be carried out alone. So many lines were answered.
    #[inline(always)]
    pub(crate) fn carry_out<C: Clock, G: Gate, D: Desk>(
        &mut self,
        session: &mut Session<D>,
        replies: &Replies<'_, C, G>,
        alloc: Global,
        desk: &mut D,
        answered: u64,
        most: u64,
        intake: &Intake,
    ) -> usize
        ensures row { CarriesOut D.says intake.now most
            (session.old, desk.old) result (session.new, desk.new) }
        ensures let_through { AreLet
            (strictness G.holds_back G.lets G.gives_up replies.now.gate) answered result }
    {
        let most = most.min(MOST_IN_ROW as u64) as usize;
        let Some(line) = intake.line(true) else {
            return 0;
        };
        let is_send = line.starts_with(b"PUB ");
        let may_be_row = is_send || line.starts_with(b"NEXT ") || line.starts_with(b"CHANGED ");
        if most == 0 || !may_be_row || !replies.lets(answered, 0) {
            return 0;
        }
        let ahead = intake.ahead();
        if is_send {
            self.sends(session, replies, alloc, desk, answered, most, line, ahead)
        } else {
            receives(session, replies, alloc, desk, answered, most, line, ahead)
        }
    }
}

// What the line that was handed out takes by a receiver, as often as it stands there: how often.
fn receives<C: Clock, G: Gate, D: Desk>(
    session: &mut Session<D>,
    replies: &Replies<'_, C, G>,
    alloc: Global,
    desk: &mut D,
    answered: u64,
    most: usize,
    line: &[u8],
    ahead: &[u8],
) -> usize
    requires some { 0 < most }
    requires first { let gate = strictness G.holds_back G.lets G.gives_up replies.now.gate in
        IsLet gate answered }
    ensures row { CarriesLines D.says line.now ahead.now most
        (session.old, desk.old) result (session.new, desk.new) }
    ensures let_through { let gate = strictness G.holds_back G.lets G.gives_up replies.now.gate in
        AreLet gate answered result }
{
    let Some((name, verb)) = wait_of(alloc, line) else {
        return 0;
    };
    let same = count_same(replies, answered, line, ahead, most);
    session.receive_row(desk, &name, verb, same)
}

/// Puts the replies to the last events behind those that wait, so many of them, in their order.
pub(crate) fn put_row<C: Clock, G: Gate, D: Desk, W: Write>(
    session: &Session<D>,
    replies: &mut Replies<'_, C, G>,
    desk: &mut D,
    owed: &mut D::Owed,
    writer: &mut Counted<W>,
    count: usize,
) -> Result<(), WriteFailed>
    requires { count ≤ length session.now.receipts }
    ensures desk { desk.new ≡ desk.old }
    ensures gate { replies.new.gate ≡ replies.old.gate }
    ensures told { AddsOrFails (concat (map (λ r. told_by r.1)
        (drop (length session.now.receipts - count) session.now.receipts)))
        (output W.contents writer.old replies.old.text)
        (output W.contents writer.new replies.new.text) result }
{
    let receipts = session.receipts();
    let last = &receipts[receipts.len() - count..];
    for entry in last {
        match replies.put_told(&entry.1, desk, owed, writer) {
            Ok(()) => {}
            Err(e) => return Err(e),
        }
    }
    Ok(())
}
