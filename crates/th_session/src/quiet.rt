//! What an actor's own sender or receiver does at the desk of one thread, of which nothing is kept but its entry in the
//! topic's log: its reply is told from there.
ghost use Rattle.std.specs.Prelude.{◌≡◌, ℕ};
ghost use Rattle.indexmap.specs.IndexMap.{set_value_at};
ghost use Rattle.th_lines.specs.Output.{output};
ghost use Rattle.th_lines.specs.declared.command.Command.TheVariants.{On};
ghost use Rattle.th_registry.specs.Calls.{Bytes};
ghost use Rattle.th_registry.specs.Pictures.{SeenTopics};
ghost use Rattle.th_session.specs.Held.{handles_at};
ghost use Rattle.th_session.specs.Quiet.{PutsQuietly, PutsReply, Stands, action_of, own_call};

use crate::answer::AsReply;
use crate::session::Session;
use crate::table::replied_none;
use std::io::Write;
use th_lines::{Code, Counted, Reply, WriteBuffer, WriteFailed};
use th_model::{Kind, NameRef, ReceiverVerb, SenderVerb, Value};
use th_registry::calls::{receives, sends};
use th_registry::channel::{HubBroadcast, HubWatch, LocalChannel};
use th_registry::recorded::Recorded;
use th_registry::topics::Channels;
use th_registry::{Channel, LocalDesk, TopicId, keep};

/// What an actor's own sender or receiver is to do.
#[derive(Drop)]
pub enum Own {
    Sender(SenderVerb<Value>),
    Receiver(ReceiverVerb),
}

// The call on this topic, whose kind this is; or why there is none.
#[inline(always)]
fn own_call<K: th_log::Kind<Value = Value>>(
    session: &Session<LocalDesk>,
    topic: TopicId,
    kind: Kind,
    own: Own,
) -> Result<Option<K::Call>, Code>
    ensures { result
        ≡ own_call K.by_sender K.by_receiver kind own (handles_at session.now.handles topic.0) }
{
    match own {
        Own::Sender(verb) => {
            if !sends(kind, &verb) {
                return Err(Code::WrongKind);
            }
            match session.sender_of(topic) {
                Some(sender) => Ok(K::by_sender(verb, *sender)),
                None => Err(Code::NotHeld),
            }
        }
        Own::Receiver(verb) => {
            if !receives(kind, verb) {
                return Err(Code::WrongKind);
            }
            match session.receiver_of(topic) {
                Some(receiver) => Ok(K::by_receiver(verb, *receiver)),
                None => Err(Code::NotHeld),
            }
        }
    }
}

// One call of a channel, and what came of it.
#[inline(always)]
fn put_reply<R: AsReply, K: th_log::Kind<Reply = R>, W: Write>(
    channel: &mut Recorded<K>,
    call: Option<K::Call>,
    out: &mut WriteBuffer,
    writer: &mut Counted<W>,
) -> Result<(), WriteFailed>
    requires { K.lawful }
    ensures { PutsReply K.machine K.has_sender K.has_receiver K.waits R.told
        channel.old call channel.new
        (output W.contents writer.old out.old) (output W.contents writer.new out.new) result }
{
    match keep(channel, call) {
        Ok(()) => match channel.last_reply() {
            Some(reply) => reply.append(out, writer),
            None => Ok(()),
        },
        Err(why) => out.append(writer, &replied_none(why)),
    }
}

// What the actor's own sender or receiver does on this channel, which stands under this number.
#[inline(always)]
fn on_channel<W: Write>(
    session: &Session<LocalDesk>,
    topic: TopicId,
    channel: &mut LocalChannel,
    own: Own,
    out: &mut WriteBuffer,
    writer: &mut Counted<W>,
) -> Result<(), WriteFailed>
    ensures { (limit : ℕ) (ts : SeenTopics) (name : Bytes) → Stands ts name topic.0 channel.old →
        PutsQuietly limit session.now ts (On name (action_of own))
        (set_value_at ts topic.0 channel.new)
        (output W.contents writer.old out.old) (output W.contents writer.new out.new) result }
{
    match channel {
        Channel::Broadcast(channel) => {
            match own_call::<HubBroadcast>(session, topic, Kind::Broadcast, own) {
                Ok(call) => put_reply(channel, call, out, writer),
                Err(code) => out.append(writer, &Reply::Refused(code)),
            }
        }
        Channel::Watch(channel) => {
            match own_call::<HubWatch>(session, topic, Kind::Watch, own) {
                Ok(call) => put_reply(channel, call, out, writer),
                Err(code) => out.append(writer, &Reply::Refused(code)),
            }
        }
    }
}

/// What the actor's own sender or receiver does on the topic of this name: as [`crate::local::step`] has it, but that no
/// receipt is kept, and the answer's text is put behind what waits. The topic's kind is asked for once.
///
/// # Errors
///
/// The writer failed, and a front of what waited and the answer's text was written. The event was made.
#[inline(always)]
pub fn carry_out<W: Write>(
    session: &Session<LocalDesk>,
    topics: &mut Channels,
    name: &NameRef<'_>,
    own: Own,
    out: &mut WriteBuffer,
    writer: &mut Counted<W>,
) -> Result<(), WriteFailed>
    ensures { (limit : ℕ) → let command = On name.now (action_of own) in
        PutsQuietly limit session.now topics.old.entries command topics.new.entries
        (output W.contents writer.old out.old) (output W.contents writer.new out.new) result }
{
    let Some(number) = topics.get_index_of(name) else {
        return out.append(writer, &Reply::Refused(Code::NoTopic));
    };
    let Some(channel) = topics.get_index_mut(number) else {
        unreachable!();
    };
    on_channel(session, TopicId(number as u64), channel, own, out, writer)
}
