//! What is left of a topic once nobody serves it any more.
ghost use Rattle.std.specs.Prelude.{◌≡◌, ◌≤◌, [], is_some, length, not, vec_capacity, IfNone, IfSome, MatchOption, Some};
ghost use Rattle.std.specs.Arc.{arc_value};
ghost use Rattle.std.specs.Option.{option_map, option_or};
ghost use Rattle.th_shared.specs.Ending.{AreEnds, AreInOrder, IsEnd, IsLeftOf, Joins};
ghost use Rattle.th_shared.specs.OwnSender.{own_share};

use crate::registry::Topics;
use crate::shared_topics::SharedTopics;
use crate::topic::{AnyTopic, Own, Topic};
use std::alloc::Global;
use std::mem::replace;
use std::sync::{Arc, Wait};
use th_block::Shared;
use th_log::{Kind, Logged};
use th_model::Name;
use th_registry::Channel;
use th_registry::channel::{HubBroadcast, HubWatch};
use th_seats::Share;

/// A topic at the end of its hub, with its name and the share of the hub's own sender. Where the desks kept no shares, those of the
/// handles that were spent are in it: so it alone settles the topic, if no handle is left.
#[derive(Drop)]
pub enum Ended {
    /// A broadcast topic, with its log.
    Broadcast(Name, Logged<HubBroadcast>, Share),
    /// A watch topic, with its log.
    Watch(Name, Logged<HubWatch>, Share),
    /// A topic of which a handle is left elsewhere, so that its log is still shared.
    Held(Name, Share),
}

// The share of the hub's own sender.
fn share_of<O: Kind>(own: Option<Own<O>>, share: Option<Share>) -> Share
    requires { is_some share ≡ not (is_some own) }
    ensures { option_or (option_map (λ own. own.sender.known.share) own) share ≡ Some result }
{
    match own {
        Some(Own { sender }) => sender.release(),
        None => match share {
            Some(share) => share,
            None => unreachable!(),
        },
    }
}

// An owner of a topic's channel, and the share of the hub's own sender.
fn parts<O: Kind>(topic: Topic<O>) -> (Shared<O>, Share)
    ensures { own_share topic ≡ Some result.1 }
{
    let Topic { owner, own, share } = topic;
    (owner, share_of(own, share))
}

// This share, with those that its channel was given back, if there are any. What is not of one book with it is let go.
fn with_returned<O: Kind>(log: &mut Logged<O>, share: Share, returned: Option<Share>) -> Share
    ensures joins { Joins log.old.tally share returned result log.new.tally }
    ensures piece { log.new.piece ≡ log.old.piece }
    ensures limit { log.new.limit ≡ log.old.limit }
    ensures room { log.new.room ≡ log.old.room }
{
    match returned {
        None => share,
        Some(returned) => match log.rejoin(share, returned) {
            Ok(share) => share,
            Err((share, _)) => share,
        },
    }
}

// The log of a topic, where no handle is left elsewhere, and the shares that it keeps, as one. A log of another key is no topic's.
fn end<O: Kind, R: Wait>(rt: &R, topic: Topic<O>) -> (Option<Logged<O>>, Share)
    ensures { IsLeftOf topic result.0 result.1 }
{
    let (owner, share) = parts(topic);
    let returned = owner.returned(rt);
    match owner.finish() {
        Ok(log) => {
            if log.key() != share.key() {
                return (None, share);
            }
            let mut log = log;
            let share = with_returned(&mut log, share, returned);
            (Some(log), share)
        }
        Err(owner) => {
            if let Some(returned) = returned {
                // Another owner may give back shares too, so that it keeps this one with them.
                let _ = owner.take_back(rt, returned);
            }
            (None, share)
        }
    }
}

/// What is left of the topic of this name: its log too, where no handle is left elsewhere.
fn end_of<R: Wait>(rt: &R, name: Name, topic: AnyTopic) -> Ended
    ensures { IsEnd name topic result }
{
    match topic {
        Channel::Broadcast(topic) => {
            let (log, share) = end(rt, topic);
            match log {
                Some(log) => Ended::Broadcast(name, log, share),
                None => Ended::Held(name, share),
            }
        }
        Channel::Watch(topic) => {
            let (log, share) = end(rt, topic);
            match log {
                Some(log) => Ended::Watch(name, log, share),
                None => Ended::Held(name, share),
            }
        }
    }
}

/// The topics of a hub, and an empty list with room for what is left of each; `None` where another owner of the hub is left, or there
/// was no memory.
pub(crate) fn take_topics(
    hub: &mut Arc<SharedTopics>,
    alloc: Global,
) -> Option<(Topics, Vec<Ended>)>
    ensures empty { IfSome result (λ r. r.1.items ≡ []) }
    ensures room { IfSome result (λ r. length r.0.entries ≤ vec_capacity r.1) }
    ensures none { IfNone result (arc_value hub.new ≡ arc_value hub.old) }
{
    let hub = Arc::get_mut(hub)?;
    let topics = hub.topics.get_mut();
    let Ok(list) = Vec::with_capacity(alloc, topics.len()) else {
        return None;
    };
    Some((topics.take(alloc), list))
}

/// What is left of each topic, in order of opening, in this list, which has room for it.
pub(crate) fn ends<R: Wait>(rt: &R, topics: Topics, list: Vec<Ended>) -> Vec<Ended>
    requires empty { list.items ≡ [] }
    requires room { length topics.entries ≤ vec_capacity list }
    ensures ends { AreEnds topics.entries result.items }
    ensures order { AreInOrder 1 result.items }
{
    let mut list = list;
    for (name, topic) in topics.into_rows() {
        list.push_reserved(end_of(rt, name, topic));
    }
    list
}
