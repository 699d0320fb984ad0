//! The segment of a topic's history, cut by an owner of its channel.
ghost use Rattle.std.specs.Prelude.{◌≡◌, ◌+◌, ◌⊎◌, IfErr, IfOk};
ghost use Rattle.th_log.specs.History.{IsLegal};
ghost use Rattle.th_registry.specs.Hub.{Cut};
ghost use Rattle.th_shared.specs.Saying.{MaySay};

use crate::handles::TopicOwner;
use std::sync::Wait;
use th_block::Shared;
use th_log::{Kind, Segment};
use th_registry::channel::TopicSegment;
use th_registry::{Channel, NoEvent, TopicId};

// The segment of a channel that is this topic's, by its key.
fn segment_of<O: Kind, R: Wait>(
    rt: &R,
    owner: &Shared<O>,
    topic: TopicId,
) -> Result<Segment<O>, NoEvent>
    requires { O.lawful }
    ensures legal { IfOk result (λ s. IsLegal O.machine O.is_sound s) }
    ensures key { IfOk result (λ s. s.key ≡ topic.0 + 1) }
    ensures why { IfErr result (λ why. (why ≡ NoEvent.NoTopic) ⊎ (why ≡ NoEvent.Short)) }
{
    let Some(key) = topic.0.checked_add(1) else {
        return Err(NoEvent::NoTopic);
    };
    match owner.cut_of(rt, key) {
        Some(Ok(segment)) => Ok(segment),
        Some(Err(_)) => Err(NoEvent::Short),
        None => Err(NoEvent::NoTopic),
    }
}

/// The topic's segment so far, by an owner of its channel. The next one begins.
pub(crate) fn cut<R: Wait>(
    rt: &R,
    owner: &TopicOwner,
    topic: TopicId,
) -> Result<TopicSegment, NoEvent>
    ensures { MaySay (Cut topic.0) result }
{
    match owner {
        Channel::Broadcast(owner) => match segment_of(rt, owner, topic) {
            Ok(segment) => Ok(Channel::Broadcast(segment)),
            Err(why) => Err(why),
        },
        Channel::Watch(owner) => match segment_of(rt, owner, topic) {
            Ok(segment) => Ok(Channel::Watch(segment)),
            Err(why) => Err(why),
        },
    }
}
