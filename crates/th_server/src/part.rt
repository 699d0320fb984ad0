//! A part of a topic's history: which topic's it is, its name as a file, and its trace.
ghost use Rattle.std.specs.Prelude.{◌≡◌, IfOk, IsSome, IsTrue, None, string_bytes};
ghost use Rattle.std.specs.Io.KnownBytes.{Appends};
ghost use Rattle.th_program.specs.PartNames.{part_name};
ghost use Rattle.th_server.specs.Parts.{first_of, topic_of};
ghost use Rattle.th_session.specs.Answer.{trace_lines};
ghost use Rattle.th_traces.specs.Spelled.{text};

use crate::parts::{Keeper, Store, Stored};
use std::alloc::{AllocError, Global};
use std::io::{Eprint, Write};
use std::sync::Wait;
use th_lines::{Counted, WriteBuffer};
use th_model::Name;
use th_program::part_name;
use th_registry::channel::TopicSegment;
use th_registry::{Channel, TopicId};
use th_session::append_trace_lines;

// The topic that a part is of: a channel's key is its topic's number, counted from 1.
fn topic_of(part: &TopicSegment) -> TopicId
    ensures { result ≡ topic_of part.now }
{
    let key = match part {
        Channel::Broadcast(part) => part.key(),
        Channel::Watch(part) => part.key(),
    };
    TopicId(key.saturating_sub(1))
}

// The number of a part's first event, counted from 1.
fn first_of(part: &TopicSegment) -> u64
    ensures { result ≡ first_of part.now }
{
    match part {
        Channel::Broadcast(part) => part.first() + 1,
        Channel::Watch(part) => part.first() + 1,
    }
}

/// The name of the file of a part of this topic.
pub(crate) fn file_of(
    alloc: Global,
    topic: &Name,
    part: &TopicSegment,
) -> Result<String, AllocError>
    ensures { IfOk result (λ name.
        string_bytes name ≡ part_name topic.now (first_of part.now)) }
{
    part_name(alloc, topic.as_bytes(), first_of(part))
}

/// Writes the trace of a part, and says whether all of it is there.
pub(crate) fn put_trace<W: Write>(
    alloc: Global,
    part: &TopicSegment,
    writer: &mut Counted<W>,
) -> bool
    ensures { IsTrue result → Appends (W.contents writer.old.device)
        (W.contents writer.new.device) (text (trace_lines part.now)) }
{
    let Ok(mut out) = WriteBuffer::new(alloc) else {
        return false;
    };
    let Ok(()) = append_trace_lines(part, &mut out, writer) else {
        return false;
    };
    match out.flush(writer) {
        Ok(()) => true,
        Err(_) => false,
    }
}

/// A part that was taken out of a topic's history. It has no `Drop`, so that none is let go of in silence: it goes by `store`.
pub(crate) struct Part {
    segment: TopicSegment,
}

/// A part that should be in a file and is in none, or in one that may not stay. It has no `Drop` either: it goes once people are told.
pub(crate) struct Missing {
    segment: TopicSegment,
}

impl Part {
    pub(crate) fn new(segment: TopicSegment) -> Part
        ensures { result.segment ≡ segment }
    {
        Part { segment }
    }

    /// The topic that it is of.
    pub(crate) fn topic(&self) -> TopicId
        ensures { result ≡ topic_of self.now.segment }
    {
        topic_of(&self.segment)
    }

    /// Stores it where the keeper keeps such parts; without a folder it is let go. It is missing where its file is not there, or may not
    /// stay, or its topic's name is unknown.
    pub(crate) fn store<R: Wait + Eprint + Store>(
        self,
        rt: &R,
        alloc: Global,
        keeper: &Keeper<'_>,
        topic: Option<&Name>,
    ) -> Option<Missing>
        ensures unwanted { keeper.now.folder ≡ None → result ≡ None }
        ensures unnamed { IsSome keeper.now.folder → topic.entry ≡ None → IsSome result }
    {
        let Part { segment } = self;
        let Some(folder) = keeper.folder else {
            return None;
        };
        let Some(name) = topic else {
            return Some(Missing { segment });
        };
        let topic = topic_of(&segment);
        let chain = keeper.anchors.next(rt, topic);
        match rt.store(alloc, &folder, name, &segment, chain) {
            Stored::Needless => None,
            Stored::There {
                name,
                next,
                is_synced,
            } => {
                keeper
                    .anchors
                    .tell(rt, topic, folder.start(), name.as_str(), next);
                if is_synced {
                    None
                } else {
                    Some(Missing { segment })
                }
            }
            Stored::Missing => Some(Missing { segment }),
        }
    }
}

impl Missing {
    /// People are told.
    pub(crate) fn tell<R: Eprint>(self, rt: &R, keeper: &Keeper<'_>) {
        let Missing { segment: _segment } = self;
        keeper.say_failed(rt);
    }
}
