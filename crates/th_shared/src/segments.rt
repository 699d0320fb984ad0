//! Segments of topics' histories.
ghost use Rattle.std.specs.Prelude.{◌≡◌};
ghost use Rattle.th_shared.specs.Segments.{entries_of};

use th_registry::Channel;
use th_registry::channel::TopicSegment;

/// How many entries a segment has.
pub fn entries_of(segment: &TopicSegment) -> u64
    ensures { result ≡ entries_of segment.now }
{
    match segment {
        Channel::Broadcast(segment) => segment.len(),
        Channel::Watch(segment) => segment.len(),
    }
}
