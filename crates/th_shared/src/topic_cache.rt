//! The topics that a desk finds without their lock.
ghost use Rattle.std.specs.Prelude.{◌≡◌, [], MatchOption, nat_eq, slice_get};
ghost use Rattle.std.specs.Cmp.Lexicographic.{pointwise};
ghost use Rattle.th_registry.specs.Kinds.{kind_of};
ghost use Rattle.th_shared.specs.Cache.{Learns, found_in, named};

use crate::registry::Topics;
use std::alloc::Global;
use std::collections::HashMap;
use std::marker::Model;
use th_model::{Name, NameRef};
use th_registry::{Found, TopicId};

/// The most topics that are looked through one by one.
const FEW: usize = 4;

/// Topics of which a desk had a handle made. A topic stays under its name, so each of them is found without a lock.
///
/// Contracts see what is found under each name.
#[derive(Drop)]
pub(crate) struct TopicCache {
    // The first few. Most sessions are on no more, and these are found without a hash.
    few: Vec<(Name, Found)>,
    // Those that came when there were few already.
    others: HashMap<Name, Found>,
}

impl Model for TopicCache {
    ghost use Rattle.th_shared.specs.Cache.{Cached};

    ghost Value = { Cached };

    ghost view = { λ c. record { few = c.few.items; others = c.others.entries } };
}

// Whether these are the same bytes. They are few, so that each is compared by itself.
#[inline(always)]
fn is_same(one: &[u8], other: &[u8]) -> bool
    ensures { result ≡ pointwise nat_eq one.now other.now }
{
    if one.len() != other.len() {
        return false;
    }
    for at in 0..one.len() {
        if one[at] != other[at] {
            return false;
        }
    }
    true
}

// The first of these topics that has a name with these bytes.
#[inline(always)]
fn find_among(topics: &[(Name, Found)], name: &[u8]) -> Option<Found>
    ensures { result ≡ named name.now topics.now }
{
    for (known, found) in topics {
        if is_same(name, known.as_bytes()) {
            return Some(*found);
        }
    }
    None
}

impl TopicCache {
    /// None.
    pub(crate) fn new(alloc: Global) -> TopicCache
        ensures { result ≡ record { few = []; others = [] } }
    {
        TopicCache {
            few: Vec::new(alloc),
            others: HashMap::new(alloc),
        }
    }

    /// The topic of this name, if it is in the cache.
    #[inline(always)]
    pub(crate) fn find(&self, name: &NameRef<'_>) -> Option<Found>
        ensures { result ≡ found_in self.now name.now }
    {
        if let Some(found) = find_among(self.few.as_slice(), name.as_bytes()) {
            return Some(found);
        }
        if self.others.is_empty() {
            return None;
        }
        match self.others.get(&name.to_name()) {
            Some(found) => Some(*found),
            None => None,
        }
    }

    // Puts a topic under a name of which nothing is known.
    fn put(&mut self, name: Name, found: Found)
        ensures { Learns self.old self.new name found }
    {
        if self.few.len() < FEW {
            let _ = self.few.push((name, found));
        } else {
            let _ = self.others.insert(name, found);
        }
    }

    /// Puts this topic into the cache; without memory for it, it is left out.
    pub(crate) fn add(&mut self, topics: &Topics, topic: TopicId)
        ensures { MatchOption (slice_get topics.now.entries topic.0) (self.new ≡ self.old)
            (λ row. Learns self.old self.new row.0
            (record { topic = topic; kind = kind_of row.1 })) }
    {
        let Some((name, at)) = topics.get_index(topic.0 as usize) else {
            return;
        };
        if find_among(self.few.as_slice(), name.as_bytes()).is_some() {
            return;
        }
        let kind = at.kind();
        if let Ok(name) = name.clone() {
            self.put(name, Found { topic, kind });
        }
    }
}
