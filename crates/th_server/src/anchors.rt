//! What people are told of the files of each topic, so that they can hold the files against it later.
use crate::sums::Chain;
use std::alloc::{AllocError, Global};
use std::io::Eprint;
use std::sync::{Mutex, Wait};
use th_registry::{MOST_TOPICS, TopicId};

/// How far the sums of each topic's files go.
#[derive(Drop)]
pub(crate) struct Anchors {
    // By the topic's number; of none where no sums are wanted.
    chains: Mutex<Vec<Chain>>,
}

// The chains of all topics, before any has a file.
fn beginnings(alloc: Global) -> Result<Vec<Chain>, AllocError> {
    let mut chains = Vec::with_capacity(alloc, MOST_TOPICS)?;
    for _ in 0..MOST_TOPICS {
        chains.push(Chain::Begins)?;
    }
    Ok(chains)
}

impl Anchors {
    /// Before any topic has a file.
    pub(crate) fn new(alloc: Global, are_wanted: bool) -> Result<Anchors, AllocError> {
        let chains = if are_wanted {
            beginnings(alloc)?
        } else {
            Vec::new(alloc)
        };
        Ok(Anchors {
            chains: Mutex::new(chains),
        })
    }

    /// What the sum of this topic's next file is to bind.
    pub(crate) fn next<R: Wait>(&self, rt: &R, topic: TopicId) -> Chain {
        let chains = self.chains.lock(rt);
        match chains.get(topic.0 as usize) {
            Some(chain) => *chain,
            None => Chain::Loose,
        }
    }

    // What it is from now on.
    fn put<R: Wait>(&self, rt: &R, topic: TopicId, chain: Chain) {
        let mut chains = self.chains.lock(rt);
        if let Some(at) = chains.get_mut(topic.0 as usize) {
            *at = chain;
        }
    }

    /// A file of this topic is there, by the name of its start and its own, and binds the next one so. Its sum is told where there is
    /// one; where there is none any more, that.
    pub(crate) fn tell<R: Wait + Eprint>(
        &self,
        rt: &R,
        topic: TopicId,
        start: &str,
        name: &str,
        next: Chain,
    ) {
        if self.next(rt, topic) == Chain::Loose {
            return;
        }
        self.put(rt, topic, next);
        let _ = match next {
            Chain::GoesOn(sum) => eprintln!(rt; "topichub: anchor {start}/{name} {sum}"),
            _ => eprintln!(rt;
                "topichub: {start}/{name}: it cannot be read again, so this topic has no further anchors"
            ),
        };
    }
}
