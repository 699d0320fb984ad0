//! Calls of th_registry at the desk of threads. One thread's desk never waits.
use std::sync::Wait;
use std::time::Clock;
use th_model::ReceiverVerb;
use th_registry::{Desk, TopicId};
use th_shared::{SharedDesk, TopicReceiver};

pub fn would_wait<R: Wait + Clock + Clone>(desk: &SharedDesk<R>, receiver: &TopicReceiver) -> bool {
    desk.would_wait(TopicId(0), receiver, ReceiverVerb::Recv)
}
