//! One session.
ghost use Rattle.std.specs.Prelude.{◌≡◌};
ghost use Rattle.th_session.specs.Ending.{devices};
ghost use Rattle.th_session.specs.Run.{strictness};
ghost use Rattle.th_shared.specs.Saying.{Says};
ghost use Rattle.th_sockets.specs.Attended.{WasRun};

use crate::observer::Observer;
use crate::terms::Terms;
use std::alloc::Global;
use std::io::{Read, Write};
use std::sync::Wait;
use std::time::Clock;
use th_lines::Counted;
use th_registry::TopicId;
use th_registry::channel::{TopicReceipt, TopicSegment};
use th_seats::Share;
use th_session::{Gate, SessionFault, run_session};
use th_shared::SharedDesk;

/// A session that has ended. It holds no handle. None is made but by a run.
#[derive(Drop)]
pub struct Attended {
    /// The receipts that it was answered, each with its topic, if they were kept.
    pub receipts: Vec<(TopicId, TopicReceipt)>,
    /// The segments that it was answered, each with its topic, if they were kept.
    pub segments: Vec<(TopicId, TopicSegment)>,
    /// The shares of the handles that it held, each with its topic.
    pub shares: Vec<(TopicId, Share)>,
    /// Why it ended before its input did, and before it was answered `BYE`.
    pub fault: Option<SessionFault>,
    // So that no other module makes one.
    made: (),
}

/// Runs a session over these devices at this desk, and says who ended. What these devices are is not known here: so what is said of
/// the run is so of this one.
pub(crate) fn attend<
    R: Wait + Clock + Clone,
    I: Read + Drop,
    W: Write + Drop,
    G: Gate,
    O: Observer,
>(
    rt: &R,
    alloc: Global,
    input: I,
    output: W,
    desk: SharedDesk<R>,
    terms: &Terms<'_, G>,
    observer: &O,
) -> Attended
    ensures { WasRun Says
        (strictness G.holds_back G.lets G.gives_up (terms.now.gate.now, terms.now.number))
        terms.now.keeping terms.now.bounds
        (devices I.remaining (record { device = input; calls = 0; failures = 0 })
        W.contents (record { device = output; calls = 0; failures = 0 }))
        desk result }
{
    let mut desk = desk;
    let mut reader = Counted::new(input);
    let mut writer = Counted::new(output);
    let (session, fault) = run_session(
        rt,
        alloc,
        &mut reader,
        &mut writer,
        &mut desk,
        terms.gate,
        terms.number,
        terms.keeping,
        terms.bounds,
    );
    observer.ended(terms.number, fault);
    let (receipts, segments) = session.parts();
    Attended {
        receipts,
        segments,
        shares: desk.into_shares(),
        fault,
        made: (),
    }
}
