//! Calls of th_session, at a desk of one thread. Its reader and writer are files.
ghost use Rattle.std.specs.Prelude.{◌≡◌, Some};
ghost use Rattle.th_session.specs.declared.fault.SessionFault.TheVariants as faults;

use std::alloc::Global;
use std::fs::File;
use std::time::Clock;
use th_lines::{Command, Counted, WriteBuffer};
use th_model::NameRef;
use th_registry::channel::{TopicReceipt, TopicSegment};
use th_registry::{LocalDesk, TopicId};
use th_session::quiet::{self, Own};
use th_session::{
    Answer, Bounds, Gate, Keeping, OpenGate, Session, SessionFault, append_trace_lines, laws,
    local, run_session,
};

pub fn law() {
    laws::runs_are_seen();
    laws::refusals_have_one_order();
}

pub fn act(
    session: &mut Session<LocalDesk>,
    desk: &mut LocalDesk,
    one: Command<'_>,
    other: Command<'_>,
) -> [Answer; 2] {
    session.spend_all(desk);
    [session.step(desk, one), local::step(session, desk, other)]
}

pub fn answer(
    alloc: Global,
    session: &mut Session<LocalDesk>,
    desk: &mut LocalDesk,
    line: &[u8],
    out: &mut WriteBuffer,
    writer: &mut Counted<File>,
) {
    let _ = session.answer(alloc, desk, line, out, writer);
}

pub fn put_answer(
    session: &Session<LocalDesk>,
    answer: Answer,
    out: &mut WriteBuffer,
    writer: &mut Counted<File>,
) {
    let _ = session.put_answer(answer, out, writer);
}

pub fn append_lines(segment: &TopicSegment, out: &mut WriteBuffer, writer: &mut Counted<File>) {
    let _ = append_trace_lines(segment, out, writer);
}

pub fn act_quietly(
    session: &Session<LocalDesk>,
    desk: &mut LocalDesk,
    name: &NameRef<'_>,
    own: Own,
    out: &mut WriteBuffer,
    writer: &mut Counted<File>,
) {
    let _ = quiet::carry_out(session, &mut desk.topics, name, own, out, writer);
}

pub fn look(session: &Session<LocalDesk>) -> usize {
    let _ = session.last_receipt();
    let _ = session.last_segment();
    session.receipts().len().max(session.segments().len())
}

pub fn forget(session: &mut Session<LocalDesk>, desk: &mut LocalDesk) {
    session.let_go(desk, Keeping::Nothing);
}

pub fn make(alloc: Global) -> Session<LocalDesk> {
    Session::new(alloc)
}

pub fn take_apart(
    session: Session<LocalDesk>,
) -> (Vec<(TopicId, TopicReceipt)>, Vec<(TopicId, TopicSegment)>) {
    session.parts()
}

pub fn ask_gate(gate: &OpenGate) -> bool {
    gate.answered(1, 7);
    gate.may(1, 8) && gate.waits_on(1)
}

pub fn endless() -> Bounds {
    Bounds::none()
}

/// No run ends at the gate that lets every line through, and every session wait.
pub fn run<C: Clock>(
    rt: &C,
    alloc: Global,
    reader: &mut Counted<File>,
    writer: &mut Counted<File>,
    desk: &mut LocalDesk,
) -> (Session<LocalDesk>, Option<SessionFault>)
    ensures gate { result.1 ≡ Some faults.Gate → ⊥ }
    ensures gone { result.1 ≡ Some faults.Gone → ⊥ }
{
    run_session(
        rt,
        alloc,
        reader,
        writer,
        desk,
        &OpenGate,
        1,
        Keeping::Nothing,
        Bounds::usual(),
    )
}
