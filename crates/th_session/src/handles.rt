//! One actor's handles, by the numbers of their topics.
ghost use Rattle.std.specs.Prelude.{◌≡◌, List, ℕ, IfOk, OnErr, IsSome, is_some};
ghost use Rattle.th_session.specs.Held.{IsReady, handles_at, handles_of, with_sender, with_receiver};

use std::alloc::AllocError;
use th_numbered::ByNumber;

/// The handles on one topic.
#[derive(Drop)]
pub struct Handles<Tx, Rx> {
    pub sender: Option<Tx>,
    pub receiver: Option<Rx>,
}

// Whether a sender of topic `n` is held.
pub(crate) fn has_sender<Tx: Drop, Rx: Drop>(handles: &ByNumber<Handles<Tx, Rx>>, n: u64) -> bool
    ensures { result ≡ is_some (handles_at handles.now.entries n).sender }
{
    match handles.get(n) {
        Some(both) => both.sender.is_some(),
        None => false,
    }
}

// Whether a receiver of topic `n` is held.
pub(crate) fn has_receiver<Tx: Drop, Rx: Drop>(handles: &ByNumber<Handles<Tx, Rx>>, n: u64) -> bool
    ensures { result ≡ is_some (handles_at handles.now.entries n).receiver }
{
    match handles.get(n) {
        Some(both) => both.receiver.is_some(),
        None => false,
    }
}

// Handles of topic `n`, empty ones where there are none: whether they are new.
pub(crate) fn make_ready<Tx: Drop, Rx: Drop>(
    handles: &mut ByNumber<Handles<Tx, Rx>>,
    n: u64,
) -> Result<bool, AllocError>
    ensures ready { IfOk result (λ are_new.
        IsReady are_new handles.old.entries n handles.new.entries) }
    ensures there { IfOk result (λ are_new. IsSome (handles_of handles.new.entries n)) }
    ensures refused { OnErr result (handles.new.entries ≡ handles.old.entries) }
{
    if handles.get(n).is_some() {
        return Ok(false);
    }
    let empty = Handles {
        sender: None,
        receiver: None,
    };
    match handles.insert(n, empty) {
        Ok(_) => Ok(true),
        Err(_) => Err(AllocError),
    }
}

// Takes new handles of topic `n` out again.
pub(crate) fn take_back<Tx: Drop, Rx: Drop>(
    handles: &mut ByNumber<Handles<Tx, Rx>>,
    n: u64,
    are_new: bool,
)
    ensures { (h : List (ℕ × Handles Tx Rx)) → IsReady are_new h n handles.old.entries →
        handles.new.entries ≡ h }
{
    if are_new {
        let _ = handles.remove(n);
    }
}

// Holds the sender at topic `n`.
pub(crate) fn hold_sender<Tx: Drop, Rx: Drop>(
    handles: &mut ByNumber<Handles<Tx, Rx>>,
    n: u64,
    sender: Tx,
)
    requires { IsSome (handles_of handles.old.entries n) }
    ensures { handles.new.entries ≡ with_sender handles.old.entries n sender }
{
    if let Some(both) = handles.get_mut(n) {
        both.sender = Some(sender);
    }
}

// Holds the receiver at topic `n`.
pub(crate) fn hold_receiver<Tx: Drop, Rx: Drop>(
    handles: &mut ByNumber<Handles<Tx, Rx>>,
    n: u64,
    receiver: Rx,
)
    requires { IsSome (handles_of handles.old.entries n) }
    ensures { handles.new.entries ≡ with_receiver handles.old.entries n receiver }
{
    if let Some(both) = handles.get_mut(n) {
        both.receiver = Some(receiver);
    }
}
