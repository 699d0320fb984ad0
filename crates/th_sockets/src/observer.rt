//! Who hears of sessions as they end.
use th_session::SessionFault;

/// Hears of each session once it has ended and holds nothing any more. It is called by the session's own thread.
pub trait Observer {
    /// The session of this number has ended, and by which fault, if there was one.
    fn ended(&self, session: u64, fault: Option<SessionFault>);
}

/// Hears nothing.
#[derive(Clone, Copy, Debug, Drop)]
pub struct Unheard;

impl Observer for Unheard {
    fn ended(&self, _session: u64, _fault: Option<SessionFault>) {}
}
