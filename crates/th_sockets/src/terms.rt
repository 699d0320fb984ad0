//! As what a session is run.
ghost use Rattle.std.specs.Prelude.{◌≡◌};

use crate::attended::Attended;
use std::thread::Promise;
use th_session::{Bounds, Gate, Keeping};

/// As what a session is run: at which gate and under which number there, what is kept of its answers, and how long it may be.
#[derive(Drop)]
pub(crate) struct Terms<'g, G> {
    pub(crate) gate: &'g G,
    pub(crate) number: u64,
    pub(crate) keeping: Keeping,
    pub(crate) bounds: Bounds,
}

impl<'g, G> Terms<'g, G> {
    /// The same once more.
    pub(crate) fn again(&self) -> Terms<'g, G>
        ensures { result ≡ self.now }
    {
        Terms {
            gate: self.gate,
            number: self.number,
            keeping: self.keeping,
            bounds: self.bounds,
        }
    }
}

/// Of a session that was run so.
impl<'g, G: Gate> Promise<Attended> for Terms<'g, G> {
    ghost use Rattle.th_sockets.specs.Terms.{HasEndedBy};

    ghost kept_by = { HasEndedBy G.holds_back G.lets G.gives_up };
}
