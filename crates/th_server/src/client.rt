//! Whether a client is still there.
ghost use Rattle.std.specs.Prelude.{false};

use crate::connections::Connections;
use std::io::Write;
use std::os::unix::net::UnixStream;
use th_session::Gate;

/// Lets every line of a client through, and lets it wait as long as the client is there and the server goes on.
#[derive(Drop)]
pub(crate) struct Client<'a> {
    pub(crate) connections: &'a Connections,
    pub(crate) stream: &'a UnixStream,
}

impl<'a> Gate for Client<'a> {
    ghost holds_back = { λ _ _ _. false };

    fn may(&self, _session: u64, _line: u64) -> bool {
        true
    }

    fn answered(&self, _session: u64, _line: u64) {}

    // A write of nothing fails where the other end is closed, and does not where the client has only ended its input.
    fn waits_on(&self, _session: u64) -> bool {
        let mut stream = self.stream;
        !self.connections.is_ending() && stream.write(&[]).is_ok()
    }
}
