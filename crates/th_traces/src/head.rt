//! The first line of a trace.
ghost use Rattle.std.specs.Prelude.{◌≡◌};
ghost use Rattle.th_traces.specs.Versions.{version_with};

use th_model::{BCall, Value};

/// The version of a broadcast trace. A watch trace has one version alone.
#[derive(Clone, Copy, Debug, Drop, PartialEq, Eq)]
pub enum Version {
    /// Without the call `subscribe-oldest`.
    One,
    /// With it.
    Two,
}

/// What the first line of a trace says of how the others are read.
#[derive(Clone, Copy, Debug, Drop, PartialEq, Eq)]
pub enum Head {
    /// It is the trace of a broadcast channel.
    Broadcast(Version),
    /// It is the trace of a watch channel.
    Watch,
}

impl Version {
    /// The version of a trace with this call too, which begins at `One`.
    pub fn with_call(self, call: &BCall<Value>) -> Version
        ensures { result ≡ version_with self call.now }
    {
        match call {
            BCall::SubscribeOldest(_) => Version::Two,
            _ => self,
        }
    }
}
