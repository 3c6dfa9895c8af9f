//! Messages: a store of a record to a process, or a process's acknowledgement of one.
ghost use Rattle.std.specs.Prelude.{◌≡◌};
ghost use Rattle.fy_net.specs.Net.{process_of, is_ack_from};

use fy_locality::ProcId;

/// What a message says. One of its ends is a process, the other the client.
#[derive(Clone, Copy, PartialEq, Eq, Debug)]
pub enum Body {
    /// The client asks a process to store a record.
    Store { rec: u32, to: ProcId },
    /// A process acknowledges to the client that it has synced a record.
    Synced { rec: u32, from: ProcId },
}

/// A message and its number.
#[derive(Clone, Copy, PartialEq, Eq, Debug)]
pub struct Message {
    pub number: u64,
    pub body: Body,
}

impl Body {
    /// The process at one end.
    pub(crate) fn process(self) -> ProcId
        ensures { result.0 ≡ process_of self }
    {
        match self {
            Body::Store { to, .. } => to,
            Body::Synced { from, .. } => from,
        }
    }

    /// Whether this is an acknowledgement by a process.
    pub(crate) fn is_ack_from(self, p: ProcId) -> bool
        ensures { result ≡ is_ack_from p.0 self }
    {
        match self {
            Body::Store { .. } => false,
            Body::Synced { from, .. } => from.0 == p.0,
        }
    }
}
