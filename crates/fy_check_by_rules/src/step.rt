//! Entries with what they did.
use fy_acts::Entry;
use fy_locality::ProcSet;
use fy_net::Body;

/// An entry with what it did, found from the entries before it.
#[derive(Drop)]
pub(crate) struct FoundStep {
    pub(crate) entry: Entry,
    /// Whom its target names.
    pub(crate) targets: ProcSet,
    /// The message that it names.
    pub(crate) message: Option<Body>,
    /// The messages that it sent, in order.
    pub(crate) sends: Vec<Body>,
}
