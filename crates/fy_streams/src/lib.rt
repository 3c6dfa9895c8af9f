//! What the engines of the commands share: why one stops, with its fault line and exit status; the
//! readers of whole inputs and of cluster files; the writer of audits.
#![tactic(auto)]

mod audit;
mod load;
mod stop;

pub use audit::{AuditBuffer, BUFFER_BYTES, write_audit};
pub use load::{input_stop, load_bytes, load_config};
pub use stop::{Stop, write_numbered, write_stop};
