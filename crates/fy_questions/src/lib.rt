//! What may be asked of a cluster, and what is told: a value for each question, and nothing changes.
#![tactic(auto)]

mod answering;
mod bearing;
pub mod laws;
mod question;
mod states;
mod told;

pub use answering::answer;
pub use question::{Attempt, Question};
pub use told::{Bearing, ClusterNow, Missing, ProcessState, RecordState, Told};
