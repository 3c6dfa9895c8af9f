//! Checks a journal by replaying it: a cluster makes its acts once more, and the replies are
//! compared.
#![tactic(auto)]

mod fault;
pub mod laws;
mod replaying;

pub use fault::CheckFault;
pub use replaying::{Replayer, replay};
