//! The engine of `bears`: what a cluster bears, from its start or from the end of an audit on.
#![tactic(auto)]

mod bears;
mod forgetting;
mod lost;
mod spelling;
mod text;
mod told;

pub use bears::{run_bears, run_bears_after};
pub use lost::losses_in;
pub use spelling::Spelling;
pub use told::Told;
