//! The engine of `guard`: a line of a script in, and its entry out before the next, from the start
//! or where an audit ends; and its questions answered, where it may ask.
#![tactic(auto)]

mod after;
mod cut;
mod going_on;
mod guard;
pub mod laws;

pub use after::run_guard_after;
pub use cut::{Cut, cut_line, write_whole};
pub use guard::run_guard;
