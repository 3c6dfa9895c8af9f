//! The engine of `show`: an audit in, a picture of it out.
#![tactic(auto)]

mod by_time;
mod held;
mod laws;
mod show;
mod sketch;

pub use by_time::run_show_by_time;
pub use show::run_show;
