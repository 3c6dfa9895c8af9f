//! Where a value of a TOML document stands in its text, by the keys and numbers that lead to it.
#![tactic(auto)]

mod fault;
mod find;
mod inside;
mod pieces;
mod section;
mod span;
mod step;

pub use fault::PlaceFault;
pub use find::find_place;
pub use span::{Place, Span};
pub use step::Step;
