//! A cluster that many actors share, each in a thread of its own: seats, turns and the close.
#![tactic(auto)]

pub mod laws;
mod places;
mod posts;
mod turns;
mod view;
mod yard;

pub use posts::{End, Gate, Post, run_actors};
pub use yard::{CloseFault, Closed, NoMemory, Receipt, Seat, Shared};
