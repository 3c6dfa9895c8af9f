//! Actors that play on one thread: what each does at its turn, by the words of its stream and by
//! what the cluster shows.
#![tactic(auto)]

mod draws;
mod faults;
mod knowledge;
pub mod laws;
mod operator;
mod orders;
mod picks;
mod player;
mod rounds;
mod storage;

pub use draws::{Draws, Words};
pub use faults::{FaultPlayer, Plan};
pub use knowledge::{Mending, Note};
pub use orders::Orders;
pub use player::{Part, Player};
pub use storage::StoragePlayer;
