//! A simulated network: numbered messages in flight, clogged processes and a clock.
#![tactic(auto)]

mod clog;
mod fault;
pub mod laws;
mod limits;
mod message;
mod net;
mod pool;
mod slot;

pub use fault::NetFault;
pub use limits::{LAST_TICK, MOST_IN_FLIGHT};
pub use message::{Body, Message};
pub use net::Net;
