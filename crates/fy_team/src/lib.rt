//! Teams of processes that satisfy a policy, records that are begun for them, and who has marked
//! each record.
#![tactic(auto)]

mod blocks;
mod fault;
mod forming;
pub mod laws;
mod limits;
mod members;
mod numbers;
mod record;
mod team;
mod teams;

pub use fault::{MembersFault, TeamFault};
pub use limits::{MOST_BYTES, MOST_MEMBERS, MOST_RECORDS, MOST_TEAMS};
pub use members::Members;
pub use teams::Teams;
