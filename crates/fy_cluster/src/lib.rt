//! The cluster, which replies to acts and keeps the journal; what it begins with, what a journal
//! says of it, and what every legal journal keeps.
#![tactic(auto)]

mod acts;
mod asked;
mod clock;
mod clogs;
mod cluster;
mod cluster_state;
mod config;
mod copying;
pub mod effects;
mod fault;
mod healing;
mod keeper;
mod kills;
pub mod laws;
mod machine;
mod messages;
mod needs;
mod opening;
mod processes;
mod replacing;
mod rights;
mod role;
mod sight;
mod status;
mod teams;
mod trail;

pub use cluster::Cluster;
pub use cluster_state::ClusterState;
pub use config::{Config, MOST_ACTORS, MOST_JOURNAL_ENTRIES, MakeFault, Protection};
pub use fault::Fault;
pub use role::Role;
pub use sight::Sight;
pub use status::Status;
