//! Who may do what to which processes: grants of actors and protections of processes.
#![tactic(auto)]

mod book;
mod cover;
mod grant;
pub mod laws;
mod protections;
mod scopes;

pub use book::{Book, BookFault, MOST_GRANTS};
pub use grant::{Grant, Scope};
