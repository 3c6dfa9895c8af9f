//! Checks a journal by the definitions of the rules: each is a small function that reads it off the
//! entries before. There is no cluster. The contract is that of `fy_replay::replay`.
//!
//! - `checking`: a journal, one entry after another, each with its `Past`.
//! - `reply`: the reply to an act, a file for each group of acts: `kills` (Kill, Clog, Unclog),
//!   `teams` (Form, Replace), `records` (Begin, Deliver, Lose, Resend, Sync, CopyTo), `processes`
//!   (Up, Heal), `clock` (Tick) and `rights` (Give, Take, Protect, Unprotect).
//! - `rules`: the five rules and the verdict on an order, over `permission` and `policies`.
//! - `doing`: what an entry did.
//! - `strikes`, `writes`, `teams`, `marks`, `needs`, `network`, `clock`, `rights`: what the entries
//!   before say. What one entry did is `fy_cluster::effects`.
//! - `laws`: what is synced, by the places of entries.
//!
//! A private function that answers a `Result` fails in one way: with `AllocError`, where an
//! allocation fails for a list that it reads off.
#![tactic(auto)]

mod asked;
mod checking;
mod clock;
mod doing;
pub mod laws;
mod marks;
mod needs;
mod network;
mod past;
mod permission;
mod policies;
mod reply;
mod rights;
mod rules;
mod step;
mod strikes;
mod teams;
mod writes;

pub use checking::check;
