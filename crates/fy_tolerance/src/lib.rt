//! How much of a cluster may be lost: so many processes, whichever they are, and which machines,
//! zones, halls and data centres whole.
#![tactic(auto)]

mod book;
mod borne;
mod fewest_to_break;
mod fewest_to_satisfy;
mod groups;
mod json;
mod key_values;
pub mod laws;
mod parts;
mod reports;
mod text;
mod tolerance;
mod warnings;

pub use book::{LossesSoFar, book_of};
pub use borne::{Borne, Findings, findings_of, least_any, tolerances_of};
pub use groups::{Group, borne_alone, borne_in_pairs};
pub use reports::{Form, write_findings};
pub use tolerance::{Tolerance, tolerance_of};
