//! Whether a history of one register is linearizable, where each value is written once.
#![tactic(auto)]

mod evidence;
mod judging;
mod keyed;
pub mod laws;
mod operation;
mod zone;

pub use evidence::{Evidence, Judgement, Span};
pub use judging::judge;
pub use keyed::{Keyed, judge_each, split_by_key};
pub use operation::{Act, Operation, is_history};
