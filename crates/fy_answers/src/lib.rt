//! What a cluster answers to a line: to an act the line of its entry, to a question that of what is
//! told.
#![tactic(auto)]

mod enters;
mod fault;
mod handled;
mod lines;

pub use enters::Enters;
pub use fault::AnswerFault;
pub use handled::handle;
pub use lines::answer;
