//! How questions are read of a line, beside acts, and how what is told is written as one.
#![tactic(auto)]

mod parts;
mod reading;
mod request;
mod told_line;
mod writing;

pub use fy_questions::{Question, Told};
pub use reading::read_question;
pub use request::{Request, read_request};
pub use told_line::push_told_line;
