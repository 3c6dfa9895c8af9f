//! A line of a script that may ask, too: an act of an actor, or a question.
ghost use Rattle.fy_asking.specs.Requests.{RequestAnswers};

use crate::Question;
use crate::reading::read_question;
use fy_spelling::{Command, CommandFault, LineFault, read_command};
use std::alloc::Global;

/// What a line asks for.
#[derive(Drop, PartialEq, Eq)]
pub enum Request {
    /// An act of an actor.
    Act(Command),
    /// A question.
    Ask(Question),
}

/// How a question begins in its plain spelling.
const ASKS: &[u8] = b"{\"ask\":";

/// The request of a line, which has no line feed.
///
/// # Errors
///
/// `Line`, in order: `TooLong` for more than 65,536 bytes; `Syntax` for what is neither a command
/// nor a question; `Floor` for a kill, to be made or judged, whose floor is above its kind.
/// `NoMemory` in place of any of them but the first, where an allocation fails.
pub fn read_request(alloc: Global, line: &[u8]) -> Result<Request, CommandFault>
    ensures { RequestAnswers line.now result }
{
    // Which of the two is looked for first is a matter of speed.
    if line.starts_with(ASKS) {
        return ask_or_act(alloc, line);
    }
    match read_command(alloc, line) {
        Ok(command) => Ok(Request::Act(command)),
        Err(CommandFault::Line(LineFault::Syntax)) => match read_question(alloc, line) {
            Ok(question) => Ok(Request::Ask(question)),
            Err(fault) => Err(fault),
        },
        Err(fault) => Err(fault),
    }
}

/// The request of a line that may be a question.
fn ask_or_act(alloc: Global, line: &[u8]) -> Result<Request, CommandFault>
    ensures { RequestAnswers line.now result }
{
    match read_question(alloc, line) {
        Ok(question) => Ok(Request::Ask(question)),
        Err(CommandFault::Line(LineFault::Syntax)) => match read_command(alloc, line) {
            Ok(command) => Ok(Request::Act(command)),
            Err(fault) => Err(fault),
        },
        Err(fault) => Err(fault),
    }
}
