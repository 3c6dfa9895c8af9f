//! `read_command`, the reader of a script's lines: a scan reads a line in its plain spelling, as a
//! shortcut; any other line is read as a JSON value. Both answer the same, so the scan is there for
//! speed alone.
ghost use Rattle.fy_spelling.specs.Command.{LineAnswers};

use crate::reading::read_command_by_value;
use crate::scan::scan_command;
use crate::{Command, CommandFault, LineFault, MOST_LINE_BYTES};
use std::alloc::Global;

/// The command of a line of a script. The line has no line feed.
///
/// # Errors
///
/// `Line`, in order: `TooLong` for more than 65,536 bytes; `Syntax` for what is no JSON object with
/// exactly the members of a command, or has a member that isn't as it has to be; `Floor` for a kill
/// whose floor is above its kind. `NoMemory` in place of any of them but the first, where an
/// allocation fails.
pub fn read_command(alloc: Global, line: &[u8]) -> Result<Command, CommandFault>
    ensures { LineAnswers line.now result }
{
    if line.len() > MOST_LINE_BYTES {
        return Err(CommandFault::Line(LineFault::TooLong));
    }
    match scan_command(alloc, line) {
        Some(command) => Ok(command),
        None => read_command_by_value(alloc, line),
    }
}
