//! Scripts: what many actors ask for, a command a line.
ghost use Rattle.std.specs.Prelude.{◌≡◌, IfOk, IfErr, Ok, Err};
ghost use Rattle.fy_audit.specs.Script.{ScriptOf, ScriptAnswers};

use fy_lines::first_line;
use fy_spelling::{Command, CommandFault, LineFault, read_command};
use std::alloc::{AllocFailed, Global};

/// How many bytes a script may have: 16,777,216.
pub const MOST_SCRIPT_BYTES: usize = 16_777_216;

/// Why a script is refused.
#[derive(Clone, Copy, PartialEq, Eq, Debug)]
pub enum ScriptFault {
    /// The script has more than 16,777,216 bytes.
    TooLong,
    /// The first faulty line, counted from 1, and its first fault.
    Line { number: u32, fault: LineFault },
    /// An allocation for the script failed.
    NoMemory,
}

impl<T: Drop> From<AllocFailed<T>> for ScriptFault {
    ghost use Rattle.std.specs.Prelude.{◌≡◌};
    ghost use Rattle.fy_audit.specs.declared.script.ScriptFault.TheVariants.{NoMemory};

    ghost from_gives = { λ _ fault. fault ≡ NoMemory };

    fn from(_refused: AllocFailed<T>) -> ScriptFault {
        ScriptFault::NoMemory
    }
}

/// The commands of a script, one for each line. The last line may lack its line feed, and a script
/// of no bytes has no lines.
///
/// # Errors
///
/// In this order: `TooLong`; `Line` for the first faulty line; `NoMemory` where an allocation fails
/// before.
pub fn read_script(alloc: Global, bytes: &[u8]) -> Result<Vec<Command>, ScriptFault>
    ensures read { IfOk result (λ commands. ScriptOf bytes.now (Ok commands.items)) }
    ensures refused { IfErr result (λ fault. ScriptAnswers bytes.now (Err fault)) }
{
    if bytes.len() > MOST_SCRIPT_BYTES {
        return Err(ScriptFault::TooLong);
    }
    let mut commands = Vec::new(alloc);
    let mut rest = bytes;
    let mut number = 0;
    while !rest.is_empty() {
        let (line, next) = first_line(rest);
        number += 1;
        match read_command(alloc, line) {
            Ok(command) => commands.push(command)?,
            Err(CommandFault::Line(fault)) => return Err(ScriptFault::Line { number, fault }),
            Err(CommandFault::NoMemory) => return Err(ScriptFault::NoMemory),
        }
        rest = next;
    }
    Ok(commands)
}
