//! Lines of scripts: who asks for which act.
ghost use Rattle.std.specs.Prelude.{◌≡◌};

use crate::Act;
use std::alloc::AllocError;

/// How many bytes a line of a script or an audit may have, without its line end: 65,536.
pub const MOST_LINE_BYTES: usize = 65_536;

/// An act that an actor asks for.
#[derive(PartialEq, Eq)]
pub struct Command {
    /// The number that asks, of an actor or of none.
    pub by: u32,
    pub act: Act,
}

// Written out and not derived: see `Drop` in docs/DECISIONS.md.
impl Drop for Command {
    fn drop(self) {
        let Command { by: _, act: _ } = self;
    }
}

impl Command {
    /// Who asks, and for which act.
    pub fn into_parts(self) -> (u32, Act)
        ensures { result ≡ (self.by, self.act) }
    {
        let Command { by, act } = self;
        (by, act)
    }
}

/// Why a line of a script asks for nothing, the first that holds.
#[derive(Clone, Copy, PartialEq, Eq, Debug)]
pub enum LineFault {
    /// The line has more than 65,536 bytes.
    TooLong,
    /// The line is no JSON object with exactly the members of a command, or one of them isn't as it
    /// has to be.
    Syntax,
    /// The floor of the line's kill is above the kind.
    Floor,
}

/// Why no command is read of a line of a script.
#[derive(Clone, Copy, PartialEq, Eq, Debug)]
pub enum CommandFault {
    /// The line asks for nothing.
    Line(LineFault),
    /// An allocation failed while the line was read.
    NoMemory,
}

impl From<AllocError> for CommandFault {
    ghost use Rattle.fy_spelling.specs.declared.command.CommandFault.TheVariants.{NoMemory};

    ghost from_gives = { λ _ fault. fault ≡ NoMemory };

    fn from(_refused: AllocError) -> CommandFault {
        CommandFault::NoMemory
    }
}
