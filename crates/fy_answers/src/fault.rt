//! Why a line of a script has no answer.
use fy_cluster::Fault;
use fy_spelling::{CommandFault, LineFault};
use std::alloc::AllocError;

/// Why a line of a script has no answer.
#[derive(Clone, Copy, PartialEq, Eq, Debug)]
pub enum AnswerFault {
    /// The line asks for nothing.
    Line(LineFault),
    /// The journal is at its limit.
    JournalFull,
    /// An allocation failed before the act was made.
    NoMemory,
    /// The act is made, and an allocation for the line of its entry failed.
    Unwritten,
}

impl From<CommandFault> for AnswerFault {
    ghost use Rattle.std.specs.Prelude.{◌≡◌};
    ghost use Rattle.fy_answers.specs.Answers.{reading_fault};

    ghost from_gives = { λ fault answer. answer ≡ reading_fault fault };

    fn from(fault: CommandFault) -> AnswerFault {
        match fault {
            CommandFault::Line(fault) => AnswerFault::Line(fault),
            CommandFault::NoMemory => AnswerFault::NoMemory,
        }
    }
}

impl From<Fault> for AnswerFault {
    ghost use Rattle.std.specs.Prelude.{◌≡◌};
    ghost use Rattle.fy_answers.specs.Answers.{entering_fault};

    ghost from_gives = { λ fault answer. answer ≡ entering_fault fault };

    fn from(fault: Fault) -> AnswerFault {
        match fault {
            Fault::JournalFull => AnswerFault::JournalFull,
            Fault::NoMemory => AnswerFault::NoMemory,
        }
    }
}

impl From<AllocError> for AnswerFault {
    ghost use Rattle.std.specs.Prelude.{◌≡◌};
    ghost use Rattle.fy_answers.specs.declared.fault.AnswerFault.TheVariants.{NoMemory};

    ghost from_gives = { λ _ answer. answer ≡ NoMemory };

    fn from(_refused: AllocError) -> AnswerFault {
        AnswerFault::NoMemory
    }
}
