//! Why `judge` stops before its work is done.
ghost use Rattle.std.specs.Prelude.{◌≡◌};

use fy_lines::{InputFault, OutputFault};
use std::alloc::AllocError;

/// What is wrong with a line of `judge`'s input, in the order in which a line's faults are sought;
/// `PolicyUnmet` comes after every line is faultless.
#[derive(Clone, Copy, Debug, PartialEq, Eq)]
pub enum JudgeFault {
    /// The line is none of the table's, or stands where it may not.
    Syntax,
    /// The policy's text is refused.
    Policy,
    /// The process was listed before.
    Twice,
    /// A ninth policy, or a 1025th process.
    TooMany,
    /// No process has the ID that is asked for.
    Unknown,
    /// All processes together do not satisfy the policy.
    PolicyUnmet,
}

/// Why `judge` stops before its work is done.
#[derive(Clone, Copy, Debug, PartialEq, Eq)]
pub enum JudgeStop {
    /// The input is over 1,048,576 bytes.
    TooLong,
    /// A line of the input is refused; lines count from 1.
    Line { line: u32, fault: JudgeFault },
    /// A call of `read` failed.
    Read,
    /// A call of `write` failed, or took no byte.
    Write,
    /// An allocation for the work failed.
    NoMemory,
}

impl From<InputFault> for JudgeStop {
    ghost use Rattle.fy_judge.specs.JudgeViews.{input_stop_of};

    ghost from_gives = { λ fault stop. stop ≡ input_stop_of fault };

    fn from(fault: InputFault) -> JudgeStop {
        match fault {
            InputFault::TooLong => JudgeStop::TooLong,
            InputFault::Reader => JudgeStop::Read,
            InputFault::NoMemory => JudgeStop::NoMemory,
        }
    }
}

impl From<OutputFault> for JudgeStop {
    ghost use Rattle.fy_judge.specs.declared.stop.JudgeStop.TheVariants.{Write};

    ghost from_gives = { λ _ stop. stop ≡ Write };

    fn from(_fault: OutputFault) -> JudgeStop {
        JudgeStop::Write
    }
}

impl From<AllocError> for JudgeStop {
    ghost use Rattle.fy_judge.specs.declared.stop.JudgeStop.TheVariants.{NoMemory};

    ghost from_gives = { λ _ stop. stop ≡ NoMemory };

    fn from(_refused: AllocError) -> JudgeStop {
        JudgeStop::NoMemory
    }
}
