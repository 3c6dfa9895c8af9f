//! What each call answers: a number of one enumeration.
ghost use Rattle.std.specs.Prelude.{◌≡◌};
ghost use Rattle.fy_c.specs.Statuses.{number, ending};

use fy_answers::AnswerFault;
use fy_cluster::Fault;
use fy_config::ConfigFault;
use fy_kinds::Floor;
use fy_spelling::{CommandFault, LineFault};
use std::alloc::{AllocError, AllocFailed};

/// How a call ended. But for `Done`, `Refused` and `Unwritten` nothing changed.
#[derive(Clone, Copy, PartialEq, Eq, Debug)]
pub enum Status {
    /// The call did what its name says.
    Done,
    /// An allocation failed.
    NoMemory,
    /// The journal has as many entries as it may have.
    JournalFull,
    /// The act is refused, and stands in the journal with its refusal.
    Refused,
    /// The buffer is too short; how long it has to be is told.
    Short,
    /// The act is made and stands in the journal, and its line could not be written.
    Unwritten,
    /// The journal has no entry at this place.
    NoEntry,
    /// A number that names a key or a kind is that of none.
    Argument,
    /// The value of the target is no name.
    Name,
    /// The floor of the kill is above its kind.
    Floor,
    /// The line has more than 65,536 bytes.
    LineTooLong,
    /// The line is no command, or no entry of an audit.
    LineSyntax,
    /// The cluster file has more than 1,048,576 bytes.
    ConfigTooLong,
    /// The cluster file is no TOML document in UTF-8.
    ConfigToml,
    /// A key of the cluster file is missing, unknown or of another type, or a word is unknown.
    ConfigField,
    /// A number or a length of the cluster file is outside its range.
    ConfigLimit,
    /// A text of the cluster file is no name, or names what is taken or isn't there.
    ConfigName,
    /// A text of the cluster file is no policy.
    ConfigPolicy,
    /// All processes of the cluster file together don't satisfy a policy.
    ConfigUnmet,
    /// The first line of an audit is no header.
    NoHeader,
    /// The lines of an audit have more than 268,435,456 bytes together.
    AuditTooLong,
    /// An entry of an audit isn't what the rules give.
    Refuted,
}

impl From<AnswerFault> for Status {
    ghost use Rattle.fy_c.specs.Statuses.{answer_status};

    ghost from_gives = { λ fault status. status ≡ answer_status fault };

    fn from(fault: AnswerFault) -> Status {
        match fault {
            AnswerFault::Line(LineFault::TooLong) => Status::LineTooLong,
            AnswerFault::Line(LineFault::Syntax) => Status::LineSyntax,
            AnswerFault::Line(LineFault::Floor) => Status::Floor,
            AnswerFault::JournalFull => Status::JournalFull,
            AnswerFault::NoMemory => Status::NoMemory,
            AnswerFault::Unwritten => Status::Unwritten,
        }
    }
}

impl From<CommandFault> for Status {
    ghost use Rattle.fy_c.specs.Statuses.{reading_status};

    ghost from_gives = { λ fault status. status ≡ reading_status fault };

    fn from(fault: CommandFault) -> Status {
        match fault {
            CommandFault::Line(LineFault::TooLong) => Status::LineTooLong,
            CommandFault::Line(LineFault::Syntax) => Status::LineSyntax,
            CommandFault::Line(LineFault::Floor) => Status::Floor,
            CommandFault::NoMemory => Status::NoMemory,
        }
    }
}

impl From<Fault> for Status {
    ghost use Rattle.fy_c.specs.Statuses.{entering_status};

    ghost from_gives = { λ fault status. status ≡ entering_status fault };

    fn from(fault: Fault) -> Status {
        match fault {
            Fault::JournalFull => Status::JournalFull,
            Fault::NoMemory => Status::NoMemory,
        }
    }
}

impl From<ConfigFault> for Status {
    ghost use Rattle.fy_c.specs.Statuses.{config_status};

    ghost from_gives = { λ fault status. status ≡ config_status fault };

    fn from(fault: ConfigFault) -> Status {
        match fault {
            ConfigFault::TooLong => Status::ConfigTooLong,
            ConfigFault::Toml => Status::ConfigToml,
            ConfigFault::Field { .. } => Status::ConfigField,
            ConfigFault::Limit { .. } => Status::ConfigLimit,
            ConfigFault::Name { .. } => Status::ConfigName,
            ConfigFault::Policy { .. } => Status::ConfigPolicy,
            ConfigFault::PolicyUnmet { .. } => Status::ConfigUnmet,
            ConfigFault::NoMemory => Status::NoMemory,
        }
    }
}

impl From<Floor> for Status {
    ghost use Rattle.fy_c.specs.declared.status.Status.TheVariants as status_is;

    ghost from_gives = { λ _ status. status ≡ status_is.Floor };

    fn from(_: Floor) -> Status {
        Status::Floor
    }
}

impl From<AllocError> for Status {
    ghost use Rattle.fy_c.specs.declared.status.Status.TheVariants.{NoMemory};

    ghost from_gives = { λ _ status. status ≡ NoMemory };

    fn from(_: AllocError) -> Status {
        Status::NoMemory
    }
}

impl<T: Drop> From<AllocFailed<T>> for Status {
    ghost use Rattle.fy_c.specs.declared.status.Status.TheVariants.{NoMemory};

    ghost from_gives = { λ _ status. status ≡ NoMemory };

    fn from(_: AllocFailed<T>) -> Status {
        Status::NoMemory
    }
}

impl Status {
    /// The number by which C knows it.
    pub(crate) fn number(self) -> u32
        ensures { result ≡ number self }
    {
        match self {
            Status::Done => 0,
            Status::NoMemory => 1,
            Status::JournalFull => 2,
            Status::Refused => 3,
            Status::Short => 4,
            Status::Unwritten => 5,
            Status::NoEntry => 6,
            Status::Argument => 7,
            Status::Name => 8,
            Status::Floor => 9,
            Status::LineTooLong => 10,
            Status::LineSyntax => 11,
            Status::ConfigTooLong => 12,
            Status::ConfigToml => 13,
            Status::ConfigField => 14,
            Status::ConfigLimit => 15,
            Status::ConfigName => 16,
            Status::ConfigPolicy => 17,
            Status::ConfigUnmet => 18,
            Status::NoHeader => 20,
            Status::AuditTooLong => 21,
            Status::Refuted => 22,
        }
    }
}

/// The number by which C knows how a call ended.
pub(crate) fn number_of(outcome: Result<(), Status>) -> u32
    ensures { result ≡ number (ending outcome) }
{
    match outcome {
        Ok(()) => Status::Done.number(),
        Err(status) => status.number(),
    }
}
