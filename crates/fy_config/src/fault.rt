//! Why bytes are no cluster file.
use std::alloc::{AllocError, AllocFailed};
use std::fmt;
use thiserror::Error;

/// A part of a cluster file, in the order in which parts are looked at.
#[derive(Clone, Copy, PartialEq, Eq, Debug)]
pub enum Part {
    /// How many entries the journal may have.
    JournalLimit,
    /// The texts of the policies.
    Policies,
    /// The processes, each with its locality.
    Process,
    /// The actors, each with its role and its first grants.
    Actor,
    /// The first protections.
    Protect,
    /// A key at the top that is none of the others.
    Unknown,
}

impl Part {
    ghost use Rattle.std.specs.Prelude.{◌≡◌};
    ghost use Rattle.fy_config.specs.Parts.{part_text};

    /// The key of the part at the top of a file.
    fn key(self) -> &'static str
        ensures { result.now ≡ part_text self }
    {
        match self {
            Part::JournalLimit => "journal_limit",
            Part::Policies => "policies",
            Part::Process => "process",
            Part::Actor => "actor",
            Part::Protect => "protect",
            Part::Unknown => "an unknown key",
        }
    }
}

impl fmt::Display for Part {
    ghost use Rattle.std.specs.Prelude.{Some};
    ghost use Rattle.fy_config.specs.Parts.{part_text};

    ghost output = { λ part. Some (part_text part) };

    fn fmt<W: fmt::Write>(&self, f: &mut fmt::Formatter<W>) -> fmt::Result {
        f.write_str(self.key())
    }
}

/// Why bytes are no cluster file. The first that holds is given, in this order, and of one kind the
/// first part, and of one part the least place; an allocation failure can take the place of any
/// answer.
#[derive(Clone, Copy, PartialEq, Eq, Debug, Error)]
pub enum ConfigFault {
    /// The file has over 1,048,576 bytes.
    #[error("the file is longer than 1,048,576 bytes")]
    TooLong,
    /// The bytes are no TOML document, or no UTF-8.
    #[error("the file is no TOML document in UTF-8")]
    Toml,
    /// A key is missing or unknown, its value is of another type, or a word is none of those that
    /// may stand there.
    #[error("{part}: a key is missing, unknown or of another type, or a word is unknown")]
    Field { part: Part },
    /// A number or a length is outside its range.
    #[error("{part}: a number or a length is outside its range")]
    Limit { part: Part },
    /// A text is no name, a process has the name of an earlier one, or a protected process isn't
    /// there or was named before.
    #[error("{part} {index}: a text is no name, or names what is taken or isn't there")]
    Name { part: Part, index: usize },
    /// The text of the policy at this place is no policy.
    #[error("the text of policy {index} is no policy")]
    Policy { index: usize },
    /// All processes together don't satisfy the policy at this place.
    #[error("policy {index} isn't satisfied by all processes")]
    PolicyUnmet { index: usize },
    /// An allocation for the configuration failed.
    #[error("there was no memory for the file")]
    NoMemory,
}

impl From<AllocError> for ConfigFault {
    ghost use Rattle.fy_config.specs.declared.fault.ConfigFault.TheVariants.{NoMemory};
    ghost use Rattle.std.specs.Prelude.{◌≡◌};

    ghost from_gives = { λ _ e. e ≡ NoMemory };

    fn from(_: AllocError) -> ConfigFault {
        ConfigFault::NoMemory
    }
}

impl<T: Drop> From<AllocFailed<T>> for ConfigFault {
    ghost use Rattle.fy_config.specs.declared.fault.ConfigFault.TheVariants.{NoMemory};
    ghost use Rattle.std.specs.Prelude.{◌≡◌};

    ghost from_gives = { λ _ e. e ≡ NoMemory };

    fn from(_: AllocFailed<T>) -> ConfigFault {
        ConfigFault::NoMemory
    }
}
