//! The versions of a journal's rules.
ghost use Rattle.std.specs.Prelude.{◌≡◌};
ghost use Rattle.fy_acts.specs.Versions.{knows};

use crate::Act;

/// The rules by which a journal is read. Both versions give the same reply to the same act, but the
/// first lacks three acts.
#[derive(Clone, Copy, PartialEq, Eq, Debug)]
pub enum Version {
    /// There are no `CopyTo`, `Replace` and `Heal`: a journal with one of them isn't legal.
    First,
    /// All acts are there.
    Second,
}

impl Version {
    /// Whether the version has such an act: the first has no `CopyTo`, `Replace` and `Heal`.
    pub fn knows(self, act: &Act) -> bool
        ensures { result ≡ knows self act.now }
    {
        match act {
            Act::CopyTo { .. } | Act::Replace { .. } | Act::Heal { .. } => self == Version::Second,
            Act::Kill { .. }
            | Act::Clog { .. }
            | Act::Unclog { .. }
            | Act::Form { .. }
            | Act::Begin { .. }
            | Act::Deliver { .. }
            | Act::Lose { .. }
            | Act::Resend { .. }
            | Act::Sync { .. }
            | Act::Up { .. }
            | Act::Tick { .. }
            | Act::Give { .. }
            | Act::Take { .. }
            | Act::Protect { .. }
            | Act::Unprotect { .. } => true,
        }
    }
}
