//! What an actor may be barred from.
ghost use Rattle.std.specs.Prelude.{◌≡◌};
ghost use Rattle.fy_kinds.specs.Kinds.{has, is_destroying, destroys_for_good, is_kill_which};
ghost use Rattle.fy_check_by_rules.specs.Deeds.{deed_of};

use fy_kinds::{Kind, KindSet};

/// A strike by a kind, or a clog.
#[derive(Clone, Copy)]
pub(crate) enum AskedDeed {
    Strike(Kind),
    Clog,
}

impl AskedDeed {
    /// Whether it is a member of the set.
    pub(crate) fn is_in(self, kinds: KindSet) -> bool
        ensures { result ≡ has kinds (deed_of self) }
    {
        match self {
            AskedDeed::Strike(kind) => kinds.has(kind),
            AskedDeed::Clog => kinds.has_clog(),
        }
    }

    /// Whether it empties disks.
    pub(crate) fn destroys(self) -> bool
        ensures { result ≡ is_kill_which is_destroying (deed_of self) }
    {
        match self {
            AskedDeed::Strike(kind) => kind.is_destroying(),
            AskedDeed::Clog => false,
        }
    }

    /// Whether it leaves nobody to come back.
    pub(crate) fn destroys_for_good(self) -> bool
        ensures { result ≡ is_kill_which destroys_for_good (deed_of self) }
    {
        match self {
            AskedDeed::Strike(kind) => kind.destroys_for_good(),
            AskedDeed::Clog => false,
        }
    }
}
