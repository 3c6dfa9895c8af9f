//! Sets of the four kinds of kill and of clogging.
ghost use Rattle.std.specs.Prelude.{⊤, ◌≡◌, IsTrue, ◌↔◌};
ghost use Rattle.fy_kinds.specs.Kinds.{has, no_deed, every_deed, only, in_either, in_each, in_first_alone, has_all, has_some, set_named, table};
ghost use Rattle.fy_kinds.specs.Kinds.{Striking, Clogging};

use crate::Kind;
use bitflags::{Flag, Flags};
use std::marker::Model;

/// A bit for each member of a set: the four kinds of kill from the mildest, then clogging.
#[derive(Clone, Copy, PartialEq, Eq, Debug)]
struct MemberBits(u8);

impl MemberBits {
    const REBOOT_PROCESS: MemberBits = MemberBits(1);

    const REBOOT: MemberBits = MemberBits(2);

    const REBOOT_AND_DELETE: MemberBits = MemberBits(4);

    const KILL_INSTANTLY: MemberBits = MemberBits(8);

    const CLOG: MemberBits = MemberBits(16);

    /// Every member with its text, in the order in which sets are written.
    const FLAGS: [Flag<MemberBits>; 5] = [
        Flag {
            name: "RebootProcess",
            value: MemberBits::REBOOT_PROCESS,
        },
        Flag {
            name: "Reboot",
            value: MemberBits::REBOOT,
        },
        Flag {
            name: "RebootAndDelete",
            value: MemberBits::REBOOT_AND_DELETE,
        },
        Flag {
            name: "KillInstantly",
            value: MemberBits::KILL_INSTANTLY,
        },
        Flag {
            name: "Clog",
            value: MemberBits::CLOG,
        },
    ];
}

impl Flags for MemberBits {
    type Bits = u8;

    ghost exact = { ⊤ };

    ghost table = { table };

    ghost set_of = { λ bits. bits.0 };

    fn flags<'a>() -> &'a [Flag<MemberBits>] {
        &MemberBits::FLAGS
    }

    fn bits(&self) -> u8 {
        self.0
    }

    fn from_bits_retain(bits: u8) -> MemberBits {
        MemberBits(bits)
    }
}

/// What a grant allows or a protection forbids: any of the four kinds of kill, and clogging.
#[derive(Clone, Copy, PartialEq, Eq, Debug)]
pub struct KindSet {
    bits: MemberBits,
}

impl Model for KindSet {
    ghost use Rattle.std.specs.Prelude.{◌<◌};
    ghost use Rattle.std.proofs.Common.{ap};
    ghost use Rattle.fy_kinds.specs.Members.{Members};
    ghost use Rattle.fy_kinds.specs.Kinds.{bits_of, set_of_bits};
    ghost use Rattle.fy_kinds.specs.BitsBack.{bits_back};

    ghost Value = { Members };

    ghost view = { λ s. set_of_bits s.bits.0 };

    ghost invariant = { λ s. s.bits.0 < 32 };

    ghost inverse = { λ members. record { bits = record { 0 = bits_of members } } };

    ghost inverse_ok = { λ s small i. record { bits = record { 0 = bits_back s.bits.0 small i } } };
}

impl KindSet {
    /// The set of no member.
    pub fn empty() -> KindSet
        ensures { result ≡ no_deed }
    {
        KindSet {
            bits: MemberBits::empty(),
        }
    }

    /// The set of every member.
    pub fn all() -> KindSet
        ensures { result ≡ every_deed }
    {
        KindSet {
            bits: MemberBits::all(),
        }
    }

    /// The set of one kind of kill.
    pub fn of(kind: Kind) -> KindSet
        ensures { result ≡ only (Striking kind) }
    {
        let bits = match kind {
            Kind::RebootProcess => MemberBits::REBOOT_PROCESS,
            Kind::Reboot => MemberBits::REBOOT,
            Kind::RebootAndDelete => MemberBits::REBOOT_AND_DELETE,
            Kind::KillInstantly => MemberBits::KILL_INSTANTLY,
        };
        KindSet { bits }
    }

    /// The set of clogging alone.
    pub fn of_clog() -> KindSet
        ensures { result ≡ only Clogging }
    {
        KindSet {
            bits: MemberBits::CLOG,
        }
    }

    /// The set of the one member that is written so, if one is: a kind's text, or `Clog`.
    pub fn named(text: &str) -> Option<KindSet>
        ensures { result ≡ set_named text.now }
    {
        match MemberBits::from_name(text) {
            Some(bits) => Some(KindSet { bits }),
            None => None,
        }
    }

    /// Whether a kind of kill is a member.
    pub fn has(self, kind: Kind) -> bool
        ensures { result ≡ has self (Striking kind) }
    {
        self.contains(KindSet::of(kind))
    }

    /// Whether clogging is a member.
    pub fn has_clog(self) -> bool
        ensures { result ≡ has self Clogging }
    {
        self.contains(KindSet::of_clog())
    }

    /// The members of either set.
    pub fn union(self, other: KindSet) -> KindSet
        ensures { result ≡ in_either self other }
    {
        KindSet {
            bits: self.bits.union(other.bits),
        }
    }

    /// The members of both sets.
    pub fn intersection(self, other: KindSet) -> KindSet
        ensures { result ≡ in_each self other }
    {
        KindSet {
            bits: self.bits.intersection(other.bits),
        }
    }

    /// The members of this set that aren't members of the other.
    pub fn difference(self, other: KindSet) -> KindSet
        ensures { result ≡ in_first_alone self other }
    {
        KindSet {
            bits: self.bits.difference(other.bits),
        }
    }

    /// Puts in all members of the other set.
    pub fn insert(&mut self, other: KindSet)
        ensures { self.new ≡ in_either self.old other }
    {
        *self = self.union(other);
    }

    /// Takes out all members of the other set.
    pub fn remove(&mut self, other: KindSet)
        ensures { self.new ≡ in_first_alone self.old other }
    {
        *self = self.difference(other);
    }

    /// Whether there is no member.
    pub fn is_empty(self) -> bool
        ensures { IsTrue result ↔ (self ≡ no_deed) }
    {
        self.bits.is_empty()
    }

    /// Whether every member of the other set is a member.
    pub fn contains(self, other: KindSet) -> bool
        ensures { result ≡ has_all self other }
    {
        self.bits.contains(other.bits)
    }

    /// Whether some member of the other set is a member.
    pub fn intersects(self, other: KindSet) -> bool
        ensures { result ≡ has_some self other }
    {
        self.bits.intersects(other.bits)
    }
}
