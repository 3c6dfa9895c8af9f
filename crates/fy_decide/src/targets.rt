//! The processes that an order is about, or that may be lost.
ghost use Rattle.std.specs.Prelude.{◌≡◌, ◌<◌, IfSome, Some};
ghost use Rattle.std.specs.FinSet as sets;
ghost use Rattle.fy_locality.specs.declared.ProcId.{ProcId};
ghost use Rattle.fy_locality.specs.declared.TheConstants.{MOST_PROCESSES};
ghost use Rattle.fy_decide.specs.declared.targets.Kept.TheVariants.{One};

use fy_locality::{ProcId, ProcSet, SET_WORDS};

/// How targets are kept: one process by its number, or a set of any.
#[derive(Clone, Copy)]
pub(crate) enum Kept {
    One(ProcId),
    Set(ProcSet),
}

/// Processes that an order is about, or that may be lost. One that is known to be alone is kept by
/// its number, and no set is made of it until somebody asks for one.
#[derive(Clone, Copy)]
pub struct Targets {
    pub(crate) kept: Kept,
    ghost small: { (p : ProcId) → kept ≡ One p → p.0 < MOST_PROCESSES },
}

impl Targets {
    ghost use Rattle.fy_decide.specs.Targets.{targeted, lone};

    /// The processes of a set. Looks for the one that is alone in it.
    pub(crate) fn of(set: &ProcSet) -> Targets
        ensures { targeted result ≡ set.now }
    {
        match sole(set) {
            Some(p) => Targets { kept: Kept::One(p) },
            None => Targets {
                kept: Kept::Set(*set),
            },
        }
    }

    /// One process.
    pub(crate) fn one(p: ProcId) -> Targets
        requires { p.0 < MOST_PROCESSES }
        ensures targeted { targeted result ≡ sets.insert sets.empty p.0 }
        ensures lone { lone result ≡ Some p }
    {
        Targets { kept: Kept::One(p) }
    }

    /// Nobody.
    pub(crate) fn nobody() -> Targets
        ensures { targeted result ≡ sets.empty }
    {
        Targets {
            kept: Kept::Set(ProcSet::empty()),
        }
    }

    /// The one process, where it is known to be alone. Where none is answered, they may be any.
    pub fn alone(&self) -> Option<ProcId>
        ensures known { result ≡ lone self.now }
        ensures small { IfSome result (λ p. p.0 < MOST_PROCESSES) }
        ensures alone { IfSome result (λ p. targeted self.now ≡ sets.insert sets.empty p.0) }
    {
        match &self.kept {
            Kept::One(p) => Some(*p),
            Kept::Set(_) => None,
        }
    }

    /// The processes as a set.
    pub fn set(&self) -> ProcSet
        ensures { result ≡ targeted self.now }
    {
        match &self.kept {
            Kept::One(p) => only(*p),
            Kept::Set(set) => *set,
        }
    }

    /// Takes the processes out of a set.
    pub fn drop_from(&self, set: &mut ProcSet)
        ensures { set.new ≡ sets.difference set.old (targeted self.now) }
    {
        match &self.kept {
            Kept::One(p) => set.drop_one(*p),
            Kept::Set(targets) => *set = set.difference(targets),
        }
    }
}

/// The set of one process.
fn only(p: ProcId) -> ProcSet
    requires { p.0 < MOST_PROCESSES }
    ensures { result ≡ sets.insert sets.empty p.0 }
{
    let mut set = ProcSet::empty();
    set.put(p);
    set
}

/// The process of a set that has no other. Looks at each word once.
fn sole(given: &ProcSet) -> Option<ProcId>
    ensures small { IfSome result (λ p. p.0 < MOST_PROCESSES) }
    ensures alone { IfSome result (λ p. given.now ≡ sets.insert sets.empty p.0) }
{
    let words = given.words();
    let mut found = None;
    for k in 0..SET_WORDS {
        let word = words[k];
        if word != 0 {
            let bit = word.trailing_zeros();
            if found.is_some() || word != 1 << bit {
                return None;
            }
            found = Some(ProcId(k as u32 * 64 + bit));
        }
    }
    found
}
