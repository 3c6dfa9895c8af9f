//! A set of processes that is moved from column to column, with whether it satisfies a policy.
ghost use Rattle.std.specs.Prelude.{◌≡◌, ◌<◌, ℕ, false, IfOk};
ghost use Rattle.std.specs.Arc.{arc_value};
ghost use Rattle.std.specs.FinSet as sets;
ghost use Rattle.fy_locality.specs.declared.TheConstants.{MOST_PROCESSES};
ghost use Rattle.fy_policy.specs.Sat.{satisfies};

use fy_locality::{Map, ProcId, ProcSet};
use fy_policy::{Policy, Tally};
use std::alloc::{AllocError, Global};
use std::marker::Model;
use std::sync::Arc;

/// A tally, with the set that it stands at.
#[derive(Drop)]
pub(crate) struct TalliedSet {
    set: ProcSet,
    tally: Tally,
}

impl Model for TalliedSet {
    ghost use Rattle.std.specs.Coded.{codes, coded_ℕ};
    ghost use Rattle.std.specs.FinSet as sets;
    ghost use Rattle.std.specs.Ordering.{nat_cmp};
    ghost use Rattle.std.specs.Prelude.{◌≡◌};
    ghost use Rattle.fy_locality.specs.contracts.locality.Locality as e;
    ghost use Rattle.fy_policy.specs.TreeCode.{tree_code};
    ghost use Rattle.fy_policy.specs.Counted.{Tallied};

    ghost Value = { Tallied };

    ghost coded = { Prim.hlevel
        (codes, tree_code, e.the_row.coded, sets.code {R = nat_cmp} coded_ℕ) };

    ghost view = { λ s. s.tally };

    ghost invariant = { λ s. s.tally.set ≡ s.set };
}

/// The processes that one of two sets alone has. Doesn't allocate.
pub fn symmetric_difference(one: &ProcSet, other: &ProcSet) -> ProcSet
    ensures { result ≡ sets.union
        (sets.difference one.now other.now) (sets.difference other.now one.now) }
{
    one.difference(other).union(&other.difference(one))
}

/// Puts those of a tally in that are in a set, and takes the others out. Doesn't allocate.
fn move_those(tally: &mut Tally, those: &ProcSet, to: &ProcSet)
    requires { (p : ℕ) → sets.contains those.now p ≡ false
        → sets.contains tally.old.set p ≡ sets.contains to.now p }
    ensures { tally.new ≡ record tally.old { set = to.now } }
{
    let mut rest = *those;
    while let Some(p) = rest.least() {
        rest.drop_one(p);
        if to.has(p) {
            tally.add(p);
        } else {
            tally.remove(p);
        }
    }
}

impl TalliedSet {
    /// The empty set, tallied by a policy.
    pub(crate) fn begin(
        alloc: Global,
        map: &Arc<Map>,
        policy: &Policy,
    ) -> Result<TalliedSet, AllocError>
        ensures { IfOk result (λ tallied. (tallied.processes ≡ arc_value map.now)
            × (tallied.policy ≡ policy.now) × (tallied.set ≡ sets.empty)) }
    {
        Ok(TalliedSet {
            set: ProcSet::empty(),
            tally: Tally::make_shared(alloc, policy, map)?,
        })
    }

    /// Makes it this set. It costs the processes that one of both sets alone has. Doesn't allocate.
    pub(crate) fn move_to(&mut self, set: &ProcSet)
        ensures { self.new ≡ record self.old { set = set.now } }
    {
        let those = symmetric_difference(&self.set, set);
        move_those(&mut self.tally, &those, set);
        self.set = *set;
    }

    /// Whether a process is in the set.
    pub(crate) fn contains(&self, p: ProcId) -> bool
        ensures { result ≡ sets.contains self.now.set p.0 }
    {
        self.set.contains(p)
    }

    /// Whether the set with one process would satisfy the policy.
    pub(crate) fn satisfied_with_one(&self, p: ProcId) -> bool
        requires { p.0 < MOST_PROCESSES }
        ensures { result ≡ satisfies self.now.processes self.now.policy
            (sets.contains (sets.insert self.now.set p.0)) }
    {
        self.tally.satisfied_with_one(p)
    }

    /// Whether the set without one process would satisfy the policy.
    pub(crate) fn satisfied_without_one(&self, p: ProcId) -> bool
        requires { p.0 < MOST_PROCESSES }
        ensures { result ≡ satisfies self.now.processes self.now.policy
            (sets.contains (sets.remove self.now.set p.0)) }
    {
        self.tally.satisfied_without_one(p)
    }
}
