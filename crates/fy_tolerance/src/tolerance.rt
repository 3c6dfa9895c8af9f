//! What one policy bears: how many processes may be lost together, whichever they are, and a set
//! that is too many.
ghost use Rattle.std.specs.Prelude.{◌≡◌, ◌↔◌, ◌+◌, ◌-◌, ◌<◌, ◌≤◌, ℕ, IfOk, IfSome, IfNone, Bool, IsTrue, IsFalse, Some, true, false, length, slice_get, [], ◌∷◌};
ghost use Rattle.std.specs.FinSet as sets;
ghost use Rattle.fy_policy.specs.Counted.{number_of};
ghost use Rattle.fy_policy.specs.Sat.{Sat};
ghost use Rattle.fy_policy.specs.Tree.{Tree};
ghost use Rattle.fy_decide.specs.Safety.{MayDestroy};
ghost use Rattle.fy_tolerance.specs.Bears.{IsTolerance, IsWitness, ToleratesAny};
ghost use Rattle.fy_tolerance.specs.Costs.{HasNoAnd, IsWithin};

use crate::fewest_to_break::{fewest_to_break, lesser};
use crate::fewest_to_satisfy::fewest_to_satisfy;
use crate::parts::Part;
use fy_decide::{DeadBook, Loss};
use fy_locality::{MOST_PROCESSES, Map, ProcId, ProcSet};
use fy_policy::{Policy, laws, satisfied};
use std::alloc::{AllocError, Global};

/// What one policy bears of a kind of loss.
#[derive(Clone, Copy)]
pub struct Tolerance {
    /// Any so many processes may be lost together.
    pub any: u32,
    /// A set of processes that may not be lost together, and none of which it can do without.
    pub too_many: ProcSet,
}

impl Tolerance {
    /// Whether `any` is exact: the set that is too many has one process more. It always is where
    /// `any` is 0, and for a policy without an `And`. With one, the least set that is too many is a
    /// problem of covering, and the search is bounded; so `any` may be less than what is borne.
    pub fn is_exact(&self) -> bool
        ensures { IsTrue result ↔ (sets.len self.now.too_many ≡ self.now.any + 1) }
    {
        self.too_many.len() == self.any.saturating_add(1)
    }
}

/// What the policy at a place bears from the dead book on. The map and the policies are those that
/// the book was made of.
///
/// # Errors
///
/// An allocation failed.
pub fn tolerance_of(
    alloc: Global,
    dead: &DeadBook,
    map: &Map,
    policies: &[Policy],
    index: usize,
    loss: Loss,
) -> Result<Tolerance, AllocError>
    requires map { map.now ≡ dead.now.processes }
    requires policies { policies.now ≡ dead.now.policies }
    requires index { index < length policies.now }
    ensures { IfOk result (λ found. (policy : Tree)
        → slice_get dead.now.policies index ≡ Some policy
        → IsTolerance dead.now policy loss found) }
{
    let part = fewest_of(alloc, dead, map, policies, index, loss)?;
    let policy = &policies[index];
    let destroyed = dead.destroyed();
    let left = dead.left();
    laws::more_of_map_satisfies();
    Ok(settled(policy, map, &destroyed, &left, &part, loss))
}

/// How many processes it takes at least until the policy at a place doesn't bear their loss, and a
/// set of so many where the policy has no `And`.
fn fewest_of(
    alloc: Global,
    dead: &DeadBook,
    map: &Map,
    policies: &[Policy],
    index: usize,
    loss: Loss,
) -> Result<Part, AllocError>
    requires map { map.now ≡ dead.now.processes }
    requires policies { policies.now ≡ dead.now.policies }
    requires index { index < length policies.now }
    ensures any { IfOk result (λ part. (policy : Tree)
        → slice_get dead.now.policies index ≡ Some policy
        → ToleratesAny dead.now policy loss (part.least - 1)) }
    ensures witness { IfOk result (λ part. (policy : Tree)
        → slice_get dead.now.policies index ≡ Some policy → HasNoAnd policy
        → IsWitness dead.now policy loss part) }
{
    let policy = &policies[index];
    let destroyed = dead.destroyed();
    let left = dead.left();
    let shape = policy.shape();
    let needed = fewest_to_satisfy(alloc, shape, map, &map.everyone(), &destroyed)?;
    let lacked = fewest_to_break(alloc, shape, map, &left)?;
    // A map has at most 1024 processes, so a set has room for as many as can be needed.
    let _few = map.len();
    laws::test_is_satisfaction();
    laws::more_of_map_satisfies();
    let part = match loss {
        Loss::Emptied => needed,
        Loss::Gone => lesser(needed, lacked),
    };
    Ok(part)
}

/// The tolerance of a policy by the fewest that were found: 0 only where some process alone is too
/// many, which is named then.
fn settled(
    policy: &Policy,
    map: &Map,
    destroyed: &ProcSet,
    left: &ProcSet,
    part: &Part,
    loss: Loss,
) -> Tolerance
    requires short { Sat map.now policy.now (sets.contains destroyed.now) → ⊥ }
    requires satisfied { Sat map.now policy.now (sets.contains left.now) }
    requires any { (s : ℕ → Bool) → number_of s (length map.now) ≤ part.now.least - 1
        → MayDestroy map.now (policy.now ∷ [])
        (sets.contains destroyed.now) (sets.contains left.now) s loss }
    requires too_many { HasNoAnd policy.now → MayDestroy map.now (policy.now ∷ [])
        (sets.contains destroyed.now) (sets.contains left.now)
        (sets.contains part.now.set) loss → ⊥ }
    requires exact { HasNoAnd policy.now
        → number_of (sets.contains part.now.set) (length map.now) ≤ part.now.least }
    ensures any { (s : ℕ → Bool) → number_of s (length map.now) ≤ result.any
        → MayDestroy map.now (policy.now ∷ [])
        (sets.contains destroyed.now) (sets.contains left.now) s loss }
    ensures too_many { MayDestroy map.now (policy.now ∷ []) (sets.contains destroyed.now)
        (sets.contains left.now) (sets.contains result.too_many) loss → ⊥ }
    ensures least { (p : ℕ) → sets.contains result.too_many p ≡ true
        → MayDestroy map.now (policy.now ∷ []) (sets.contains destroyed.now)
        (sets.contains left.now) (sets.contains (sets.remove result.too_many p)) loss }
    ensures none { result.any ≡ 0 → sets.len result.too_many ≡ 1 }
    ensures exact { HasNoAnd policy.now → sets.len result.too_many ≡ result.any + 1 }
{
    laws::more_of_map_satisfies();
    let too_many = least_found(policy, map, destroyed, left, &part.set, loss);
    let any = part.least.saturating_sub(1);
    if any > 0 || too_many.len() == 1 {
        return Tolerance { any, too_many };
    }
    match one_too_many(policy, map, destroyed, left, loss) {
        Some(one) => Tolerance { any, too_many: one },
        None => Tolerance { any: 1, too_many },
    }
}

/// Whether a set may not be lost by a policy.
fn is_too_many(
    policy: &Policy,
    map: &Map,
    destroyed: &ProcSet,
    left: &ProcSet,
    set: &ProcSet,
    loss: Loss,
) -> bool
    ensures yes { IsTrue result → MayDestroy map.now (policy.now ∷ [])
        (sets.contains destroyed.now) (sets.contains left.now) (sets.contains set.now) loss → ⊥ }
    ensures no { IsFalse result → MayDestroy map.now (policy.now ∷ [])
        (sets.contains destroyed.now) (sets.contains left.now) (sets.contains set.now) loss }
{
    if satisfied(policy, map, &destroyed.union(set)) {
        return true;
    }
    match loss {
        Loss::Emptied => false,
        Loss::Gone => !satisfied(policy, map, &left.difference(set)),
    }
}

/// The first process that may not be lost by a policy, as a set.
fn one_too_many(
    policy: &Policy,
    map: &Map,
    destroyed: &ProcSet,
    left: &ProcSet,
    loss: Loss,
) -> Option<ProcSet>
    requires short { Sat map.now policy.now (sets.contains destroyed.now) → ⊥ }
    requires satisfied { Sat map.now policy.now (sets.contains left.now) }
    ensures one { IfSome result (λ set. sets.len set ≡ 1) }
    ensures too_many { IfSome result (λ set. MayDestroy map.now (policy.now ∷ [])
        (sets.contains destroyed.now) (sets.contains left.now) (sets.contains set) loss → ⊥) }
    ensures least { IfSome result (λ set. (p : ℕ) → sets.contains set p ≡ true
        → MayDestroy map.now (policy.now ∷ []) (sets.contains destroyed.now)
        (sets.contains left.now) (sets.contains (sets.remove set p)) loss) }
    ensures none { IfNone result ((s : ℕ → Bool) → number_of s (length map.now) ≤ 1
        → MayDestroy map.now (policy.now ∷ [])
        (sets.contains destroyed.now) (sets.contains left.now) s loss) }
{
    laws::more_of_map_satisfies();
    for p in 0..map.len() {
        let mut one = ProcSet::empty();
        one.put(ProcId(p));
        if is_too_many(policy, map, destroyed, left, &one, loss) {
            return Some(one);
        }
    }
    None
}

/// A set that may not be lost by a policy, where all who are left satisfy it: the one given, where
/// it may not be, else all who are left; without those who don't matter, from the first on.
fn least_found(
    policy: &Policy,
    map: &Map,
    destroyed: &ProcSet,
    left: &ProcSet,
    set: &ProcSet,
    loss: Loss,
) -> ProcSet
    requires { Sat map.now policy.now (sets.contains left.now) }
    ensures too_many { MayDestroy map.now (policy.now ∷ [])
        (sets.contains destroyed.now) (sets.contains left.now) (sets.contains result) loss → ⊥ }
    ensures within { (MayDestroy map.now (policy.now ∷ []) (sets.contains destroyed.now)
        (sets.contains left.now) (sets.contains set.now) loss → ⊥)
        → IsWithin (sets.contains result) (sets.contains set.now) }
    ensures least { (p : ℕ) → sets.contains result p ≡ true
        → MayDestroy map.now (policy.now ∷ []) (sets.contains destroyed.now)
        (sets.contains left.now) (sets.contains (sets.remove result p)) loss }
{
    laws::more_satisfies();
    let mut kept = *left;
    if is_too_many(policy, map, destroyed, left, set, loss) {
        kept = *set;
    }
    laws::more_of_map_satisfies();
    for p in 0..MOST_PROCESSES {
        kept = without_needless(policy, map, destroyed, left, &kept, ProcId(p), loss);
    }
    kept.invariant();
    kept
}

/// A set that may not be lost, without a process where it doesn't matter.
fn without_needless(
    policy: &Policy,
    map: &Map,
    destroyed: &ProcSet,
    left: &ProcSet,
    set: &ProcSet,
    p: ProcId,
    loss: Loss,
) -> ProcSet
    requires number { p.0 < MOST_PROCESSES }
    requires too_many { MayDestroy map.now (policy.now ∷ [])
        (sets.contains destroyed.now) (sets.contains left.now) (sets.contains set.now) loss → ⊥ }
    ensures too_many { MayDestroy map.now (policy.now ∷ [])
        (sets.contains destroyed.now) (sets.contains left.now) (sets.contains result) loss → ⊥ }
    ensures within { IsWithin (sets.contains result) (sets.contains set.now) }
    ensures matters { sets.contains result p.0 ≡ true
        → MayDestroy map.now (policy.now ∷ []) (sets.contains destroyed.now)
        (sets.contains left.now) (sets.contains (sets.remove set.now p.0)) loss }
{
    if set.has(p) {
        let mut fewer = *set;
        fewer.drop_one(p);
        if is_too_many(policy, map, destroyed, left, &fewer, loss) {
            return fewer;
        }
    }
    *set
}
