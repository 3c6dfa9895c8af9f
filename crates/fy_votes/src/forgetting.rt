//! How many processes of a cluster may forget, whichever they are.
ghost use Rattle.std.specs.Prelude.{◌≡◌, ◌↔◌, ◌+◌, ◌-◌, ◌<◌, ◌&&◌, ◌||◌, IfNone, IfOk, IfSome, IsTrue, Some, None, length, min, nat_lt, not, slice_get, ℕ};
ghost use Rattle.std.specs.List.{AllZip};
ghost use Rattle.std.specs.FinSet as sets;
ghost use Rattle.fy_decide.specs.Safety.{everyone};
ghost use Rattle.fy_policy.specs.Counted.{number_of};
ghost use Rattle.fy_policy.specs.Sat.{Sat};
ghost use Rattle.fy_policy.specs.Tree.{Tree};
ghost use Rattle.fy_votes.specs.Forgetting.{AreForgettings, IsForgetting, Takes};

use fy_decide::{DeadBook, Loss};
use fy_locality::{MOST_PROCESSES, Map, ProcSet};
use fy_policy::{Policy, laws, satisfied};
use fy_tolerance::{Tolerance, tolerance_of};
use std::alloc::{AllocError, Global};
use std::slice;

/// What may forget.
#[derive(Clone, Copy)]
pub struct Forgetting {
    /// Any fewer processes than these may forget. At 0 two groups may have no process in common, as
    /// far as their numbers say.
    pub fewest: u32,
    /// A set of processes that may not forget.
    pub too_many: ProcSet,
}

impl Forgetting {
    /// How many processes may forget, whichever they are; none where `fewest` is 0.
    pub fn any(&self) -> Option<u32>
        ensures some { IfSome result (λ any. any + 1 ≡ self.now.fewest) }
        ensures none { IfNone result (self.now.fewest ≡ 0) }
    {
        self.fewest.checked_sub(1)
    }

    /// Whether `fewest` is exact: the set that may not forget has so many processes. It always is
    /// where both policies count processes. With others it may be less than what may forget.
    pub fn is_exact(&self) -> bool
        ensures { IsTrue result ↔ (sets.len self.now.too_many ≡ self.now.fewest) }
    {
        self.too_many.len() == self.fewest
    }
}

/// What may forget beside the destroyed of a dead book, by the policy of writes at a place and a
/// policy of elections, which all processes together satisfy. The map and the policies are those
/// that the book was made of.
///
/// # Errors
///
/// An allocation failed.
pub fn forgetting_of(
    alloc: Global,
    dead: &DeadBook,
    map: &Map,
    policies: &[Policy],
    index: usize,
    elections: &Policy,
) -> Result<Forgetting, AllocError>
    requires map { map.now ≡ dead.now.processes }
    requires policies { policies.now ≡ dead.now.policies }
    requires index { index < length policies.now }
    requires elections { Sat map.now elections.now (everyone map.now) }
    ensures { IfOk result (λ found. (writes : Tree)
        → slice_get dead.now.policies index ≡ Some writes
        → IsForgetting dead.now writes elections.now found) }
{
    laws::a_quorum_is_left();
    laws::more_of_map_satisfies();
    laws::test_is_satisfaction();
    map.names_differ();
    // A map has at most 1024 processes, so as many as can be found fit.
    let _few = map.len();
    let writes = taken_beside(alloc, dead, map, policies, index)?;
    let destroyed = dead.destroyed();
    let votes = taken_beside_set(alloc, map, elections, &destroyed)?;
    // The writers are the destroyed with those that a write takes, and all others vote.
    let others = all_but(map, &writes.too_many, &destroyed);
    let beside = taken_beside_set(alloc, map, elections, &others)?;
    Ok(Forgetting {
        fewest: fewest_of(map, &destroyed, writes.any, votes),
        too_many: still_needed(map, &others, beside),
    })
}

/// What may forget by each policy of writes, in the order of the policies; none where not even all
/// processes together satisfy the policy of elections, so that nobody is ever elected. The map and
/// the policies are those that the book was made of.
///
/// # Errors
///
/// An allocation failed.
pub fn forgettings_of(
    alloc: Global,
    dead: &DeadBook,
    map: &Map,
    policies: &[Policy],
    elections: &Policy,
) -> Result<Option<Vec<Forgetting>>, AllocError>
    requires map { map.now ≡ dead.now.processes }
    requires policies { policies.now ≡ dead.now.policies }
    ensures { IfOk result (AreForgettings dead.now elections.now) }
{
    if !satisfied(elections, map, &map.everyone()) {
        return Ok(None);
    }
    let mut all = Vec::new(alloc);
    for index in 0..policies.len() {
        all.push(forgetting_of(alloc, dead, map, policies, index, elections)?)?;
    }
    Ok(Some(all))
}

/// What may forget by each of several policies of elections, in their order. The map and the
/// policies of writes are those that the book was made of.
///
/// # Errors
///
/// An allocation failed.
pub fn forgettings_by_each(
    alloc: Global,
    dead: &DeadBook,
    map: &Map,
    policies: &[Policy],
    elections: &[Policy],
) -> Result<Vec<Option<Vec<Forgetting>>>, AllocError>
    requires map { map.now ≡ dead.now.processes }
    requires policies { policies.now ≡ dead.now.policies }
    ensures { IfOk result (λ found. AllZip (AreForgettings dead.now) elections.now found.items) }
{
    let mut found = Vec::new(alloc);
    for index in 0..elections.len() {
        found.push(forgettings_of(alloc, dead, map, policies, &elections[index])?)?;
    }
    Ok(found)
}

/// How many processes it takes to satisfy the policy at a place beside the destroyed of a dead book.
///
/// # Errors
///
/// An allocation failed.
fn taken_beside(
    alloc: Global,
    dead: &DeadBook,
    map: &Map,
    policies: &[Policy],
    index: usize,
) -> Result<Tolerance, AllocError>
    requires map { map.now ≡ dead.now.processes }
    requires policies { policies.now ≡ dead.now.policies }
    requires index { index < length policies.now }
    ensures { IfOk result (λ found. (policy : Tree)
        → slice_get dead.now.policies index ≡ Some policy
        → Takes dead.now.processes policy (sets.contains dead.now.destroyed) found) }
{
    laws::test_is_satisfaction();
    tolerance_of(alloc, dead, map, policies, index, Loss::Emptied)
}

/// How many processes it takes to satisfy a policy beside a set, where all satisfy it; none where
/// the set satisfies it.
///
/// # Errors
///
/// An allocation failed.
fn taken_beside_set(
    alloc: Global,
    map: &Map,
    policy: &Policy,
    set: &ProcSet,
) -> Result<Option<Tolerance>, AllocError>
    requires { Sat map.now policy.now (everyone map.now) }
    ensures none { IfOk result (λ found. IfNone found
        (Sat map.now policy.now (sets.contains set.now))) }
    ensures some { IfOk result (λ found. IfSome found
        (Takes map.now policy.now (sets.contains set.now))) }
{
    laws::test_is_satisfaction();
    let policies = slice::from_ref(policy);
    // All processes satisfy the policy, so only an allocation can fail.
    let Ok(mut dead) = DeadBook::make(alloc, map, policies) else {
        return Err(AllocError);
    };
    if !dead.may_destroy(set, Loss::Emptied) {
        return Ok(None);
    }
    dead.strike(set, Loss::Emptied);
    let taken = taken_beside(alloc, &dead, map, policies, 0)?;
    Ok(Some(taken))
}

/// All processes of a map but these, and those of another set.
fn all_but(map: &Map, these: &ProcSet, and: &ProcSet) -> ProcSet
    ensures { (p : ℕ) → sets.contains result p
        ≡ ((nat_lt p (length map.now) && not (sets.contains these.now p))
        || sets.contains and.now p) }
{
    map.everyone().difference(these).union(and)
}

/// Of those that it takes beside a set the ones that the set hasn't.
fn still_needed(map: &Map, set: &ProcSet, taken: Option<Tolerance>) -> ProcSet
    ensures none { IfNone taken (result ≡ sets.empty) }
    ensures some { IfSome taken (λ found. (p : ℕ) → sets.contains result p
        ≡ ((nat_lt p (length map.now) && not (sets.contains set.now p))
        && sets.contains found.too_many p)) }
{
    match taken {
        Some(found) => map.everyone().difference(set).intersection(&found.too_many),
        None => ProcSet::empty(),
    }
}

/// How many processes that aren't destroyed a group that writes and a group that votes have in
/// common at least; 0 where it takes no voter beside the destroyed.
fn fewest_of(map: &Map, destroyed: &ProcSet, writers: u32, votes: Option<Tolerance>) -> u32
    ensures none { IfNone votes (result ≡ 0) }
    ensures some { IfSome votes (λ found. result
        ≡ min (number_of (sets.contains destroyed.now) (length map.now)
        + (writers + 1) + (found.any + 1) - length map.now) (MOST_PROCESSES + 1)) }
{
    match votes {
        Some(found) => fewest_in_common(map, destroyed, writers, found.any),
        None => 0,
    }
}

/// How many processes that aren't destroyed a group that writes and a group that votes have in
/// common at least, where beside the destroyed each has more than so many.
fn fewest_in_common(map: &Map, destroyed: &ProcSet, writers: u32, voters: u32) -> u32
    ensures { result ≡ min (number_of (sets.contains destroyed.now) (length map.now)
        + (writers + 1) + (voters + 1) - length map.now) (MOST_PROCESSES + 1) }
{
    let known = destroyed.intersection(&map.everyone()).len();
    let both = u64::from(known) + (u64::from(writers) + 1) + (u64::from(voters) + 1);
    let common = both.saturating_sub(u64::from(map.len()));
    common.min(u64::from(MOST_PROCESSES) + 1) as u32
}
