//! Tallies of one set of processes, one by each policy.
ghost use Rattle.std.specs.Prelude.{◌≡◌, ◌<◌, not, map, IfOk};
ghost use Rattle.std.specs.Arc.{arc_value};
ghost use Rattle.std.specs.FinSet as sets;
ghost use Rattle.std.specs.List.{All, position};
ghost use Rattle.fy_locality.specs.declared.TheConstants.{MOST_PROCESSES};
ghost use Rattle.fy_policy.specs.Sat.{satisfies};
ghost use Rattle.fy_decide.specs.Tallies.{tallied, with_all, without_all};
ghost use Rattle.fy_decide.specs.Targets.{targeted};

use crate::targets::{Kept, Targets};
use fy_locality::{Map, ProcId, ProcSet};
use fy_policy::{Policy, Tally};
use std::alloc::{AllocError, Global};
use std::sync::Arc;

/// A tally of the set by each policy.
///
/// # Errors
///
/// An allocation failed.
pub(crate) fn tallies_of(
    alloc: Global,
    map: &Arc<Map>,
    policies: &[Policy],
    set: &ProcSet,
) -> Result<Vec<Tally>, AllocError>
    ensures { IfOk result (λ tallies.
        tallies.items ≡ tallied (arc_value map.now) policies.now set.now) }
{
    let mut tallies = Vec::new(alloc);
    for policy in policies {
        let mut tally = Tally::make_shared(alloc, policy, map)?;
        put_all(&mut tally, set);
        tallies.push(tally)?;
    }
    Ok(tallies)
}

/// Equal tallies over an equal map, which the copy of their book shares with them.
///
/// # Errors
///
/// An allocation failed.
pub(crate) fn copied_tallies(
    alloc: Global,
    map: &Arc<Map>,
    tallies: &[Tally],
) -> Result<Vec<Tally>, AllocError>
    requires { All (λ tally. arc_value map.now ≡ tally.processes) tallies.now }
    ensures { IfOk result (λ copies. copies.items ≡ tallies.now) }
{
    let mut copies = Vec::with_capacity(alloc, tallies.len())?;
    for tally in tallies {
        copies.push_reserved(tally.try_copy_shared(alloc, map)?);
    }
    Ok(copies)
}

/// Puts a set into a tally. Doesn't allocate.
fn put_all(tally: &mut Tally, set: &ProcSet)
    ensures { tally.new ≡ with_all set.now tally.old }
{
    let mut rest = *set;
    while let Some(p) = rest.least() {
        rest.drop_one(p);
        tally.add(p);
    }
}

/// Takes a set out of a tally. Doesn't allocate.
fn drop_all(tally: &mut Tally, set: &ProcSet)
    ensures { tally.new ≡ without_all set.now tally.old }
{
    let mut rest = *set;
    while let Some(p) = rest.least() {
        rest.drop_one(p);
        tally.remove(p);
    }
}

/// Puts a set into each tally. Doesn't allocate.
pub(crate) fn put_in_each(tallies: &mut [Tally], set: &ProcSet)
    ensures { tallies.new ≡ map (with_all set.now) tallies.old }
{
    for i in 0..tallies.len() {
        put_all(&mut tallies[i], set);
    }
}

/// Takes a set out of each tally. Doesn't allocate.
pub(crate) fn drop_from_each(tallies: &mut [Tally], set: &ProcSet)
    ensures { tallies.new ≡ map (without_all set.now) tallies.old }
{
    for i in 0..tallies.len() {
        drop_all(&mut tallies[i], set);
    }
}

/// The place of the first policy that the tallies' set with this one satisfies. Doesn't allocate.
pub(crate) fn first_satisfied_with(tallies: &[Tally], targets: &Targets) -> Option<usize>
    ensures { result ≡ position (λ tally.
        satisfies tally.processes tally.policy
        (sets.contains (sets.union tally.set (targeted targets.now)))) tallies.now }
{
    match &targets.kept {
        Kept::One(p) => first_satisfied_with_one(tallies, *p),
        Kept::Set(set) => tallies.iter().position(|tally| tally.satisfied_with(set)),
    }
}

/// The place of the first policy that the tallies' set with one process satisfies. Doesn't
/// allocate.
fn first_satisfied_with_one(tallies: &[Tally], p: ProcId) -> Option<usize>
    requires { p.0 < MOST_PROCESSES }
    ensures { result ≡ position (λ tally.
        satisfies tally.processes tally.policy (sets.contains (sets.insert tally.set p.0)))
        tallies.now }
{
    tallies.iter().position(|tally| tally.satisfied_with_one(p))
}

/// The place of the first policy that the tallies' set without this one is short of. Doesn't
/// allocate.
pub(crate) fn first_short_without(tallies: &[Tally], targets: &Targets) -> Option<usize>
    ensures { result ≡ position (λ tally. not
        (satisfies tally.processes tally.policy
        (sets.contains (sets.difference tally.set (targeted targets.now))))) tallies.now }
{
    match &targets.kept {
        Kept::One(p) => first_short_without_one(tallies, *p),
        Kept::Set(set) => tallies
            .iter()
            .position(|tally| !tally.satisfied_without(set)),
    }
}

/// The place of the first policy that the tallies' set without one process is short of. Doesn't
/// allocate.
fn first_short_without_one(tallies: &[Tally], p: ProcId) -> Option<usize>
    requires { p.0 < MOST_PROCESSES }
    ensures { result ≡ position (λ tally. not
        (satisfies tally.processes tally.policy (sets.contains (sets.remove tally.set p.0))))
        tallies.now }
{
    tallies
        .iter()
        .position(|tally| !tally.satisfied_without_one(p))
}
