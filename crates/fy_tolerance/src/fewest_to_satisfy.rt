//! How many processes it takes at least to satisfy a policy, counted up the policy's tree.
ghost use Rattle.std.specs.Prelude.{◌≤◌, IfOk, List};
ghost use Rattle.std.specs.FinSet as sets;
ghost use Rattle.fy_locality.specs.declared.locality.Locality.{Locality};
ghost use Rattle.fy_decide.specs.Safety.{everyone};
ghost use Rattle.fy_policy.specs.Shape.{tree_of};
ghost use Rattle.fy_policy.specs.Tree.{IsWellFormed, one};
ghost use Rattle.fy_tolerance.specs.Costs.{HasNoAnd, IsEnough, IsWithin, NeedsAtLeast};

use crate::key_values::take_value;
use crate::parts::{MORE_THAN_ALL, Part, least_of};
use fy_locality::{MOST_PROCESSES, Map, ProcSet};
use fy_policy::{Shape, laws};
use std::alloc::{AllocError, Global};

/// How many processes of a group it takes at least to satisfy the policy, the free ones not
/// counted, and such a set, which has no more where the policy has no `And`. Of an `Across` the
/// group is parted by the key's values: each round asks about the processes that have the value of
/// the least process of the rest.
///
/// # Errors
///
/// An allocation failed.
pub(crate) fn fewest_to_satisfy(
    alloc: Global,
    shape: &Shape,
    map: &Map,
    group: &ProcSet,
    free: &ProcSet,
) -> Result<Part, AllocError>
    ensures least { IfOk result (λ part. IsWellFormed (tree_of shape.now)
        → NeedsAtLeast map.now (tree_of shape.now)
        (sets.contains group.now) (sets.contains free.now)
        part.least) }
    ensures within { IfOk result (λ part. IsWithin (sets.contains part.set)
        (sets.contains group.now)) }
    ensures enough { IfOk result (λ part. IsWellFormed (tree_of shape.now)
        → HasNoAnd (tree_of shape.now) → IsWithin (sets.contains group.now) (everyone map.now)
        → part.least ≤ MOST_PROCESSES
        → IsEnough map.now (tree_of shape.now) (sets.contains group.now) (sets.contains free.now)
        part) }
{
    match shape {
        Shape::One => Ok(one_needed(group, free)),
        Shape::Across(wanted, key, inner) => {
            laws::test_is_satisfaction();
            laws::more_satisfies();
            laws::values_pass_apart();
            laws::keyless_pass_nothing();
            laws::nobody_passes();
            let mut values = Vec::new(alloc);
            let mut rest = *group;
            while let Some(p) = rest.least() {
                let Some(with_value) = take_value(map, *key, p, &mut rest) else {
                    continue;
                };
                let part = fewest_to_satisfy(alloc, inner, map, &with_value, free)?;
                values.push(part)?;
            }
            Ok(least_of(&values, *wanted as usize))
        }
        Shape::And(parts) => {
            laws::and_is_each();
            laws::parts_are_well_formed();
            let mut least = 0;
            let mut set = ProcSet::empty();
            for part in parts {
                let needed = fewest_to_satisfy(alloc, part, map, group, free)?;
                least = needed.least.max(least);
                set = set.union(&needed.set);
            }
            Ok(Part { least, set })
        }
    }
}

/// How many processes of a group it takes at least to have one, and such a set.
fn one_needed(group: &ProcSet, free: &ProcSet) -> Part
    ensures least { (processes : List Locality)
        → NeedsAtLeast processes one
        (sets.contains group.now) (sets.contains free.now) result.least }
    ensures within { IsWithin (sets.contains result.set) (sets.contains group.now) }
    ensures enough { (processes : List Locality)
        → IsWithin (sets.contains group.now) (everyone processes)
        → result.least ≤ MOST_PROCESSES
        → IsEnough processes one (sets.contains group.now) (sets.contains free.now) result }
{
    laws::test_is_satisfaction();
    let both = group.intersection(free);
    if let Some(_free) = both.least() {
        return Part {
            least: 0,
            set: ProcSet::empty(),
        };
    }
    match group.least() {
        Some(p) => {
            let mut set = ProcSet::empty();
            set.put(p);
            Part { least: 1, set }
        }
        None => Part {
            least: MORE_THAN_ALL,
            set: ProcSet::empty(),
        },
    }
}
