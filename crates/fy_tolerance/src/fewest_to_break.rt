//! How many processes have to go at least until those left don't satisfy a policy.
ghost use Rattle.std.specs.Prelude.{◌≡◌, ◌≤◌, ◌-◌, IfOk, cond, length, nat_lt};
ghost use Rattle.std.specs.FinSet as sets;
ghost use Rattle.fy_policy.specs.Counted.{number_of};
ghost use Rattle.fy_policy.specs.Shape.{tree_of};
ghost use Rattle.fy_policy.specs.Tree.{IsWellFormed};
ghost use Rattle.fy_tolerance.specs.Costs.{IsBreaking, LacksAtLeast};

use crate::key_values::take_value;
use crate::parts::{MORE_THAN_ALL, Part, least_of};
use fy_locality::{MOST_PROCESSES, Map, ProcId, ProcSet};
use fy_policy::{Shape, laws};
use std::alloc::{AllocError, Global};

/// How many processes of a group have to go at least until the others don't satisfy the policy,
/// and a set of no more, where there is one.
///
/// # Errors
///
/// An allocation failed.
pub(crate) fn fewest_to_break(
    alloc: Global,
    shape: &Shape,
    map: &Map,
    group: &ProcSet,
) -> Result<Part, AllocError>
    ensures least { IfOk result (λ part. IsWellFormed (tree_of shape.now)
        → LacksAtLeast map.now (tree_of shape.now) (sets.contains group.now) part.least) }
    ensures breaking { IfOk result (λ part. IsWellFormed (tree_of shape.now)
        → part.least ≤ MOST_PROCESSES
        → IsBreaking map.now (tree_of shape.now) (sets.contains group.now) part) }
{
    match shape {
        Shape::One => {
            laws::test_is_satisfaction();
            Ok(Part {
                least: size(map, group),
                set: *group,
            })
        }
        Shape::Across(wanted, key, inner) => {
            laws::test_is_satisfaction();
            laws::more_satisfies();
            laws::values_pass_apart();
            laws::keyless_pass_nothing();
            laws::nobody_passes();
            let wanted = *wanted;
            let mut values = Vec::new(alloc);
            let mut rest = *group;
            while let Some(p) = rest.least() {
                let Some(with_value) = take_value(map, *key, p, &mut rest) else {
                    continue;
                };
                let part = fewest_to_break(alloc, inner, map, &with_value)?;
                values.push(part)?;
            }
            // Once so many values are broken, the other values are too few.
            let broken = all_but(&values, wanted);
            Ok(least_of(&values, broken))
        }
        Shape::And(parts) => {
            laws::and_is_each();
            laws::parts_are_well_formed();
            let mut best = Part {
                least: MORE_THAN_ALL,
                set: *group,
            };
            for part in parts {
                let lacked = fewest_to_break(alloc, part, map, group)?;
                best = lesser(best, lacked);
            }
            Ok(best)
        }
    }
}

/// How many of the parts have to go until fewer than are wanted stay.
fn all_but(parts: &[Part], wanted: u32) -> usize
    ensures { result ≡ length parts.now - (wanted - 1) }
{
    parts
        .len()
        .saturating_sub(wanted.saturating_sub(1) as usize)
}

/// The part with fewer processes.
pub(crate) fn lesser(first: Part, second: Part) -> Part
    ensures first { result.least ≤ first.least }
    ensures second { result.least ≤ second.least }
    ensures which { result ≡ cond (nat_lt second.least first.least) second first }
{
    if second.least < first.least {
        second
    } else {
        first
    }
}

/// How many processes of the map are in a set.
pub(crate) fn size(map: &Map, set: &ProcSet) -> u32
    ensures { result ≡ number_of (sets.contains set.now) (length map.now) }
{
    let mut count = 0;
    for p in 0..map.len() {
        if set.has(ProcId(p)) {
            count += 1;
        }
    }
    count
}
