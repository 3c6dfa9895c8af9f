//! Whether a set of processes satisfies a policy.
ghost use Rattle.std.specs.Prelude.{◌≡◌, ◌≤◌};
ghost use Rattle.std.specs.FinSet as sets;
ghost use Rattle.fy_policy.specs.Sat.{satisfies};
ghost use Rattle.fy_policy.specs.Shape.{tree_of};
ghost use Rattle.fy_policy.specs.Tree.{IsWellFormed, across, one};

use crate::shape::Shape;
use fy_locality::{Key, Map, ProcSet, laws};

/// Whether the set satisfies the policy. Doesn't allocate.
#[cycle(satisfaction)]
pub(crate) fn shape_satisfied(shape: &Shape, map: &Map, set: &ProcSet) -> bool
    ensures { IsWellFormed (tree_of shape.now)
        → result ≡ satisfies map.now (tree_of shape.now) (sets.contains set.now) }
{
    match shape {
        Shape::One => has_process(map, set),
        Shape::Across(wanted, key, inner) => has_values(*wanted, *key, inner, map, set),
        Shape::And(parts) => {
            for part in parts {
                if !shape_satisfied(part, map, set) {
                    return false;
                }
            }
            true
        }
    }
}

/// Whether so many values of a key have each a group in the set that satisfies the policy. Only
/// values that occur in the set are looked at, each once.
#[cycle(satisfaction)]
fn has_values(wanted: u32, key: Key, inner: &Shape, map: &Map, set: &ProcSet) -> bool
    ensures { 1 ≤ wanted → IsWellFormed (tree_of inner.now)
        → result ≡ satisfies map.now (across wanted key (tree_of inner.now))
        (sets.contains set.now) }
{
    laws::values_differ();
    laws::values_occur();
    let mut found = 0;
    let mut rest = *set;
    while let Some(p) = rest.least() {
        let Some(peers) = map.peers(p, key) else {
            rest.drop_one(p);
            continue;
        };
        let group = rest.intersection(&peers);
        rest = rest.difference(&group);
        if shape_satisfied(inner, map, &group) {
            found += 1;
            if found >= wanted {
                return true;
            }
        }
    }
    false
}

/// Whether some process of the map is in the set.
fn has_process(map: &Map, set: &ProcSet) -> bool
    ensures { result ≡ satisfies map.now one (sets.contains set.now) }
{
    match set.least() {
        Some(p) => p.0 < map.len(),
        None => false,
    }
}
