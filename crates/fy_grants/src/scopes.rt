//! Which processes grants leave uncovered, by a look at each grant. A
//! question about one kind alone is answered by the cover (`cover.rt`) instead.
ghost use Rattle.std.specs.Prelude.{◌≡◌, ◌&&◌, not, ℕ};
ghost use Rattle.std.specs.FinSet as sets;
ghost use Rattle.fy_grants.specs.Rights.{is_in_scope, is_granted, is_covered};

use crate::{Grant, Scope};
use fy_kinds::KindSet;
use fy_locality::{Map, ProcId, ProcSet};

/// The processes of a set that aren't in a scope.
fn without_scope(set: ProcSet, scope: Scope, map: &Map) -> ProcSet
    ensures { (q : ℕ) → sets.contains result q
        ≡ (sets.contains set q && not (is_in_scope map.now scope q)) }
{
    match scope {
        Scope::All => ProcSet::empty(),
        Scope::Where(target) => set.difference(&map.members(target.key, &target.value)),
    }
}

/// Whether a process is in a scope.
fn is_in_scope(scope: Scope, map: &Map, p: ProcId) -> bool
    ensures { result ≡ is_in_scope map.now scope p.0 }
{
    match scope {
        Scope::All => true,
        Scope::Where(target) => map.members(target.key, &target.value).contains(p),
    }
}

/// The processes of a set without those that a grant covers, where it has all these kinds.
fn without_granted(set: ProcSet, grant: &Grant, kinds: KindSet, map: &Map) -> ProcSet
    ensures { (q : ℕ) → sets.contains result q
        ≡ (sets.contains set q && not (is_granted map.now grant.now kinds q)) }
{
    if grant.kinds.contains(kinds) {
        without_scope(set, grant.scope, map)
    } else {
        set
    }
}

/// The processes of a set that none of the grants with all these kinds covers.
pub(crate) fn left_uncovered(grants: &[Grant], kinds: KindSet, map: &Map, set: &ProcSet) -> ProcSet
    ensures { (q : ℕ) → sets.contains result q
        ≡ (sets.contains set.now q && not (is_covered map.now grants.now kinds q)) }
{
    let mut left = *set;
    for grant in grants {
        left = without_granted(left, grant, kinds, map);
    }
    left
}

/// Whether one of the grants with all these kinds covers a process.
pub(crate) fn is_covered(grants: &[Grant], kinds: KindSet, map: &Map, p: ProcId) -> bool
    ensures { result ≡ is_covered map.now grants.now kinds p.0 }
{
    grants.iter().any(|grant| grant.kinds.contains(kinds) && is_in_scope(grant.scope, map, p))
}
