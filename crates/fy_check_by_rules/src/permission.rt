//! Whether grants cover a process: what the second rule asks.
ghost use Rattle.std.specs.Prelude.{◌≡◌};
ghost use Rattle.fy_kinds.specs.Kinds.{only};
ghost use Rattle.fy_grants.specs.Rights.{is_in_scope, is_granted, is_covered};
ghost use Rattle.fy_check_by_rules.specs.Deeds.{deed_of};

use crate::asked::AskedDeed;
use fy_grants::{Grant, Scope};
use fy_kinds::KindSet;
use fy_locality::{Map, ProcId};

/// The set of this one deed.
fn alone(asked: AskedDeed) -> KindSet
    ensures { result ≡ only (deed_of asked) }
{
    match asked {
        AskedDeed::Strike(kind) => KindSet::of(kind),
        AskedDeed::Clog => KindSet::of_clog(),
    }
}

/// Whether the process is in the scope.
fn is_in_scope(map: &Map, scope: Scope, p: ProcId) -> bool
    ensures { result ≡ is_in_scope map.now scope p.0 }
{
    match scope {
        Scope::All => true,
        Scope::Where(target) => map.members(target.key, &target.value).contains(p),
    }
}

/// Whether the grant is for all of these kinds and covers the process.
fn is_granted(map: &Map, grant: Grant, kinds: KindSet, p: ProcId) -> bool
    ensures { result ≡ is_granted map.now grant kinds p.0 }
{
    grant.kinds.contains(kinds) && is_in_scope(map, grant.scope, p)
}

/// Whether one of the grants is for what is asked and covers the process.
pub(crate) fn is_covered(map: &Map, grants: &[Grant], asked: AskedDeed, p: ProcId) -> bool
    ensures { result ≡ is_covered map.now grants.now (only (deed_of asked)) p.0 }
{
    let kinds = alone(asked);
    grants.iter().any(|grant| is_granted(map, *grant, kinds, p))
}
