//! The values of a key within a set of processes, one after another.
ghost use Rattle.std.specs.Prelude.{◌<◌, IfNone, IfSome};
ghost use Rattle.fy_locality.specs.declared.TheConstants.{MOST_PROCESSES};
ghost use Rattle.fy_tolerance.specs.Taken.{HasSkipped, HasTaken};

use fy_locality::{Key, Map, ProcId, ProcSet};

/// Takes those of a set that share a process's value of a key out of it, and answers them. A
/// process without such a value is taken out alone, and none are answered.
pub(crate) fn take_value(map: &Map, key: Key, p: ProcId, rest: &mut ProcSet) -> Option<ProcSet>
    requires { p.0 < MOST_PROCESSES }
    ensures none { IfNone result (HasSkipped map.now key p.0 rest.old rest.new) }
    ensures some { IfSome result (λ members.
        HasTaken map.now key p.0 rest.old members rest.new) }
{
    let Some(peers) = map.peers(p, key) else {
        rest.drop_one(p);
        return None;
    };
    let members = rest.intersection(&peers);
    *rest = rest.difference(&members);
    Some(members)
}
