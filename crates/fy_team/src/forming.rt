//! Whether a team may be formed.
ghost use Rattle.std.specs.Prelude.{◌≡◌, ◌<◌, ◌≤◌, ◌==◌, ◌||◌, ◌&&◌, not, ℕ, true, false, nat_le, length, slice_get, Some};
ghost use Rattle.std.specs.List.{list_any};
ghost use Rattle.std.specs.FinSet as sets;
ghost use Rattle.fy_team.specs.Teams.{is_among, unfit};

use crate::TeamFault;
use crate::team::KeptTeam;
use fy_locality::{MOST_PROCESSES, Map, ProcId, ProcSet};
use fy_policy::{Policy, satisfied};

/// Why a team may not be formed under the policy that it names, if it may not.
pub(crate) fn unfit(
    map: &Map,
    policies: &[Policy],
    gone: &ProcSet,
    team: &KeptTeam,
) -> Option<TeamFault>
    ensures { result ≡ unfit map.now (slice_get policies.now team.now.policy)
        gone.now team.now.members team.now.policy }
{
    let Some(need) = policies.get(team.policy as usize) else {
        return Some(TeamFault::NoPolicy);
    };
    unfit_for(map, need, gone, team)
}

/// Why a team may not be formed under this policy, which it names, if it may not.
fn unfit_for(map: &Map, need: &Policy, gone: &ProcSet, team: &KeptTeam) -> Option<TeamFault>
    ensures { result ≡ unfit map.now (Some need.now) gone.now team.now.members team.now.policy }
{
    let (members, policy) = (team.members.as_slice(), team.policy);
    if has_unknown_process(map, members) {
        return Some(TeamFault::NoProcess);
    }
    if has_any_of(gone, members) {
        return Some(TeamFault::Gone);
    }
    if !satisfied(need, map, &set_of(members)) {
        return Some(TeamFault::TeamShort { policy });
    }
    None
}

/// The members of a team, which are processes of the map, as a set.
pub(crate) fn set_of_fit(map: &Map, team: &KeptTeam) -> ProcSet
    requires { list_any (λ p. nat_le (length map.now) p.0) team.now.members ≡ false }
    ensures { (q : ℕ) → sets.contains result q ≡ is_among team.now.members q }
{
    let members = team.members.as_slice();
    // Each member is one of at most 1024 processes, so its number fits the set.
    let _known = has_unknown_process(map, members);
    set_of(members)
}

/// Puts a process of the map into a set in the place of one that is there.
pub(crate) fn swap_in(set: &mut ProcSet, map: &Map, out: ProcId, into: ProcId)
    requires out { sets.contains set.old out.0 ≡ true }
    requires into { into.0 < length map.now }
    ensures { (q : ℕ) → sets.contains set.new q
        ≡ (q == into.0 || (not (q == out.0) && sets.contains set.old q)) }
{
    set.invariant();
    // A map has at most 1024 processes, so the number of the new one fits the set.
    let _few = map.len();
    set.drop_one(out);
    set.put(into);
}

/// Whether some member is no process of the map.
fn has_unknown_process(map: &Map, members: &[ProcId]) -> bool
    ensures strangers { result ≡ list_any (λ p. nat_le (length map.now) p.0) members.now }
    ensures few { length map.now ≤ MOST_PROCESSES }
{
    let count = map.len();
    members.iter().any(|p| p.0 >= count)
}

/// Whether some member is in the set.
fn has_any_of(set: &ProcSet, members: &[ProcId]) -> bool
    ensures { result ≡ list_any (λ p. sets.contains set.now p.0) members.now }
{
    members.iter().any(|p| set.contains(*p))
}

/// The members as a set.
fn set_of(members: &[ProcId]) -> ProcSet
    requires { list_any (λ p. nat_le MOST_PROCESSES p.0) members.now ≡ false }
    ensures { (q : ℕ) → sets.contains result q ≡ is_among members.now q }
{
    let mut set = ProcSet::empty();
    for p in members {
        set.put(*p);
    }
    set
}
