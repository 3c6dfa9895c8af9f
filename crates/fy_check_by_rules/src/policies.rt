//! Whether processes satisfy policies.
ghost use Rattle.std.specs.Prelude.{◌≡◌, ◌==◌, ◌&&◌, ◌||◌, ℕ, length, nat_lt};
ghost use Rattle.std.specs.FinSet as sets;
ghost use Rattle.fy_policy.specs.Sat.{satisfies};
ghost use Rattle.fy_team.specs.Teams.{is_among};
ghost use Rattle.fy_decide.specs.Safety.{first_satisfied, first_short};
ghost use Rattle.fy_cluster.specs.Replies.{meets};

use fy_cluster::Config;
use fy_locality::{Map, ProcId, ProcSet};
use fy_policy::{Policy, satisfied};

/// The set with the process, if it is there.
fn with_known(map: &Map, set: ProcSet, p: ProcId) -> ProcSet
    ensures { (q : ℕ) → sets.contains result q
        ≡ (sets.contains set q || nat_lt q (length map.now) && p.0 == q) }
{
    let mut set = set;
    if p.0 < map.len() {
        set.put(p);
    }
    set
}

/// The set of the members that are processes of the map.
fn set_of(map: &Map, members: &[ProcId]) -> ProcSet
    ensures { (q : ℕ) → sets.contains result q
        ≡ (nat_lt q (length map.now) && is_among members.now q) }
{
    let mut set = ProcSet::empty();
    for p in members {
        set = with_known(map, set, *p);
    }
    set
}

/// Whether the members satisfy the policy. Who isn't there doesn't count.
fn members_satisfy(config: &Config, need: &Policy, members: &[ProcId]) -> bool
    ensures { result ≡ satisfies config.now.processes need.now (is_among members.now) }
{
    let map = config.map();
    let set = set_of(map, members);
    satisfied(need, map, &set)
}

/// Whether the policy with the number is there, and the members satisfy it.
pub(crate) fn meets(config: &Config, policy: u32, members: &[ProcId]) -> bool
    ensures { result ≡ meets config.now policy (is_among members.now) }
{
    match config.policies().get(policy as usize) {
        Some(need) => members_satisfy(config, need, members),
        None => false,
    }
}

/// The first policy that the set satisfies.
pub(crate) fn first_satisfied(config: &Config, set: &ProcSet) -> Option<usize>
    ensures { result
        ≡ first_satisfied config.now.processes config.now.policies (sets.contains set.now) }
{
    let map = config.map();
    config
        .policies()
        .iter()
        .position(|policy| satisfied(policy, map, set))
}

/// The first policy that the set is short of.
pub(crate) fn first_short(config: &Config, set: &ProcSet) -> Option<usize>
    ensures { result
        ≡ first_short config.now.processes config.now.policies (sets.contains set.now) }
{
    let map = config.map();
    config
        .policies()
        .iter()
        .position(|policy| !satisfied(policy, map, set))
}
