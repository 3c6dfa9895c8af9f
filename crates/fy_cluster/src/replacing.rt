//! The act Replace: a process comes in the place of a team's member.
ghost use Rattle.std.specs.Prelude.{◌≡◌, ◌<◌, ℕ, All};
ghost use Rattle.std.specs.FinSet as sets;
ghost use Rattle.fy_team.specs.Teams.{is_among, swapped};
ghost use Rattle.fy_acts.specs.declared.act.Act.TheVariants.{Replace};
ghost use Rattle.fy_cluster.specs.Replies.{meets};
ghost use Rattle.fy_cluster.specs.Standing.{Point, Refines, StepsTo, IsReachable};

use crate::Config;
use crate::machine::Machine;
use fy_acts::{Refusal, Reply};
use fy_locality::{MOST_PROCESSES, ProcId, ProcSet};
use fy_policy::satisfied;

/// The members after one is replaced by another process, as a set.
fn set_with(members: &[ProcId], out: ProcId, into: ProcId) -> ProcSet
    requires known { All (λ p. p.0 < MOST_PROCESSES) members.now }
    requires out { out.0 < MOST_PROCESSES }
    requires into { into.0 < MOST_PROCESSES }
    ensures { (q : ℕ) → sets.contains result q ≡ is_among (swapped out into members.now) q }
{
    fy_team::laws::a_replacement_changes_one_team();
    let mut set = ProcSet::empty();
    for p in members {
        set.put(*p);
    }
    set.drop_one(out);
    set.put(into);
    set
}

/// Whether the policy with a number is there, and the set satisfies it.
fn meets(config: &Config, policy: u32, set: &ProcSet) -> bool
    ensures { result ≡ meets config.now policy (sets.contains set.now) }
{
    match config.policies().get(policy as usize) {
        Some(need) => satisfied(need, config.map(), set),
        None => false,
    }
}

impl Machine {
    /// Replaces a member of a team by another process.
    pub(crate) fn replace(&mut self, config: &Config, team: u32, out: ProcId, into: ProcId) -> Reply
        ghost point: { Point }
        requires stands { Refines point.setup point.before self.old }
        requires config { config.now ≡ point.setup }
        requires reachable { IsReachable point.setup point.before }
        ensures { StepsTo point (Replace team out into) result self.new }
    {
        fy_policy::laws::test_is_satisfaction();
        let Some(members) = self.teams.members(team) else {
            return Reply::No(Refusal::NoTeam);
        };
        if into.0 >= config.map().len() {
            return Reply::No(Refusal::NoProcess);
        }
        if !members.has(out) {
            return Reply::No(Refusal::NotMember);
        }
        if members.has(into) {
            return Reply::No(Refusal::IsMember);
        }
        if !self.dead.left().contains(into) {
            return Reply::No(Refusal::Gone);
        }
        let Some(policy) = self.teams.policy_of(team) else {
            unreachable!();
        };
        if !meets(config, policy, &set_with(members.as_slice(), out, into)) {
            return Reply::No(Refusal::TeamShort { policy });
        }
        if let Some(rec) = self.needed_of_team(into, team) {
            return Reply::No(Refusal::StillNeeds { rec });
        }
        self.teams
            .replace(config.map(), config.policies(), team, out, into);
        Reply::Done
    }
}
