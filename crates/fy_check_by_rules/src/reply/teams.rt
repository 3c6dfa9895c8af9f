//! The replies to acts on teams, from what the entries before say.
#![tactic(auto, unfolding(fy_cluster::specs::Replies::refusals, fy_cluster::specs::Replies::answer))]

ghost use Rattle.std.specs.Prelude.{◌≡◌, ◌≤◌, ℕ, length, IfOk};
ghost use Rattle.std.specs.List.{list_any};
ghost use Rattle.fy_acts.specs.declared.act.Act.TheVariants.{Form, Replace};
ghost use Rattle.fy_cluster.specs.declared.config.TheConstants.{MOST_JOURNAL_ENTRIES};
ghost use Rattle.fy_team.specs.Teams.{is_among, swapped};
ghost use Rattle.fy_cluster.specs.History.{gone};
ghost use Rattle.fy_cluster.specs.Replies.{no_process, meets};
ghost use Rattle.fy_check_by_rules.specs.Past.{history_of};
ghost use Rattle.fy_check_by_rules.specs.Allowed.{allowed_reply};

use crate::marks::is_among;
use crate::needs::needed_by_newcomer;
use crate::past::Past;
use crate::policies::meets;
use crate::strikes::gone;
use crate::teams::{Swap, Team, swapped, team_at, team_count};
use fy_acts::{Refusal, Reply};
use fy_cluster::Config;
use fy_locality::ProcId;
use fy_team::{MOST_TEAMS, Members};
use std::alloc::AllocError;

/// Whether one of the members isn't there.
fn some_no_process(config: &Config, members: &[ProcId]) -> bool
    ensures { result ≡ list_any (λ p. no_process config.now p.0) members.now }
{
    let count = config.map().len();
    members.iter().any(|p| p.0 >= count)
}

/// Whether one of the members is gone.
fn some_gone(before: &Past, members: &[ProcId]) -> bool
    ensures { result ≡ list_any (λ p. gone (history_of before.now) p.0) members.now }
{
    members.iter().any(|p| gone(before, *p))
}

/// The reply to a Form.
pub(crate) fn form(before: &Past, members: &Members, policy: u32) -> Result<Reply, AllocError>
    ensures { IfOk result (λ reply. (by : ℕ)
        → reply ≡ allowed_reply before.now by (Form members.now policy)) }
{
    let members = members.as_slice();
    let count = team_count(before)?;
    if count >= MOST_TEAMS {
        return Ok(Reply::No(Refusal::TooMany));
    }
    if policy as usize >= before.config.policies().len() {
        return Ok(Reply::No(Refusal::NoPolicy));
    }
    if some_no_process(before.config, members) {
        return Ok(Reply::No(Refusal::NoProcess));
    }
    if some_gone(before, members) {
        return Ok(Reply::No(Refusal::Gone));
    }
    if !meets(before.config, policy, members) {
        return Ok(Reply::No(Refusal::TeamShort { policy }));
    }
    Ok(Reply::Formed { team: count as u32 })
}

/// Whether a team, as it stands so far, satisfies its policy once the swap is made in it.
fn meets_after_swap(before: &Past, current: &Team, swap: Swap) -> Result<bool, AllocError>
    ensures { IfOk result (λ met. met ≡ meets before.now.config.now current.now.policy
        (is_among (swapped swap.out swap.into current.now.members.items))) }
{
    let then = swapped(before.alloc, &current.members, swap.out, swap.into)?;
    let met = meets(before.config, current.policy, &then);
    Ok(met)
}

/// The reply to a Replace.
pub(crate) fn replace(before: &Past, swap: Swap) -> Result<Reply, AllocError>
    requires few { length before.now.steps.now ≤ MOST_JOURNAL_ENTRIES }
    ensures { IfOk result (λ reply. (by : ℕ)
        → reply ≡ allowed_reply before.now by (Replace swap.team swap.out swap.into)) }
{
    let Swap { team, out, into } = swap;
    let Some(current) = team_at(before, team)? else {
        return Ok(Reply::No(Refusal::NoTeam));
    };
    if into.0 >= before.config.map().len() {
        return Ok(Reply::No(Refusal::NoProcess));
    }
    if !is_among(&current.members, out) {
        return Ok(Reply::No(Refusal::NotMember));
    }
    if is_among(&current.members, into) {
        return Ok(Reply::No(Refusal::IsMember));
    }
    if gone(before, into) {
        return Ok(Reply::No(Refusal::Gone));
    }
    let policy = current.policy;
    let met = meets_after_swap(before, &current, swap)?;
    if !met {
        return Ok(Reply::No(Refusal::TeamShort { policy }));
    }
    if let Some(rec) = needed_by_newcomer(before, team, into)? {
        return Ok(Reply::No(Refusal::StillNeeds { rec }));
    }
    Ok(Reply::Done)
}
