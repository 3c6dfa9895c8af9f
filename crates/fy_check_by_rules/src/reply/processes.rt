//! The replies to an Up and a Heal of a process, from what the entries before say.
#![tactic(auto, unfolding(fy_cluster::specs::Replies::refusals, fy_cluster::specs::Replies::answer))]

ghost use Rattle.std.specs.Prelude.{◌≡◌, ◌≤◌, ℕ, length, IfOk};
ghost use Rattle.fy_acts.specs.declared.act.Act.TheVariants.{Up, Heal};
ghost use Rattle.fy_cluster.specs.declared.config.TheConstants.{MOST_JOURNAL_ENTRIES};
ghost use Rattle.fy_check_by_rules.specs.Allowed.{allowed_reply};

use crate::needs::needed_by_member;
use crate::past::Past;
use crate::strikes::{destroyed, gone, up};
use fy_acts::{Refusal, Reply};
use fy_locality::ProcId;
use std::alloc::AllocError;

/// The reply to an Up.
pub(crate) fn start(before: &Past, process: ProcId) -> Reply
    ensures { (by : ℕ) → result ≡ allowed_reply before.now by (Up process) }
{
    if process.0 >= before.config.map().len() {
        return Reply::No(Refusal::NoProcess);
    }
    if gone(before, process) {
        return Reply::No(Refusal::Gone);
    }
    if up(before, process) {
        return Reply::No(Refusal::IsUp);
    }
    Reply::Done
}

/// The reply to a Heal.
pub(crate) fn heal(before: &Past, process: ProcId) -> Result<Reply, AllocError>
    requires few { length before.now.steps.now ≤ MOST_JOURNAL_ENTRIES }
    ensures { IfOk result (λ reply. (by : ℕ) → reply ≡ allowed_reply before.now by (Heal process)) }
{
    if process.0 >= before.config.map().len() {
        return Ok(Reply::No(Refusal::NoProcess));
    }
    if gone(before, process) {
        return Ok(Reply::No(Refusal::Gone));
    }
    if !destroyed(before).contains(process) {
        return Ok(Reply::No(Refusal::NotDestroyed));
    }
    if !up(before, process) {
        return Ok(Reply::No(Refusal::NotUp));
    }
    if let Some(rec) = needed_by_member(before, process)? {
        return Ok(Reply::No(Refusal::StillNeeds { rec }));
    }
    Ok(Reply::Done)
}
