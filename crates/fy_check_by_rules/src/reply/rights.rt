//! The replies to acts on grants and protections, from what the entries before say.
#![tactic(auto, unfolding(fy_cluster::specs::Replies::refusals, fy_cluster::specs::Replies::answer))]

ghost use Rattle.std.specs.Prelude.{◌≡◌, ℕ, IfOk};
ghost use Rattle.fy_acts.specs.declared.act.Act.TheVariants.{Give, Take, Protect, Unprotect};
ghost use Rattle.fy_kinds.specs.declared.kind_set.KindSet.{KindSet};
ghost use Rattle.fy_check_by_rules.specs.Allowed.{allowed_reply};

use crate::past::Past;
use crate::rights::{grant_count, grants};
use fy_acts::{Refusal, Reply};
use fy_grants::{Grant, MOST_GRANTS};
use fy_locality::ProcId;
use std::alloc::AllocError;

/// The reply to a Give.
pub(crate) fn give(before: &Past, grant: Grant) -> Result<Reply, AllocError>
    ensures { IfOk result (λ reply. (by : ℕ) → reply ≡ allowed_reply before.now by (Give grant)) }
{
    if grant.actor >= before.config.actors() {
        return Ok(Reply::No(Refusal::NoActor));
    }
    let count = grant_count(before)?;
    if count >= MOST_GRANTS as u128 {
        return Ok(Reply::No(Refusal::Full));
    }
    Ok(Reply::Done)
}

/// The reply to a Take.
pub(crate) fn take(before: &Past, actor: u32, index: u32) -> Result<Reply, AllocError>
    ensures { IfOk result (λ reply. (by : ℕ)
        → reply ≡ allowed_reply before.now by (Take actor index)) }
{
    if actor >= before.config.actors() {
        return Ok(Reply::No(Refusal::NoActor));
    }
    let own = grants(before, actor)?;
    if index as usize >= own.len() {
        return Ok(Reply::No(Refusal::NoSuch));
    }
    Ok(Reply::Done)
}

/// The reply to a Protect, from whatever kinds.
pub(crate) fn protect(before: &Past, process: ProcId) -> Reply
    ensures { (by : ℕ) (kinds : KindSet)
        → result ≡ allowed_reply before.now by (Protect process kinds) }
{
    if process.0 >= before.config.map().len() {
        return Reply::No(Refusal::NoProcess);
    }
    Reply::Done
}

/// The reply to an Unprotect, from whatever kinds.
pub(crate) fn unprotect(before: &Past, process: ProcId) -> Reply
    ensures { (by : ℕ) (kinds : KindSet)
        → result ≡ allowed_reply before.now by (Unprotect process kinds) }
{
    if process.0 >= before.config.map().len() {
        return Reply::No(Refusal::NoProcess);
    }
    Reply::Done
}
