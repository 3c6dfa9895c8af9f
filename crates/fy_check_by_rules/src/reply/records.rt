//! The replies to acts on records and messages, from what the entries before say.
#![tactic(auto, unfolding(fy_cluster::specs::Replies::refusals, fy_cluster::specs::Replies::answer))]

ghost use Rattle.std.specs.Prelude.{◌≡◌, ℕ, IfOk};
ghost use Rattle.fy_acts.specs.declared.act.Act.TheVariants.{Begin, Deliver, Lose, Resend, Sync, CopyTo};
ghost use Rattle.fy_check_by_rules.specs.Allowed.{allowed_reply};

use crate::clock::clogged;
use crate::marks::{is_acked_with, is_among, marks_of};
use crate::network::{in_flight, is_full, sent};
use crate::past::Past;
use crate::strikes::{gone, up};
use crate::teams::{members_for, members_of, team_count, teams_of_records};
use crate::writes::{has_synced, unsynced};
use fy_acts::{Refusal, Reply};
use fy_disk::Payload;
use fy_locality::ProcId;
use fy_net::{Body, MOST_IN_FLIGHT};
use fy_team::{MOST_BYTES, MOST_RECORDS};
use std::alloc::AllocError;

/// The reply to a Begin.
pub(crate) fn begin(before: &Past, team: u32, payload: &Payload) -> Result<Reply, AllocError>
    ensures { IfOk result (λ reply. (by : ℕ)
        → reply ≡ allowed_reply before.now by (Begin team payload.now)) }
{
    let count = team_count(before)?;
    if team as usize >= count {
        return Ok(Reply::No(Refusal::NoTeam));
    }
    if payload.bytes().len() > MOST_BYTES {
        return Ok(Reply::No(Refusal::Payload));
    }
    let count = teams_of_records(before)?.len();
    if count >= MOST_RECORDS {
        return Ok(Reply::No(Refusal::TooMany));
    }
    let members = members_of(before, team)?;
    let full = is_full(before, members.len())?;
    if full {
        return Ok(Reply::No(Refusal::NetFull));
    }
    let first = sent(before)?.len() as u64;
    let rec = count as u32;
    Ok(Reply::Begun { rec, first })
}

/// The reply to a Deliver.
pub(crate) fn deliver(before: &Past, message: u64) -> Result<Reply, AllocError>
    ensures { IfOk result (λ reply. (by : ℕ)
        → reply ≡ allowed_reply before.now by (Deliver message)) }
{
    let flies = in_flight(before, message)?;
    if !flies {
        return Ok(Reply::No(Refusal::NoMessage));
    }
    let bodies = sent(before)?;
    match bodies.get(message as usize).copied() {
        Some(Body::Store { to, .. }) => {
            if clogged(before, to) {
                return Ok(Reply::No(Refusal::Clogged));
            }
            if !up(before, to) {
                return Ok(Reply::No(Refusal::NotUp));
            }
            Ok(Reply::Stored)
        }
        Some(Body::Synced { rec, from }) => {
            if clogged(before, from) {
                return Ok(Reply::No(Refusal::Clogged));
            }
            let acked = is_acked_with(before, rec, from)?;
            Ok(Reply::Marked { acked })
        }
        None => Ok(Reply::Done),
    }
}

/// The reply to a Lose.
pub(crate) fn lose(before: &Past, message: u64) -> Result<Reply, AllocError>
    ensures { IfOk result (λ reply. (by : ℕ) → reply ≡ allowed_reply before.now by (Lose message)) }
{
    let flies = in_flight(before, message)?;
    if !flies {
        return Ok(Reply::No(Refusal::NoMessage));
    }
    Ok(Reply::Done)
}

/// The reply to a Resend.
pub(crate) fn resend(before: &Past, rec: u32, process: ProcId) -> Result<Reply, AllocError>
    ensures { IfOk result (λ reply. (by : ℕ)
        → reply ≡ allowed_reply before.now by (Resend rec process)) }
{
    let count = teams_of_records(before)?.len();
    if rec as usize >= count {
        return Ok(Reply::No(Refusal::NoRecord));
    }
    let members = members_for(before, rec)?;
    if !is_among(&members, process) {
        return Ok(Reply::No(Refusal::NotMember));
    }
    let marks = marks_of(before, rec)?;
    if marks.acked {
        return Ok(Reply::No(Refusal::Acked));
    }
    let full = is_full(before, 1)?;
    if full {
        return Ok(Reply::No(Refusal::NetFull));
    }
    let message = sent(before)?.len() as u64;
    Ok(Reply::Sent { message })
}

/// The reply to a Sync.
pub(crate) fn sync(before: &Past, process: ProcId) -> Result<Reply, AllocError>
    ensures { IfOk result (λ reply. (by : ℕ) → reply ≡ allowed_reply before.now by (Sync process)) }
{
    if process.0 >= before.config.map().len() {
        return Ok(Reply::No(Refusal::NoProcess));
    }
    if !up(before, process) {
        return Ok(Reply::No(Refusal::NotUp));
    }
    let count = unsynced(before, process)?.len();
    let full = is_full(before, count)?;
    // The second test is part of the first; it shows that the count fits in the reply.
    if full || count > MOST_IN_FLIGHT {
        return Ok(Reply::No(Refusal::NetFull));
    }
    let first = sent(before)?.len() as u64;
    let count = count as u32;
    Ok(Reply::Synced { first, count })
}

/// The reply to a CopyTo.
pub(crate) fn copy(before: &Past, from: ProcId, rec: u32, to: ProcId) -> Result<Reply, AllocError>
    ensures { IfOk result (λ reply. (by : ℕ)
        → reply ≡ allowed_reply before.now by (CopyTo from rec to)) }
{
    let count = teams_of_records(before)?.len();
    if rec as usize >= count {
        return Ok(Reply::No(Refusal::NoRecord));
    }
    let processes = before.config.map().len();
    if from.0 >= processes || to.0 >= processes {
        return Ok(Reply::No(Refusal::NoProcess));
    }
    if gone(before, to) {
        return Ok(Reply::No(Refusal::Gone));
    }
    if !up(before, from) {
        return Ok(Reply::No(Refusal::NotUp));
    }
    let has = has_synced(before, rec, from)?;
    if !has {
        return Ok(Reply::No(Refusal::NoCopy));
    }
    let full = is_full(before, 1)?;
    if full {
        return Ok(Reply::No(Refusal::NetFull));
    }
    let message = sent(before)?.len() as u64;
    Ok(Reply::Sent { message })
}
