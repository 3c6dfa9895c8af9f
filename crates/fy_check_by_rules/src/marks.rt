//! What the entries before say of marks: who has marked a record, and whether it is acknowledged.
#![tactic(auto, using(crate::proofs::Pasts::past_next, crate::proofs::Pasts::past_none, crate::proofs::Among::among))]

ghost use Rattle.std.specs.Prelude.{◌≡◌, ◌==◌, ◌&&◌, ◌||◌, not, ℕ, [], IfOk};
ghost use Rattle.std.specs.List.{list_all};
ghost use Rattle.fy_team.specs.Teams.{is_among};
ghost use Rattle.fy_cluster.specs.History.{some_is, marks, delivers_ack_of, heals_at, marked_after, marked, acked};
ghost use Rattle.fy_cluster.specs.Replies.{is_acked_with};
ghost use Rattle.fy_check_by_rules.specs.Past.{as_step, history_of};

use crate::past::Past;
use crate::step::FoundStep;
use crate::teams::{members_for, without};
use fy_cluster::effects::{delivers, heals};
use fy_locality::ProcId;
use fy_net::Body;
use std::alloc::{AllocError, Global};

/// Whether the step delivered a Synced of the record, whoever sent it.
fn delivers_ack_of(step: &FoundStep, rec: u32) -> bool
    ensures { result ≡ delivers_ack_of (as_step [] step.now) rec }
{
    if delivers(&step.entry).is_none() {
        return false;
    }
    match step.message {
        Some(Body::Synced { rec: synced, .. }) => synced == rec,
        Some(Body::Store { .. }) | None => false,
    }
}

/// Who has marked a record, and whether it is acknowledged.
#[derive(Drop)]
pub(crate) struct Marks {
    marked: Vec<ProcId>,
    pub(crate) acked: bool,
}

/// Whether the process is one of these.
pub(crate) fn is_among(processes: &[ProcId], p: ProcId) -> bool
    ensures { result ≡ is_among processes.now p.0 }
{
    processes.iter().any(|q| q.0 == p.0)
}

/// The process from which the step delivered a Synced of the record.
fn teller(step: &FoundStep, rec: u32) -> Option<ProcId>
    ensures { (p : ℕ) → marks (as_step [] step.now) rec p ≡ some_is (λ q. q.0 == p) result }
{
    if delivers(&step.entry).is_none() {
        return None;
    }
    match step.message {
        Some(Body::Synced { rec: synced, from }) => if synced == rec { Some(from) } else { None },
        Some(Body::Store { .. }) | None => None,
    }
}

/// The processes that keep their mark through the step. A healed process loses its mark, unless the
/// record is acknowledged.
fn still_marked(alloc: Global, step: &FoundStep, were: &Marks) -> Result<Vec<ProcId>, AllocError>
    ensures { IfOk result (λ list. (p : ℕ) → is_among list.items p
        ≡ (not (heals_at (as_step [] step.now) p && not were.now.acked)
        && is_among were.now.marked.items p)) }
{
    match heals(&step.entry) {
        Some(healed) if !were.acked => {
            let list = without(alloc, &were.marked, healed)?;
            Ok(list)
        }
        _ => Ok(Vec::from_slice(alloc, &were.marked)?),
    }
}

/// The processes that have a mark after the step.
fn marked_then(
    alloc: Global,
    step: &FoundStep,
    rec: u32,
    were: &Marks,
) -> Result<Vec<ProcId>, AllocError>
    ensures { IfOk result (λ list. (p : ℕ) → is_among list.items p
        ≡ marked_after (as_step [] step.now) rec p were.now.acked
        (is_among were.now.marked.items p)) }
{
    let mut list = still_marked(alloc, step, were)?;
    match teller(step, rec) {
        Some(from) => {
            list.extend_from_slice(&[from])?;
            Ok(list)
        }
        None => Ok(list),
    }
}

/// Whether each of the members has a mark.
fn all_marked(members: &[ProcId], marked: &[ProcId]) -> bool
    ensures { result ≡ list_all (λ p. is_among marked.now p.0) members.now }
{
    members.iter().all(|p| is_among(marked, *p))
}

/// Whether a record is acknowledged after a step: it was, or a Synced of it was delivered and every
/// member of its team has a mark now.
fn acked_then(was_acked: bool, told: bool, members: &[ProcId], marked: &[ProcId]) -> bool
    ensures { result ≡ (was_acked || told
        && list_all (λ p. is_among marked.now p.0) members.now) }
{
    was_acked || told && all_marked(members, marked)
}

/// Who has marked the record, and whether it is acknowledged: a Synced of it was delivered after
/// which every member of its team had a mark.
pub(crate) fn marks_of(before: &Past, rec: u32) -> Result<Marks, AllocError>
    ensures acked { IfOk result (λ it. it.acked ≡ acked (history_of before.now) rec) }
    ensures marked { IfOk result (λ it. (p : ℕ)
        → is_among it.marked.items p ≡ marked (history_of before.now) rec p) }
{
    let Past { alloc, steps, .. } = *before;
    let mut marks = Marks {
        marked: Vec::new(alloc),
        acked: false,
    };
    for (i, step) in steps.iter().enumerate() {
        let then = Past {
            steps: &steps[..i],
            ..*before
        };
        let members = members_for(&then, rec)?;
        let marked = marked_then(alloc, step, rec, &marks)?;
        let acked = acked_then(marks.acked, delivers_ack_of(step, rec), &members, &marked);
        marks = Marks { marked, acked };
    }
    Ok(marks)
}

/// Whether the record was acknowledged, or each of the members has a mark or is the process.
fn acked_or_marked(acked: bool, members: &[ProcId], marked: &[ProcId], p: ProcId) -> bool
    ensures { result ≡ (acked
        || list_all (λ q. is_among marked.now q.0 || q.0 == p.0) members.now) }
{
    acked || are_marked_with(members, marked, p)
}

/// Whether each of the members has a mark or is the process.
fn are_marked_with(members: &[ProcId], marked: &[ProcId], p: ProcId) -> bool
    ensures { result ≡ list_all (λ q. is_among marked.now q.0 || q.0 == p.0) members.now }
{
    members.iter().all(|q| is_among(marked, *q) || q.0 == p.0)
}

/// Whether the record is acknowledged, or every member of its team has a mark once the process has
/// one.
pub(crate) fn is_acked_with(before: &Past, rec: u32, p: ProcId) -> Result<bool, AllocError>
    ensures { IfOk result (λ acked. acked ≡ is_acked_with (history_of before.now) rec p.0) }
{
    let marks = marks_of(before, rec)?;
    let members = members_for(before, rec)?;
    let acked = acked_or_marked(marks.acked, &members, &marks.marked, p);
    Ok(acked)
}
