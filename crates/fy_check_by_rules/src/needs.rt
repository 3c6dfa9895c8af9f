//! Which acknowledged records a process still needs, by the entries before.
#![tactic(auto, using(crate::proofs::Lists::none_next))]

ghost use Rattle.std.specs.Prelude.{◌≡◌, ◌≤◌, ◌&&◌, not, length, IfOk};
ghost use Rattle.fy_team.specs.Teams.{is_among};
ghost use Rattle.fy_cluster.specs.declared.config.TheConstants.{MOST_JOURNAL_ENTRIES};
ghost use Rattle.fy_cluster.specs.History.{acked, has_synced, members_for};
ghost use Rattle.fy_cluster.specs.Replies.{is_of_team, needed_by};
ghost use Rattle.fy_check_by_rules.specs.Past.{history_of};

use crate::marks::{is_among, marks_of};
use crate::past::Past;
use crate::teams::{members_for, teams_of_records};
use crate::writes::has_synced;
use fy_locality::ProcId;
use std::alloc::AllocError;

/// Whether the process still needs the record as a member of its team: the record is acknowledged,
/// and the process is a member that hasn't synced it.
fn member_needs(before: &Past, rec: u32, p: ProcId) -> Result<bool, AllocError>
    ensures { IfOk result (λ needs. needs ≡ (acked (history_of before.now) rec
        && is_among (members_for (history_of before.now) rec) p.0
        && not (has_synced (history_of before.now) rec p.0))) }
{
    let marks = marks_of(before, rec)?;
    let members = members_for(before, rec)?;
    let has = has_synced(before, rec, p)?;
    Ok(marks.acked && is_among(&members, p) && !has)
}

/// Whether the record is of the team.
fn is_of_team(before: &Past, team: u32, rec: u32) -> Result<bool, AllocError>
    ensures { IfOk result (λ is. is ≡ is_of_team (history_of before.now) team rec) }
{
    let records = teams_of_records(before)?;
    match records.get(rec as usize) {
        Some(number) => Ok(*number == team),
        None => Ok(false),
    }
}

/// Whether the process needs the record to come into the team: the record is acknowledged and of
/// the team, and the process hasn't synced it.
fn newcomer_needs(before: &Past, team: u32, rec: u32, p: ProcId) -> Result<bool, AllocError>
    ensures { IfOk result (λ needs. needs ≡ (acked (history_of before.now) rec
        && is_of_team (history_of before.now) team rec
        && not (has_synced (history_of before.now) rec p.0))) }
{
    let marks = marks_of(before, rec)?;
    let of_team = is_of_team(before, team, rec)?;
    let has = has_synced(before, rec, p)?;
    Ok(marks.acked && of_team && !has)
}

/// The least record that the process still needs as a member of its team.
pub(crate) fn needed_by_member(before: &Past, p: ProcId) -> Result<Option<u32>, AllocError>
    requires few { length before.now.steps.now ≤ MOST_JOURNAL_ENTRIES }
    ensures { IfOk result (λ need. need ≡ needed_by (history_of before.now) p.0
        (λ r. is_among (members_for (history_of before.now) r) p.0)) }
{
    let list = teams_of_records(before)?;
    let count = list.len() as u32;
    for rec in 0..count {
        let needs = member_needs(before, rec, p)?;
        if needs {
            return Ok(Some(rec));
        }
    }
    Ok(None)
}

/// The least record that the process needs to come into the team.
pub(crate) fn needed_by_newcomer(
    before: &Past,
    team: u32,
    p: ProcId,
) -> Result<Option<u32>, AllocError>
    requires few { length before.now.steps.now ≤ MOST_JOURNAL_ENTRIES }
    ensures { IfOk result (λ need. need ≡ needed_by (history_of before.now) p.0
        (is_of_team (history_of before.now) team)) }
{
    let list = teams_of_records(before)?;
    let count = list.len() as u32;
    for rec in 0..count {
        let needs = newcomer_needs(before, team, rec, p)?;
        if needs {
            return Ok(Some(rec));
        }
    }
    Ok(None)
}
