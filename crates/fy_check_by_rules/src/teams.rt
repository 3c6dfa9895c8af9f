//! What the entries before say of teams and records.
#![tactic(auto, using(crate::proofs::Pasts::past_next, crate::proofs::Pasts::past_none))]

ghost use Rattle.std.specs.Prelude.{◌≡◌, ◌==◌, ◌≤◌, ◌+◌, ◌++◌, ◌∷◌, length, map, filter, not, nat_le, nat_lt, is_none, Some, option_map, option_to_list, IfOk, IfSome, OnOk};
ghost use Rattle.fy_team.specs.Teams.{swapped};
ghost use Rattle.fy_cluster.specs.History.{begins, forms, replaces, after_swap, records, teams, members_of, members_for};
ghost use Rattle.fy_cluster.specs.Replies.{policy_of};
ghost use Rattle.fy_check_by_rules.specs.Past.{history_of};
ghost use Rattle.fy_check_by_rules.specs.Formed.{team_of, swap_of};

use crate::past::Past;
use fy_acts::{Act, Entry};
use fy_cluster::effects::is_accepted;
use fy_locality::ProcId;
use std::alloc::{AllocError, Global};

/// A team as it stands after the entries before: its members by rising number, and the number of
/// its policy.
#[derive(Drop)]
pub(crate) struct Team {
    pub(crate) members: Vec<ProcId>,
    pub(crate) policy: u32,
}

/// A replacement in a team: who leaves, and who joins.
#[derive(Clone, Copy)]
pub(crate) struct Swap {
    pub(crate) team: u32,
    pub(crate) out: ProcId,
    pub(crate) into: ProcId,
}

/// The members without one of them.
pub(crate) fn without(
    alloc: Global,
    members: &[ProcId],
    out: ProcId,
) -> Result<Vec<ProcId>, AllocError>
    ensures { IfOk result (λ list. list.items ≡ filter (λ p. not (p.0 == out.0)) members.now) }
{
    members
        .iter()
        .copied()
        .filter(|p| p.0 != out.0)
        .collect(alloc)
}

/// The members below a number.
fn below(alloc: Global, members: &[ProcId], p: ProcId) -> Result<Vec<ProcId>, AllocError>
    ensures { IfOk result (λ list. list.items ≡ filter (λ q. nat_lt q.0 p.0) members.now) }
{
    members.iter().copied().filter(|q| q.0 < p.0).collect(alloc)
}

/// The members above a number.
fn above(alloc: Global, members: &[ProcId], p: ProcId) -> Result<Vec<ProcId>, AllocError>
    ensures { IfOk result (λ list. list.items ≡ filter (λ q. nat_lt p.0 q.0) members.now) }
{
    members.iter().copied().filter(|q| q.0 > p.0).collect(alloc)
}

/// The processes of one list, a process, and those of another list.
fn joined(low: Vec<ProcId>, p: ProcId, high: &[ProcId]) -> Result<Vec<ProcId>, AllocError>
    ensures { IfOk result (λ list. list.items ≡ low.items ++ p ∷ high.now) }
{
    let mut list = low;
    list.extend_from_slice(&[p])?;
    list.extend_from_slice(high)?;
    Ok(list)
}

/// The members after a replacement.
pub(crate) fn swapped(
    alloc: Global,
    members: &[ProcId],
    out: ProcId,
    into: ProcId,
) -> Result<Vec<ProcId>, AllocError>
    ensures { IfOk result (λ list. list.items ≡ swapped out into members.now) }
{
    let staying = without(alloc, members, out)?;
    let low = below(alloc, &staying, into)?;
    let high = above(alloc, &staying, into)?;
    joined(low, into, &high)
}

/// The team of the record that the entry begins.
fn begins(entry: &Entry) -> Option<u32>
    ensures { result ≡ option_map (λ b. b.team) (begins entry.now.act entry.now.reply) }
{
    if let Act::Begin { team, .. } = entry.act
        && is_accepted(entry.reply)
    {
        Some(team)
    } else {
        None
    }
}

/// Puts the team of the record that the entry begins last.
fn put_record(list: &mut Vec<u32>, entry: &Entry) -> Result<(), AllocError>
    ensures put { OnOk result (list.new.items ≡ list.old.items
        ++ option_to_list (option_map (λ b. b.team) (begins entry.now.act entry.now.reply))) }
    ensures one { OnOk result (length list.new.items ≤ length list.old.items + 1) }
{
    match begins(entry) {
        Some(team) => {
            list.push(team)?;
            Ok(())
        }
        None => Ok(()),
    }
}

/// The team of each record, by the record's number.
#[tactic(auto, using(crate::proofs::Pasts::past_next, crate::proofs::Pasts::past_none, crate::proofs::Lists::map_begun))]
pub(crate) fn teams_of_records(before: &Past) -> Result<Vec<u32>, AllocError>
    ensures teams { IfOk result (λ list. list.items
        ≡ map (λ b. b.team) (records (history_of before.now))) }
    ensures few { IfOk result (λ list. length list.items ≤ length before.now.steps.now) }
{
    let mut list = Vec::new(before.alloc);
    for step in before.steps {
        put_record(&mut list, &step.entry)?;
    }
    Ok(list)
}

/// Makes the swap in its team, if the team is there.
fn swap_in(alloc: Global, list: &mut Vec<Team>, swap: Swap) -> Result<(), AllocError>
    ensures { OnOk result (map team_of list.new.items
        ≡ after_swap (Some (swap_of swap)) (map team_of list.old.items)) }
{
    let team = swap.team as usize;
    if team >= list.len() {
        return Ok(());
    }
    let kept = &mut list[team];
    kept.members = swapped(alloc, &kept.members, swap.out, swap.into)?;
    Ok(())
}

/// Puts the team that the entry forms last, or swaps a member of a team.
fn put_team(alloc: Global, list: &mut Vec<Team>, entry: &Entry) -> Result<(), AllocError>
    ensures { OnOk result (map team_of list.new.items
        ≡ after_swap (replaces entry.now.act entry.now.reply) (map team_of list.old.items)
        ++ option_to_list (forms entry.now.act entry.now.reply)) }
{
    if !is_accepted(entry.reply) {
        return Ok(());
    }
    match entry.act {
        Act::Form {
            ref members,
            policy,
        } => {
            let members = Vec::from_slice(alloc, members.as_slice())?;
            list.push(Team { members, policy })?;
            Ok(())
        }
        Act::Replace { team, out, into } => swap_in(alloc, list, Swap { team, out, into }),
        _ => Ok(()),
    }
}

/// The teams, by number.
pub(crate) fn teams(before: &Past) -> Result<Vec<Team>, AllocError>
    ensures { IfOk result (λ list. map team_of list.items ≡ teams (history_of before.now)) }
{
    let mut list = Vec::new(before.alloc);
    for step in before.steps {
        put_team(before.alloc, &mut list, &step.entry)?;
    }
    Ok(list)
}

/// How many teams there are.
pub(crate) fn team_count(before: &Past) -> Result<usize, AllocError>
    ensures { IfOk result (λ count. count ≡ length (teams (history_of before.now))) }
{
    let list = teams(before)?;
    Ok(list.len())
}

/// The team with a number, if there is one.
pub(crate) fn team_at(before: &Past, team: u32) -> Result<Option<Team>, AllocError>
    ensures there { IfOk result (λ found. is_none found
        ≡ nat_le (length (teams (history_of before.now))) team) }
    ensures members { IfOk result (λ found. IfSome found (λ kept. kept.members.items
        ≡ members_of (history_of before.now) team)) }
    ensures policy { IfOk result (λ found. IfSome found (λ kept. kept.policy
        ≡ policy_of (history_of before.now) team)) }
{
    let teams = teams(before)?;
    match teams.get(team as usize) {
        Some(kept) => {
            let members = Vec::from_slice(before.alloc, &kept.members)?;
            let policy = kept.policy;
            Ok(Some(Team { members, policy }))
        }
        None => Ok(None),
    }
}

/// The members of the team with a number: none, where there is no such team.
pub(crate) fn members_of(before: &Past, team: u32) -> Result<Vec<ProcId>, AllocError>
    ensures { IfOk result (λ list. list.items ≡ members_of (history_of before.now) team) }
{
    let teams = teams(before)?;
    match teams.get(team as usize) {
        Some(kept) => Ok(Vec::from_slice(before.alloc, &kept.members)?),
        None => Ok(Vec::new(before.alloc)),
    }
}

/// The members of the record's team: none, where there is no such record.
pub(crate) fn members_for(before: &Past, rec: u32) -> Result<Vec<ProcId>, AllocError>
    ensures { IfOk result (λ list. list.items ≡ members_for (history_of before.now) rec) }
{
    let records = teams_of_records(before)?;
    match records.get(rec as usize) {
        Some(team) => members_of(before, *team),
        None => Ok(Vec::new(before.alloc)),
    }
}
