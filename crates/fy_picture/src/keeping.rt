//! Which process keeps each record at the end of a journal, and which entry acknowledged it.
ghost use Rattle.std.specs.Prelude.{◌≡◌, ◌≤◌, ◌<◌, ◌==◌, ℕ, IfOk, OnOk, IsTrue, is_some, length, option_map, slice_get};
ghost use Rattle.fy_cluster.specs.Execution.{history_of};
ghost use Rattle.fy_cluster.specs.History.{begins, records, some_is};
ghost use Rattle.fy_picture.specs.declared.TheConstants.{MOST_KEPT};
ghost use Rattle.fy_picture.specs.Keeping.{BeginsNext, ListsKeepers, Notes, acknowledged, noted, says_acked, with_begun};

use crate::MOST_KEPT;
use fy_acts::{Act, Entry, Reply};
use fy_cluster::ClusterState;
use fy_cluster::effects::is_accepted;
use fy_locality::ProcId;
use std::alloc::{AllocError, Global};

/// Whether the entry begins a record.
fn begins(entry: &Entry) -> bool
    ensures { result ≡ is_some (begins entry.now.act entry.now.reply) }
{
    if let Act::Begin { .. } = entry.act {
        is_accepted(entry.reply)
    } else {
        false
    }
}

/// Whether a reply says that a record is acknowledged now.
fn says_acked(reply: Reply) -> bool
    ensures { result ≡ says_acked reply }
{
    match reply {
        Reply::Marked { acked } => acked,
        _ => false,
    }
}

/// The record that an entry with this reply acknowledges, where it delivers a process's
/// acknowledgement of the record `marked`.
pub(crate) fn acknowledged(reply: Reply, marked: Option<u32>) -> Option<u32>
    ensures { result ≡ acknowledged reply marked }
{
    if says_acked(reply) { marked } else { None }
}

/// Notes that the entry at this place acknowledged a record, where no earlier entry did.
fn note(acked_at: &mut Vec<Option<u32>>, rec: usize, at: u32)
    ensures count { length acked_at.new.items ≡ length acked_at.old.items }
    ensures each { (r : ℕ) → slice_get acked_at.new.items r
        ≡ option_map (noted at (rec == r)) (slice_get acked_at.old.items r) }
{
    if rec < acked_at.len() {
        acked_at[rec] = acked_at[rec].or(Some(at));
    }
}

/// Whether the entry, which comes next in the cluster, begins a record of which the picture tells.
/// Nobody keeps that record before.
pub(crate) fn begins_next(cluster: &ClusterState, entry: &Entry, known: usize) -> bool
    ensures next { IsTrue result → BeginsNext cluster.now entry.now known }
    ensures only { known < MOST_KEPT → IsTrue (is_some (begins entry.now.act entry.now.reply))
        → length (records (history_of cluster.now)) ≤ known → IsTrue result }
{
    if known >= MOST_KEPT as usize {
        return false;
    }
    if !begins(entry) {
        return false;
    }
    cluster.keeper(known as u32).is_none()
}

/// Notes that a record was begun.
fn note_begun(acked_at: &mut Vec<Option<u32>>, is_begun: bool) -> Result<(), AllocError>
    ensures { OnOk result (acked_at.new.items ≡ with_begun is_begun acked_at.old.items) }
{
    if is_begun {
        acked_at.push(None)?;
    }
    Ok(())
}

/// Notes the entry at this place: for a record that it begins, and for the one that it
/// acknowledges.
pub(crate) fn note_entry(
    at: u32,
    is_begun: bool,
    acked: Option<u32>,
    acked_at: &mut Vec<Option<u32>>,
) -> Result<(), AllocError>
    ensures { OnOk result (Notes at (λ r. some_is (λ rec. rec == r) acked)
        (with_begun is_begun acked_at.old.items) acked_at.new.items) }
{
    note_begun(acked_at, is_begun)?;
    if let Some(rec) = acked {
        note(acked_at, rec as usize, at);
    }
    Ok(())
}

/// The keepers of the first records of a cluster, by their numbers.
pub(crate) fn keepers_of(
    alloc: Global,
    cluster: &ClusterState,
    count: u32,
) -> Result<Vec<Option<ProcId>>, AllocError>
    ensures { IfOk result (λ keepers. ListsKeepers cluster.now count keepers.items) }
{
    let mut keepers = Vec::new(alloc);
    for rec in 0..count {
        keepers.push(cluster.keeper(rec))?;
    }
    Ok(keepers)
}
