//! What an entry did, from what the entries before say.
ghost use Rattle.std.specs.Prelude.{◌≡◌, ◌≤◌, ℕ, length, map, slice_get, IfOk};
ghost use Rattle.std.specs.FinSet as sets;
ghost use Rattle.fy_decide.specs.Verdicts.{targets};
ghost use Rattle.fy_net.specs.declared.message.Body.TheVariants.{Synced};
ghost use Rattle.fy_cluster.specs.declared.config.TheConstants.{MOST_JOURNAL_ENTRIES};
ghost use Rattle.fy_cluster.specs.History.{targets_of, message_of, sends_of, stores_of, acks_of, members_of, records, unsynced, sent, step_of};
ghost use Rattle.fy_check_by_rules.specs.Past.{as_step, history_of};

use crate::network::sent;
use crate::past::Past;
use crate::step::FoundStep;
use crate::strikes::targets;
use crate::teams::{members_of, teams_of_records};
use crate::writes::unsynced;
use fy_acts::{Act, Entry};
use fy_cluster::effects::{is_accepted, target_of};
use fy_locality::{ProcId, ProcSet};
use fy_net::Body;
use std::alloc::{AllocError, Global};

/// Whom the act's target names.
fn targets_of(before: &Past, act: &Act) -> ProcSet
    ensures { (p : ℕ) → sets.contains result p
        ≡ targets_of before.now.config.now (history_of before.now) act.now p }
{
    match target_of(act) {
        Some(target) => targets(before, &target),
        None => ProcSet::empty(),
    }
}

/// The message that the act names.
fn message_of(before: &Past, act: &Act) -> Result<Option<Body>, AllocError>
    ensures { IfOk result (λ message. message ≡ message_of (history_of before.now) act.now) }
{
    match *act {
        Act::Deliver { message } => message_at(before, message),
        Act::Lose { message } => message_at(before, message),
        _ => Ok(None),
    }
}

/// The message with a number.
fn message_at(before: &Past, message: u64) -> Result<Option<Body>, AllocError>
    ensures { IfOk result (λ body. body ≡ slice_get (sent (history_of before.now)) message) }
{
    let bodies = sent(before)?;
    Ok(bodies.get(message as usize).copied())
}

/// A store of the record to each of these processes.
fn stores_of(alloc: Global, rec: u32, processes: &[ProcId]) -> Result<Vec<Body>, AllocError>
    ensures { IfOk result (λ stores. stores.items ≡ stores_of rec processes.now) }
{
    processes
        .iter()
        .map(|p| Body::Store { rec, to: *p })
        .collect(alloc)
}

/// The process's acknowledgement of each of these records.
fn acks_of(alloc: Global, process: ProcId, records: &[u32]) -> Result<Vec<Body>, AllocError>
    ensures { IfOk result (λ words. words.items ≡ map (λ rec. Synced rec process) records.now) }
{
    records
        .iter()
        .map(|rec| Body::Synced {
            rec: *rec,
            from: process,
        })
        .collect(alloc)
}

/// What a Begin sends: a store of the next record to each member of the team.
fn begin_sends(before: &Past, team: u32) -> Result<Vec<Body>, AllocError>
    requires few { length before.now.steps.now ≤ MOST_JOURNAL_ENTRIES }
    ensures { IfOk result (λ stores. stores.items
        ≡ stores_of (length (records (history_of before.now)))
        (members_of (history_of before.now) team)) }
{
    let rec = teams_of_records(before)?.len() as u32;
    let members = members_of(before, team)?;
    stores_of(before.alloc, rec, &members)
}

/// What a Sync sends: an acknowledgement of each unsynced write.
fn sync_sends(before: &Past, process: ProcId) -> Result<Vec<Body>, AllocError>
    ensures { IfOk result (λ words. words.items
        ≡ acks_of process (unsynced (history_of before.now) process.0)) }
{
    let records = unsynced(before, process)?;
    let words = acks_of(before.alloc, process, &records)?;
    Ok(words)
}

/// What the act sends where it is accepted.
fn sends_of(before: &Past, act: &Act) -> Result<Vec<Body>, AllocError>
    requires few { length before.now.steps.now ≤ MOST_JOURNAL_ENTRIES }
    ensures { IfOk result (λ sends. sends.items ≡ sends_of (history_of before.now) act.now) }
{
    match *act {
        Act::Begin { team, .. } => begin_sends(before, team),
        Act::Resend { rec, process } => Ok(Vec::from_slice(
            before.alloc,
            &[Body::Store { rec, to: process }],
        )?),
        Act::CopyTo { rec, to, .. } => Ok(Vec::from_slice(
            before.alloc,
            &[Body::Store { rec, to }],
        )?),
        Act::Sync { process } => sync_sends(before, process),
        _ => Ok(Vec::new(before.alloc)),
    }
}

/// The entry with what it did.
pub(crate) fn step_of(before: &Past, entry: &Entry) -> Result<FoundStep, AllocError>
    requires few { length before.now.steps.now ≤ MOST_JOURNAL_ENTRIES }
    ensures { IfOk result (λ step. as_step (history_of before.now) step
        ≡ step_of before.now.config.now (history_of before.now) entry.now) }
{
    let targets = targets_of(before, &entry.act);
    let message = message_of(before, &entry.act)?;
    let sends = if is_accepted(entry.reply) {
        sends_of(before, &entry.act)?
    } else {
        Vec::new(before.alloc)
    };
    Ok(FoundStep {
        entry: entry.try_copy(before.alloc)?,
        targets,
        message,
        sends,
    })
}
