//! What the entries before say of disks: what was written, and what of it is synced.
#![tactic(auto, using(crate::proofs::Pasts::past_next, crate::proofs::Pasts::past_none))]

ghost use Rattle.std.specs.Prelude.{◌≡◌, ◌==◌, ◌<◌, ◌≤◌, ◌+◌, ◌++◌, [], length, map, find, ℕ, is_some, if◌then◌else◌, option_to_list, None, IfOk, OnOk};
ghost use Rattle.fy_cluster.specs.History.{History, destroys, some_is, is_stored, is_closing, writes, syncs_at, strikes, closes, close_keeps, synced, unsynced, has_synced};
ghost use Rattle.fy_check_by_rules.specs.Written.{place, is_open, is_kept};
ghost use Rattle.std.specs.List.{list_any};
ghost use Rattle.fy_check_by_rules.specs.Past.{as_step, past, history_of};
ghost use Rattle.fy_check_by_rules.specs.Later.{later_after};

use crate::past::Past;
use crate::step::FoundStep;
use crate::strikes::{destroys, strikes};
use fy_acts::Reply;
use fy_cluster::effects::{delivers, syncs, tear_of};
use fy_kinds::Kind;
use fy_locality::ProcId;
use fy_net::Body;
use std::alloc::AllocError;

/// The record that the step, a Deliver answered Stored, wrote to the process.
fn writes(step: &FoundStep, p: ProcId) -> Option<u32>
    ensures { result ≡ writes (as_step [] step.now) p.0 }
{
    if delivers(&step.entry).is_none() || !is_stored(step.entry.reply) {
        return None;
    }
    match step.message {
        Some(Body::Store { rec, to }) => if to.0 == p.0 { Some(rec) } else { None },
        Some(Body::Synced { .. }) | None => None,
    }
}

/// Whether it is the reply to a Store that was delivered.
fn is_stored(reply: Reply) -> bool
    ensures { result ≡ is_stored reply }
{
    match reply {
        Reply::Stored => true,
        _ => false,
    }
}

/// Whether the step is an accepted Sync of the process.
fn syncs_at(step: &FoundStep, p: ProcId) -> bool
    ensures { result ≡ syncs_at (as_step [] step.now) p.0 }
{
    match syncs(&step.entry) {
        Some(synced) => synced.0 == p.0,
        None => false,
    }
}

/// Whether the step struck the process by a kind that decides what becomes of unsynced writes.
fn strikes_disk(step: &FoundStep, p: ProcId) -> bool
    ensures { result ≡ some_is is_closing (strikes (as_step [] step.now) p.0) }
{
    match strikes(step, p) {
        Some(Kind::RebootProcess) | None => false,
        Some(Kind::Reboot | Kind::RebootAndDelete | Kind::KillInstantly) => true,
    }
}

/// Whether the step decides what becomes of the unsynced writes to the process.
fn closes(step: &FoundStep, p: ProcId) -> bool
    ensures { result ≡ closes p.0 (as_step [] step.now) }
{
    syncs_at(step, p) || strikes_disk(step, p)
}

/// How many writes to the process there were after the step since the last that closes, where so
/// many were before it.
fn place_after(step: &FoundStep, p: ProcId, place: usize) -> usize
    requires { place < 18446744073709551615 }
    ensures place { result ≡ (if closes p.0 (as_step [] step.now) then 0
        else (if is_some (writes (as_step [] step.now) p.0) then place + 1 else place)) }
    ensures next { result ≤ place + 1 }
{
    if closes(step, p) {
        return 0;
    }
    if writes(step, p).is_some() {
        return place + 1;
    }
    place
}

/// How many writes to the process there were since the last step that closes.
fn place(steps: &[FoundStep], p: ProcId) -> usize
    ensures place { result ≡ place (past steps.now) p.0 }
    ensures few { result ≤ length steps.now }
{
    let mut place = 0usize;
    for step in steps {
        place = place_after(step, p, place);
    }
    place
}

/// Whether the close keeps the write at this place.
fn close_keeps(step: &FoundStep, p: ProcId, place: usize) -> bool
    ensures { result ≡ close_keeps p.0 place (as_step [] step.now) }
{
    syncs_at(step, p)
        || !destroys(step, p) && place < 64 && (tear_of(&step.entry) >> place) & 1 == 1
}

/// Whether one of these later steps closes a write to the process.
fn some_closes(later: &[FoundStep], p: ProcId) -> bool
    ensures { result ≡ list_any (λ s. closes p.0 (as_step [] s)) later.now }
{
    later.iter().any(|step| closes(step, p))
}

/// Whether none of these later steps closes a write to the process.
fn is_open(later: &[FoundStep], p: ProcId) -> bool
    ensures { (h : History) (place : ℕ) → result ≡ is_open p.0 (later_after h later.now) place }
{
    !some_closes(later, p)
}

/// Whether the first of these later steps that closes keeps the write at this place.
fn first_keeps(later: &[FoundStep], p: ProcId, place: usize) -> bool
    ensures { result ≡ some_is (λ s. close_keeps p.0 place (as_step [] s))
        (find (λ s. closes p.0 (as_step [] s)) later.now) }
{
    for step in later {
        if closes(step, p) {
            return close_keeps(step, p, place);
        }
    }
    false
}

/// Whether one of these later steps struck the process by a destroying kind.
fn some_destroys(later: &[FoundStep], p: ProcId) -> bool
    ensures { result ≡ list_any (λ s. destroys (as_step [] s) p.0) later.now }
{
    later.iter().any(|step| destroys(step, p))
}

/// Whether the write at this place was kept at its close, and no destroying strike came after it.
#[tactic(auto, using(crate::proofs::Written::kept_later))]
fn is_kept(later: &[FoundStep], p: ProcId, place: usize) -> bool
    ensures { (h : History) → result ≡ is_kept p.0 (later_after h later.now) place }
{
    first_keeps(later, p, place) && !some_destroys(later, p)
}

/// The record that the step wrote to the process, if it was kept.
fn kept_write(step: &FoundStep, later: &[FoundStep], p: ProcId, place: usize) -> Option<u32>
    ensures { (h : History) → result ≡ (if is_kept p.0 (later_after h later.now) place
        then writes (as_step [] step.now) p.0 else None) }
{
    if !is_kept(later, p, place) {
        return None;
    }
    writes(step, p)
}

/// The record that the step wrote to the process, if nothing closed it.
fn open_write(step: &FoundStep, later: &[FoundStep], p: ProcId) -> Option<u32>
    ensures { (h : History) (place : ℕ) → result
        ≡ (if is_open p.0 (later_after h later.now) place
        then writes (as_step [] step.now) p.0 else None) }
{
    if !is_open(later, p) {
        return None;
    }
    writes(step, p)
}

/// Puts a record last, if there is one.
fn put(list: &mut Vec<u32>, rec: Option<u32>) -> Result<(), AllocError>
    ensures { OnOk result (list.new.items ≡ list.old.items ++ option_to_list rec) }
{
    match rec {
        Some(rec) => {
            list.push(rec)?;
            Ok(())
        }
        None => Ok(()),
    }
}

/// The records that the process has synced, in the order in which they were written.
pub(crate) fn synced(before: &Past, p: ProcId) -> Result<Vec<u32>, AllocError>
    ensures { IfOk result (λ list. list.items
        ≡ map (λ x. x.rec) (synced (history_of before.now) p.0)) }
{
    let Past { alloc, steps, .. } = *before;
    let mut list = Vec::new(alloc);
    for (i, step) in steps.iter().enumerate() {
        let place = place(&steps[..i], p);
        let kept = kept_write(step, &steps[i + 1..], p, place);
        put(&mut list, kept)?;
    }
    Ok(list)
}

/// The records that the process has written and neither synced nor lost, in that order.
pub(crate) fn unsynced(before: &Past, p: ProcId) -> Result<Vec<u32>, AllocError>
    ensures { IfOk result (λ list. list.items
        ≡ map (λ x. x.rec) (unsynced (history_of before.now) p.0)) }
{
    let Past { alloc, steps, .. } = *before;
    let mut list = Vec::new(alloc);
    for (i, step) in steps.iter().enumerate() {
        let open = open_write(step, &steps[i + 1..], p);
        put(&mut list, open)?;
    }
    Ok(list)
}

/// Whether the record is one of these.
fn is_one_of(list: &[u32], rec: u32) -> bool
    ensures { result ≡ list_any (λ n. n == rec) list.now }
{
    list.iter().any(|n| *n == rec)
}

/// Whether the process has the record synced.
pub(crate) fn has_synced(before: &Past, rec: u32, p: ProcId) -> Result<bool, AllocError>
    ensures { IfOk result (λ has. has ≡ has_synced (history_of before.now) rec p.0) }
{
    let list = synced(before, p)?;
    let has = is_one_of(&list, rec);
    Ok(has)
}
