//! The judge of a history of one register.
//!
//! Each value has one write, so in an order the operations of a value stand together. Value v comes
//! before value w wherever an operation of v ended before one of w began. Where no read is wrong by
//! itself, there is an order exactly where no two values come before each other: then the values may
//! stand as their zones begin.

ghost use Rattle.std.specs.Prelude.{◌≡◌, ◌<◌, ◌≤◌, ℕ, IfOk, IfSome, IfNone, length, vec_len, Contains, All, AllPairs};
ghost use Rattle.std.specs.List.Sorted.{IsNonDecreasingBy};
ghost use Rattle.fy_registers.specs.Linear.{IsHistory, IsWrittenOnce};
ghost use Rattle.fy_registers.specs.Evidence.{Judges, Shows};
ghost use Rattle.fy_registers.specs.Zones.{AreZones, AreTorn, IsLastOfNothing, IsNothingFirst, MayPrecede, zone_key};

use crate::evidence::{Evidence, Judgement};
use crate::operation::Operation;
use crate::zone::{Found, Zone, zones_of};
use std::alloc::{AllocError, Global};

/// The last read that found nothing.
fn last_of_nothing(operations: &[Operation]) -> Option<Operation>
    requires { IsHistory operations.now }
    ensures { IsLastOfNothing operations.now result }
{
    let mut last = None;
    for operation in operations {
        if operation.found_nothing() {
            last = Some(*operation);
        }
    }
    last
}

/// A zone of which an operation ended before a read began.
fn ended_before(zones: &[Zone], read: &Operation) -> Option<Zone>
    ensures found { IfSome result (λ zone. Contains zones.now zone) }
    ensures before { IfSome result (λ zone. zone.end < read.now.began) }
    ensures none { IfNone result (All (λ zone. read.now.began ≤ zone.end) zones.now) }
{
    zones.iter().copied().find(|zone| zone.end < read.began)
}

/// Two zones that come before each other.
fn torn(zones: &[Zone]) -> Option<(Zone, Zone)>
    requires { IsNonDecreasingBy zone_key zones.now }
    ensures found { IfSome result (λ pair. AreTorn zones.now pair.0 pair.1) }
    ensures none { IfNone result (AllPairs MayPrecede zones.now) }
{
    // Of the zones so far, the one with the last begin.
    let mut latest = 0;
    for i in 1..zones.len() {
        let one = zones[latest];
        let other = zones[i];
        if other.end < one.last.began {
            return Some((one, other));
        }
        if one.last.began < other.last.began {
            latest = i;
        }
    }
    None
}

/// An operation of a value, and a read behind it that found nothing.
fn lost(operations: &[Operation], zones: &[Zone]) -> Option<Evidence>
    requires history { IsHistory operations.now }
    requires zones { AreZones operations.now zones.now }
    ensures found { IfSome result (Shows operations.now) }
    ensures none { IfNone result (IsNothingFirst operations.now zones.now) }
{
    let read = last_of_nothing(operations)?;
    let zone = ended_before(zones, &read)?;
    Some(Evidence::Nothing {
        ended: zone.first,
        read,
    })
}

/// Judges a history by its zones.
fn judge_zones(operations: &[Operation], mut zones: Vec<Zone>) -> Judgement
    requires history { IsHistory operations.now }
    requires once { IsWrittenOnce operations.now }
    requires zones { AreZones operations.now zones.items }
    ensures { Judges operations.now result }
{
    if let Some(evidence) = lost(operations, &zones) {
        return Judgement::Not(evidence);
    }
    zones.sort_unstable_by_key(|zone| zone.key());
    match torn(&zones) {
        Some((one, other)) => Judgement::Not(Evidence::Conflict {
            one: one.span(),
            other: other.span(),
        }),
        None => Judgement::Linearizable,
    }
}

/// Judges a history of one register: whether its operations have a linearization, and what shows it
/// where they have none. A register holds nothing at first.
///
/// What was never answered, or is known not to have been done, is no operation: a read that got no
/// answer, and a write that failed. A history of many registers has a linearization exactly where
/// each register's operations have one, so they are judged one by one.
///
/// # Errors
///
/// An allocation failed.
pub fn judge(alloc: Global, operations: &[Operation]) -> Result<Judgement, AllocError>
    requires { IsHistory operations.now }
    ensures { IfOk result (Judges operations.now) }
{
    match zones_of(alloc, operations)? {
        Found::Zones(zones) => Ok(judge_zones(operations, zones)),
        Found::Judged(judgement) => Ok(judgement),
    }
}
