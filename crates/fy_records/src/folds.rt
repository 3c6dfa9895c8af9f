//! What is found in one pass over reads.
ghost use Rattle.std.specs.Prelude.{◌≡◌, not, ◌<◌, ◌+◌, ◌^◌, ℕ, ◌&&◌, ◌||◌, ◌⊎◌, nat_lt, nat_le, Contains, Some, IfSome, IfNone, true, false};
ghost use Rattle.std.specs.List.{list_any};
ghost use Rattle.fy_records.specs.declared.seen.Seen.{Seen};
ghost use Rattle.fy_records.specs.Reads.{began_after, is_at_end, passes, tells, ended_before, is_before};
ghost use Rattle.fy_records.specs.Verdicts.{IsToldAt};
ghost use Rattle.fy_records.specs.Found.{reaches};

use crate::seen::{Seen, Test};
use fy_history::Place;

/// The later of a line and the line at which a read began that passes a test.
fn later(last: u32, seen: &Seen, test: Test) -> u32
    ensures { (line : ℕ) → nat_lt line result
        ≡ (nat_lt line last || (passes test seen.now && began_after line seen.now)) }
{
    if seen.passes(test) && last < seen.read.began.line {
        return seen.read.began.line;
    }
    last
}

/// The line at which the last of those began that pass a test; 0 where there is none.
pub(crate) fn latest(reads: &[Seen], test: Test) -> u32
    ensures { (line : ℕ) → nat_lt line result
        ≡ list_any (λ seen. passes test seen && began_after line seen) reads.now }
{
    let mut last = 0;
    for seen in reads {
        last = later(last, seen, test);
    }
    last
}

/// Whether a time is so much behind another, if there is one.
pub(crate) fn is_behind(first: Option<u64>, more: u64, nanos: u64) -> bool
    ensures { result ≡ reaches first more nanos }
{
    match first {
        Some(first) => first <= nanos && more <= nanos - first,
        None => false,
    }
}

/// The earlier of a time and that at which a read at the end began.
fn earlier_nanos(first: Option<u64>, seen: &Seen, written: Option<Place>) -> Option<u64>
    ensures { (more nanos : ℕ) → reaches result more nanos
        ≡ (reaches first more nanos
        || (is_at_end written seen.now && nat_le (seen.now.read.began.nanos + more) nanos)) }
{
    if !seen.is_at_end(written) {
        return first;
    }
    match first {
        Some(first) => Some(first.min(seen.read.began.nanos)),
        None => Some(seen.read.began.nanos),
    }
}

/// The time at which the first of the reads at the end began.
pub(crate) fn earliest_nanos(reads: &[Seen], written: Option<Place>) -> Option<u64>
    ensures { (more nanos : ℕ) → reaches result more nanos
        ≡ list_any (λ seen. is_at_end written seen
        && nat_le (seen.read.began.nanos + more) nanos) reads.now }
{
    let mut first = None;
    for seen in reads {
        first = earlier_nanos(first, seen, written);
    }
    first
}

/// Whether a read ended before a place, or there is no place.
fn ends_earlier(ended: Place, first: Option<Place>) -> bool
    ensures { result ≡ not (is_before (ended.line + 1) first) }
{
    match first {
        Some(place) => ended.line < place.line,
        None => true,
    }
}

/// The earlier of a place and the end of a read that told a value.
fn earlier(first: Option<Place>, seen: &Seen, value: u32) -> Option<Place>
    ensures before { (line : ℕ) → is_before line result
        ≡ (is_before line first || (tells value seen.now && ended_before line seen.now)) }
    ensures there { (result ≡ first)
        ⊎ ((tells value seen.now ≡ true) × (seen.now.read.ended ≡ result)) }
{
    match seen.read.ended {
        Some(ended) if seen.tells(value) && ends_earlier(ended, first) => Some(ended),
        _ => first,
    }
}

/// Where the first read ended that told a value.
pub(crate) fn first_told(reads: &[Seen], value: u32) -> Option<Place>
    ensures before { (line : ℕ) → is_before line result
        ≡ list_any (λ seen. tells value seen && ended_before line seen) reads.now }
    ensures there { IsToldAt reads.now value result }
{
    let mut first = None;
    for seen in reads {
        first = earlier(first, seen, value);
    }
    first
}

/// Where it was first known that a value stands: where its write was acknowledged, or a read ended
/// that told it.
pub(crate) fn known_from(acked: Place, reads: &[Seen], value: u32) -> Place
    ensures before { (line : ℕ) → nat_lt result.line line ≡ (nat_lt acked.line line
        || list_any (λ seen. tells value seen && ended_before line seen) reads.now) }
    ensures there { (result ≡ acked) ⊎ IsToldAt reads.now value (Some result) }
{
    match first_told(reads, value) {
        Some(told) => { if told.line < acked.line { told } else { acked } }
        None => acked,
    }
}
