//! Columns by time.
ghost use Rattle.std.specs.Prelude.{◌≡◌, ◌<◌, ◌≤◌, ◌+◌, ℕ, length, take, drop, slice_get, Some, IfOk, None};
ghost use Rattle.fy_events.specs.Columns.{last_from, end_at, events_before, IsTimeWidth, AreTimeColumns, DontFall};
ghost use Rattle.fy_events.specs.declared.event.Event.{Event};
ghost use Rattle.fy_events.specs.Events.{Rises};
ghost use Rattle.fy_events.specs.declared.TheConstants.{MOST_MICROS, TENTH_MICROS};

use crate::{Event, TENTH_MICROS};
use std::alloc::{AllocError, Global};

/// Columns by time.
#[derive(Drop)]
pub struct TimeColumns {
    /// How long a column lasts, in microseconds.
    pub width: u64,
    /// How many entries have come by the end of each column.
    pub ends: Vec<u32>,
}

/// The time of the last event, and 0 where there is none.
fn last_time(events: &[Event]) -> u64
    ensures { result ≡ last_from 0 events.now }
{
    let mut last = 0;
    for event in events {
        last = event.micros;
    }
    last
}

/// How long a column lasts.
fn width_of(last: u64, most: usize) -> u64
    requires some { 0 < most }
    requires limit { most ≤ 1000000 }
    requires early { last < MOST_MICROS }
    ensures width { IsTimeWidth most last result }
    ensures narrow { result ≤ last + TENTH_MICROS }
{
    (last / (most as u64 * TENTH_MICROS) + 1) * TENTH_MICROS
}

/// How many events are of the first entries, of which there are so many.
fn count_before(events: &[Event], count: u32) -> usize
    ensures within { result ≤ length events.now }
    ensures those { take result events.now ≡ events_before events.now count }
{
    let mut at = 0;
    while at < events.len() && events[at].entry < count {
        at += 1;
    }
    at
}

/// The events of the first entries, of which there are so many.
pub fn events_before(events: &[Event], count: u32) -> &[Event]
    ensures those { result.now ≡ events_before events.now count }
    ensures rise { (all : ℕ) → Rises all None events.now → Rises count None result.now }
{
    &events[..count_before(events, count)]
}

/// The place of the first event at a time or later, where those before this place are earlier; that
/// behind all where there is none.
fn first_at(events: &[Event], from: usize, time: u64) -> usize
    requires { from ≤ length events.now }
    ensures within { result ≤ length events.now }
    ensures passed { (count later : ℕ) → time ≤ later
        → end_at (drop from events.now) count later ≡ end_at (drop result events.now) count later }
    ensures there { (event : Event) → slice_get events.now result ≡ Some event
        → time ≤ event.micros }
{
    let mut at = from;
    while at < events.len() && events[at].micros < time {
        at += 1;
    }
    at
}

/// The entry of the event at a place, and the count of all behind the last event.
fn entry_at(events: &[Event], at: usize, count: u32) -> u32
    ensures event { (event : Event) → slice_get events.now at ≡ Some event
        → result ≡ event.entry }
    ensures behind { slice_get events.now at ≡ None → result ≡ count }
{
    match events.get(at) {
        Some(event) => event.entry,
        None => count,
    }
}

/// Columns by the times of events of so many entries: as many as there may be at most, or fewer.
///
/// # Errors
///
/// `AllocError` where an allocation fails.
pub fn columns_by_time(
    alloc: Global,
    events: &[Event],
    count: u32,
    most: usize,
) -> Result<TimeColumns, AllocError>
    requires some { 0 < most }
    requires limit { most ≤ 1000000 }
    requires rise { Rises count None events.now }
    ensures columns { IfOk result (AreTimeColumns events.now count most) }
    ensures order { IfOk result (λ columns. DontFall columns.ends.items) }
{
    let last = last_time(events);
    let width = width_of(last, most);
    let mut ends = Vec::new(alloc);
    let mut at = 0;
    for column in 0..last / width + 1 {
        at = first_at(events, at, (column + 1) * width);
        ends.push(entry_at(events, at, count))?;
    }
    Ok(TimeColumns { width, ends })
}
