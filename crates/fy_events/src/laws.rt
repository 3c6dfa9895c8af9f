//! The limits as numbers, and what the end of a column says of each entry.
ghost use Rattle.std.specs.Prelude.{◌≡◌, ◌↔◌, ◌<◌, ℕ, List, None};
ghost use Rattle.fy_events.specs.Columns.{end_at, time_from};
ghost use Rattle.fy_events.specs.Events.{Rises};
ghost use Rattle.fy_events.specs.declared.event.Event.{Event};
ghost use Rattle.fy_events.specs.declared.TheConstants.{MOST_EVENTS_BYTES, MOST_MICROS, TENTH_MICROS};

/// The limits of this crate, as numbers.
pub fn limits()
    ensures bytes { MOST_EVENTS_BYTES ≡ 268435456 }
    ensures micros { MOST_MICROS ≡ 1000000000000 }
    ensures tenth { TENTH_MICROS ≡ 100000 }
{}

/// The entries before the end of a column are those whose time is before it.
pub fn a_column_ends_by_time()
    ensures { (events : List Event) (count entry time : ℕ) → Rises count None events → entry < count
        → 0 < time → (entry < end_at events count time) ↔ (time_from 0 events entry < time) }
{}
