//! A legal journal, drawn at once and entry by entry.
ghost use Rattle.std.specs.Prelude.{◌≡◌};

use crate::single::config_of_one;
use fy_acts::{Act, Entry, Journal, Reply, Version};
use fy_picture::{Recorder, draw};
use fy_svg::{Drawing, svg};
use std::test::Fail;

#[test]
fn a_tick_is_drawn(rt: HostRuntime) -> Result<(), Fail> {
    let alloc = rt.alloc();
    let config = config_of_one(alloc)?;
    let mut journal = Journal::make(alloc);
    journal.reserve(1)?;
    journal.push(0, Act::Tick { ticks: 1 }, Reply::Time { now: 1 });
    let picture = draw(alloc, &config, &journal)?;
    assert_eq!(rt; picture.columns.len(), 1);
    let column = &picture.columns[0];
    assert_eq!(rt;
        (column.end, column.states.up.len(), column.counts.len()),
        (1, 1, 1)
    );
    let text = svg(alloc, &config, &journal)?;
    assert!(rt; text.as_str().starts_with("<svg "));
    Ok(())
}

/// A legal first entry.
fn tick() -> Entry
    ensures { result.at ≡ 0 }
{
    Entry {
        at: 0,
        by: 0,
        act: Act::Tick { ticks: 1 },
        reply: Reply::Time { now: 1 },
    }
}

#[test]
fn a_tick_is_recorded(rt: HostRuntime) -> Result<(), Fail> {
    let alloc = rt.alloc();
    let mut recorder = Recorder::begin(alloc, config_of_one(alloc)?, Version::Second)?;
    recorder.enter(tick())?;
    assert_eq!(rt; (recorder.first_bad(), recorder.columns()), (None, 0));
    Ok(())
}

#[test]
fn a_tick_is_drawn_alone(rt: HostRuntime) -> Result<(), Fail> {
    let alloc = rt.alloc();
    let config = config_of_one(alloc)?;
    let mut drawing = Drawing::begin(alloc, &config, Version::Second)?;
    drawing.enter(tick())?;
    assert_eq!(rt; drawing.first_bad(), None);
    let text = drawing.finish(&config)?;
    assert!(rt; text.as_str().starts_with("<svg "));
    Ok(())
}

#[test]
fn a_journal_is_entered(rt: HostRuntime) -> Result<(), Fail> {
    let alloc = rt.alloc();
    let config = config_of_one(alloc)?;
    let mut journal = Journal::make(alloc);
    journal.reserve(2)?;
    journal.push(0, Act::Tick { ticks: 1 }, Reply::Time { now: 1 });
    journal.push(0, Act::Tick { ticks: 1 }, Reply::Time { now: 1 });
    let mut drawing = Drawing::begin(alloc, &config, journal.version())?;
    drawing.enter_all(&journal)?;
    assert_eq!(rt; drawing.first_bad(), Some(1));
    let text = drawing.finish(&config)?;
    assert!(rt; text.as_str().starts_with("<svg "));
    Ok(())
}
