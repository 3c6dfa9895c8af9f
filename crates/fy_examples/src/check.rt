//! A legal journal, whose acts are made once more.
use crate::single::config_of_one;
use fy_acts::{Act, Entry, Journal, Reply, Version};
use fy_replay::{Replayer, replay};
use std::test::Fail;

#[test]
fn a_tick_is_replayed(rt: HostRuntime) -> Result<(), Fail> {
    let config = config_of_one(rt.alloc())?;
    let mut journal = Journal::make(rt.alloc());
    journal.reserve(1)?;
    journal.push(0, Act::Tick { ticks: 1 }, Reply::Time { now: 1 });
    assert_eq!(rt; replay(rt.alloc(), &config, &journal), Ok(()));
    Ok(())
}

#[test]
fn a_tick_is_replayed_alone(rt: HostRuntime) -> Result<(), Fail> {
    let config = config_of_one(rt.alloc())?;
    let mut replayer = Replayer::begin(rt.alloc(), config, Version::Second)?;
    replayer.enter(Entry {
        at: 0,
        by: 0,
        act: Act::Tick { ticks: 1 },
        reply: Reply::Time { now: 1 },
    })?;
    assert_eq!(rt; replayer.first_bad(), None);
    Ok(())
}
