//! A legal journal that is watched, and what is asked of it.
ghost use Rattle.std.specs.Prelude.{◌≡◌};

use crate::single::config_of_one;
use fy_acts::{Act, Entry, Reply, Version};
use fy_events::Done;
use fy_holders::{Blame, Note, Watch};
use fy_kinds::Kind;
use fy_locality::ProcId;
use std::test::Fail;

/// A legal first entry.
fn tick() -> Entry
    ensures { result.at ≡ 0 }
{
    Entry {
        at: 0,
        by: 0,
        act: Act::Tick { ticks: 1 },
        reply: Reply::Time { now: 1 },
    }
}

#[test]
fn a_tick_destroys_nobody(rt: HostRuntime) -> Result<(), Fail> {
    let alloc = rt.alloc();
    let mut watch = Watch::begin(alloc, config_of_one(alloc)?, Version::Second)?;
    watch.enter(tick())?;
    assert!(rt; watch.first_bad().is_none());
    let mut outages = watch.finish()?;
    assert!(rt; !outages.was_destroyed(ProcId(0), 1));
    assert!(rt; outages.destroyed_since(0).is_empty());
    assert_eq!(rt; outages.blame_since(0), Blame::Store);
    assert!(rt; outages.heals_since(0).is_empty());
    let done = Done::Kill(Kind::KillInstantly);
    assert_eq!(rt; outages.first_beyond(&[Note { entry: 0, done }]), None);
    Ok(())
}
