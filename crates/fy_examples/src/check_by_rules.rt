//! A wrong journal, which the rules don't give.
use crate::single::config_of_one;
use fy_acts::{Act, Journal, Reply};
use fy_check_by_rules::check;
use fy_replay::CheckFault;
use std::test::Fail;

#[test]
fn a_wrong_time_is_bad(rt: HostRuntime) -> Result<(), Fail> {
    let config = config_of_one(rt.alloc())?;
    let mut journal = Journal::make(rt.alloc());
    journal.reserve(1)?;
    journal.push(0, Act::Tick { ticks: 1 }, Reply::Time { now: 2 });
    let bad = Err(CheckFault::BadEntry { at: 0 });
    assert_eq!(rt; check(rt.alloc(), &config, &journal), bad);
    Ok(())
}
