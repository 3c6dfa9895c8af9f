//! A policy that asks for two zones, of a set and of a tally.
use fy_locality::{Map, ProcSet};
use fy_policy::{Tally, read_policy, satisfied};
use std::test::Fail;

#[test]
fn two_zones_are_asked_for(rt: HostRuntime) -> Result<(), Fail> {
    let alloc = rt.alloc();
    let mut map = Map::make(alloc);
    let p0 = map.add("p0", "m0", "z0", None, None)?;
    let p1 = map.add("p1", "m1", "z1", None, None)?;
    let policy = read_policy(alloc, "Across(2,zoneid,One())")?;
    assert_eq!(rt; satisfied(&policy, &map, &ProcSet::empty()), false);
    assert_eq!(rt; satisfied(&policy, &map, &map.everyone()), true);
    assert_eq!(rt; map.len(), 2);
    let mut tally = Tally::make(alloc, &policy, &map)?;
    tally.add(p0);
    tally.add(p1);
    assert_eq!(rt; tally.satisfied(), true);
    tally.remove(p0);
    assert_eq!(rt; tally.satisfied(), false);
    Ok(())
}

#[test]
fn a_tally_looks_ahead(rt: HostRuntime) -> Result<(), Fail> {
    let alloc = rt.alloc();
    let mut map = Map::make(alloc);
    let p0 = map.add("p0", "m0", "z0", None, None)?;
    let p1 = map.add("p1", "m1", "z1", None, None)?;
    let policy = read_policy(alloc, "Across(2,zoneid,One())")?;
    let mut tally = Tally::make(alloc, &policy, &map)?;
    tally.add(p0);
    let with = tally.satisfied_with_one(p1);
    tally.add(p1);
    let joined = tally.satisfied();
    prove!(with == joined);
    let without = tally.satisfied_without_one(p0);
    tally.remove(p0);
    let parted = tally.satisfied();
    prove!(without == parted);
    assert!(rt; joined && !parted);
    Ok(())
}
