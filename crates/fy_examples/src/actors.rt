//! A swizzle that clogs a process and frees it.
use crate::single::config_of_one;
use fy_actors::{
    Desk, FaultActor, Schedule, SwizzlePlan, Turn, attrition_acts, process_target, swizzle_acts,
};
use fy_acts::{Act, Reply};
use fy_cluster::Cluster;
use fy_kinds::{Kind, Rule, Target};
use fy_locality::{Map, ProcId};
use std::test::Fail;

#[test]
fn a_swizzle_takes_its_turns(rt: HostRuntime) -> Result<(), Fail> {
    let alloc = rt.alloc();
    let mut map = Map::make(alloc);
    let p0 = map.add("p0", "m0", "z0", None, None)?;
    let clogs = [p0].to_vec(alloc)?;
    let frees = [p0].to_vec(alloc)?;
    let plan = SwizzlePlan { clogs, frees };
    let mut swizzle = Schedule::swizzle(alloc, &map, &plan, 10)?;
    let cluster = Cluster::make(alloc, config_of_one(alloc)?)?;
    let mut desk = Desk::make(alloc, cluster);
    let mut receipts = Vec::new(alloc);
    desk.sit(0, &mut receipts);
    assert_eq!(rt; swizzle.turn(&mut desk), Ok(Turn::More));
    desk.sit(0, &mut receipts);
    let barred = Reply::Ruled {
        rule: Some(Rule::NoGrant { process: ProcId(0) }),
    };
    assert_eq!(rt; receipts.first().map(|entry| entry.reply), Some(barred));
    assert_eq!(rt; desk.journal_len(), 1);
    Ok(())
}

#[test]
fn plans_are_acts(rt: HostRuntime) -> Result<(), Fail> {
    let alloc = rt.alloc();
    let mut map = Map::make(alloc);
    let p0 = map.add("p0", "m0", "z0", None, None)?;
    let target = process_target(&map, p0);
    let clogs = [p0].to_vec(alloc)?;
    let frees = [p0].to_vec(alloc)?;
    let plan = SwizzlePlan { clogs, frees };
    let acts = swizzle_acts(alloc, &map, &plan, 10)?;
    assert!(rt; acts.first() == Some(&Act::Clog { target, ticks: 10 }));
    let Target { key: _, value } = process_target(&map, p0);
    let machines = [value];
    let kills = attrition_acts(alloc, &machines, Kind::KillInstantly, Kind::Reboot, 0)?;
    assert_eq!(rt; kills.len(), 1);
    Ok(())
}
