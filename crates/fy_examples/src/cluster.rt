//! The example of docs/LIBRARY.md: a cluster of six, as somebody makes and asks it who has only
//! read that page.
use fy_acts::{Act, Reply};
use fy_cluster::{Cluster, Config, Role};
use fy_disk::Payload;
use fy_grants::{Grant, Scope};
use fy_kinds::{KillOrder, Kind, KindSet, Rule, Target, Verdict};
use fy_locality::{Key, Map, Name, ProcId};
use fy_policy::read_policy;
use fy_team::Members;
use std::alloc::Global;
use std::test::Fail;

/// Six processes in three zones, two copies in different zones, an actor that stores and one that
/// kills.
pub(crate) fn config_of_six(alloc: Global) -> Result<Config, Fail> {
    let mut map = Map::make(alloc);
    for (process, zone) in [
        ("p0", "z0"),
        ("p1", "z0"),
        ("p2", "z1"),
        ("p3", "z1"),
        ("p4", "z2"),
        ("p5", "z2"),
    ] {
        let _number = map.add(process, process, zone, None, None)?;
    }
    let mut policies = Vec::new(alloc);
    policies.push(read_policy(alloc, "Across(2,zoneid,One())")?)?;
    let roles = [Role::Storage, Role::Fault].to_vec(alloc)?;
    let kinds = KindSet::of(Kind::KillInstantly).union(KindSet::of(Kind::Reboot));
    let grant = Grant {
        actor: 1,
        kinds,
        scope: Scope::All,
    };
    let grants = [grant].to_vec(alloc)?;
    Ok(Config::make(map, policies, roles, grants, Vec::new(alloc), 1000)?)
}

/// Their cluster.
fn cluster_of_six(alloc: Global) -> Result<Cluster, Fail> {
    Ok(Cluster::make(alloc, config_of_six(alloc)?)?)
}

/// Kill a zone for good, or else at least reboot it.
fn kill_zone(zone: &str) -> Result<Act, Fail> {
    let target = Target {
        key: Key::Zone,
        value: Name::make(zone)?,
    };
    let order = KillOrder::make(target, Kind::KillInstantly, Kind::Reboot, 0)?;
    Ok(Act::Kill { order })
}

#[test]
fn second_zone_keeps_the_record(rt: HostRuntime) -> Result<(), Fail> {
    let alloc = rt.alloc();
    let mut cluster = cluster_of_six(alloc)?;
    let (p0, p2) = (ProcId(0), ProcId(2));
    let members = Members::make(alloc, &[p0, p2])?;
    let payload = Payload::make(alloc, b"hi")?;
    cluster.run(&[
        (0, Act::Form { members, policy: 0 }),
        (0, Act::Begin { team: 0, payload }), // sends messages 0 and 1
        (0, Act::Deliver { message: 0 }),
        (0, Act::Deliver { message: 1 }),
        (0, Act::Sync { process: p0 }), // sends message 2
        (0, Act::Sync { process: p2 }), // sends message 3
        (0, Act::Deliver { message: 2 }),
        (0, Act::Deliver { message: 3 }), // the record is acknowledged
        (1, kill_zone("z0")?),
        (1, kill_zone("z1")?),
    ])?;
    let last = cluster.journal().entry(9).ok_or("ten entries")?;
    let rebooted = Verdict {
        struck: Some(Kind::Reboot),
        rule: Some(Rule::TooManyDestroyed { policy: 0 }),
    };
    assert_eq!(rt; last.reply, Reply::Verdict(rebooted));
    assert!(rt; cluster.destroyed().contains(p0) && !cluster.destroyed().contains(p2));
    assert_eq!(rt; cluster.keeper(0), Some(p2));
    Ok(())
}
