//! A process that is killed by its number, of a cluster and of a state without a journal.
ghost use Rattle.std.specs.Prelude.{◌<◌, length, IfOk};
ghost use Rattle.fy_decide.specs.Verdicts.{NamesProcess};

use crate::cluster::config_of_six;
use fy_cluster::{Cluster, ClusterState};
use fy_kinds::{KillOrder, Kind, Target};
use fy_locality::{Key, Map, Name, ProcId};
use std::test::Fail;

/// The process with this name, and an order to kill it, or at least to reboot it.
fn order_on(map: &Map, name: &str) -> Result<(ProcId, KillOrder), Fail>
    ensures there { IfOk result (λ found. found.0.0 < length map.now) }
    ensures named { IfOk result (λ found. NamesProcess map.now found.0.0 found.1) }
{
    let value = Name::make(name)?;
    let Some(process) = map.find(&value) else {
        return Err(Fail::from("no such process"));
    };
    let key = Key::Process;
    let order = KillOrder::make(Target { key, value }, Kind::KillInstantly, Kind::Reboot, 0)?;
    Ok((process, order))
}

#[test]
fn a_cluster_kills_by_number(rt: HostRuntime) -> Result<(), Fail> {
    let alloc = rt.alloc();
    let mut cluster = Cluster::make(alloc, config_of_six(alloc)?)?;
    let (p5, order) = order_on(cluster.config().map(), "p5")?;
    let by_name = cluster.judge(1, &order);
    let by_number = cluster.judge_process(1, p5, order.kind(), order.floor());
    assert_eq!(rt; by_number, Some(by_name));
    let reply = cluster.kill_process(1, p5, &order)?;
    assert_eq!(rt; reply, by_name);
    assert!(rt; cluster.destroyed().contains(p5));
    Ok(())
}

#[test]
fn a_state_kills_by_number(rt: HostRuntime) -> Result<(), Fail> {
    let alloc = rt.alloc();
    let mut state = ClusterState::make(alloc, config_of_six(alloc)?)?;
    let (p5, order) = order_on(state.config().map(), "p5")?;
    let by_name = state.judge(1, &order);
    let by_number = state.judge_process(1, p5, order.kind(), order.floor());
    assert_eq!(rt; by_number, Some(by_name));
    let entry = state.kill_process(1, p5, order)?;
    assert_eq!(rt; entry.reply, by_name);
    assert!(rt; state.destroyed().contains(p5));
    Ok(())
}
