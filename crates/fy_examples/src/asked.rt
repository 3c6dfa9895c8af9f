//! A cluster that is asked of a process by its number.
use crate::cluster::config_of_six;
use fy_cluster::ClusterState;
use fy_locality::ProcId;
use std::test::Fail;

#[test]
fn a_process_is_asked_of(rt: HostRuntime) -> Result<(), Fail> {
    let alloc = rt.alloc();
    let state = ClusterState::make(alloc, config_of_six(alloc)?)?;
    let first = ProcId(0);
    if first.0 < state.config().map().len() {
        assert_eq!(rt; (state.asked_clog_end(first), state.asked_clock()), (0, 0));
        assert!(rt; !state.asked_protections(first).has_clog());
    }
    Ok(())
}
