//! A cluster file of two processes.
use fy_cluster::Role;
use fy_config::read_config;
use std::test::Fail;

const TWO: &str = "journal_limit = 10\n\
    policies = ['Across(2,zoneid,One())']\n\
    process = [{processid = 'p0', machineid = 'm0', zoneid = 'z0'}, \
    {processid = 'p1', machineid = 'm1', zoneid = 'z1'}]\n\
    actor = [{role = 'storage'}]\n";

#[test]
fn a_cluster_file_is_read(rt: HostRuntime) -> Result<(), Fail> {
    let config = read_config(rt.alloc(), TWO.as_bytes())?;
    assert_eq!(rt; (config.map().len(), config.journal_limit()), (2, 10));
    assert_eq!(rt; config.role(0), Some(Role::Storage));
    Ok(())
}
