//! The least cluster: one process, and an actor that stores.
use fy_cluster::{Config, Role};
use fy_locality::Map;
use fy_policy::read_policy;
use std::alloc::Global;
use std::test::Fail;

/// One process, with one actor, which stores.
pub(crate) fn config_of_one(alloc: Global) -> Result<Config, Fail> {
    config_for(alloc, &[Role::Storage])
}

/// The same process, with actors of these roles.
pub(crate) fn config_for(alloc: Global, roles: &[Role]) -> Result<Config, Fail> {
    let mut map = Map::make(alloc);
    let _number = map.add("p0", "m0", "z0", None, None)?;
    let policies = vec![in alloc; read_policy(alloc, "One()")?]?;
    let roles = roles.to_vec(alloc)?;
    Ok(Config::make(map, policies, roles, Vec::new(alloc), Vec::new(alloc), 10)?)
}
