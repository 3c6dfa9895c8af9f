//! Two processes of a zone, by number and in sets.
use fy_locality::{Key, Map, Name, ProcSet};
use std::test::Fail;

#[test]
fn two_processes_share_a_zone(rt: HostRuntime) -> Result<(), Fail> {
    let mut map = Map::make(rt.alloc());
    let p0 = map.add("p0", "m0", "z0", None, None)?;
    let p1 = map.add("p1", "m1", "z0", None, None)?;
    let zone = Name::make("z0")?;
    assert_eq!(rt; map.members(Key::Zone, &zone).len(), 2);
    assert!(rt; map.value(p0, Key::Zone) == Some(zone) && map.value(p1, Key::DataHall) == None);
    assert_eq!(rt; map.len(), 2);
    let mut set = ProcSet::empty();
    set.put(p0);
    set.put(p1);
    set.drop_one(p0);
    assert!(rt; set.has(p1) && !set.has(p0));
    Ok(())
}
