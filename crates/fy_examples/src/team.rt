//! A team, a record that it acknowledges, and one process for another.
use fy_disk::Payload;
use fy_locality::{Map, ProcSet};
use fy_policy::read_policy;
use fy_team::{Members, Teams};
use std::test::Fail;

#[test]
fn a_team_acknowledges_a_record(rt: HostRuntime) -> Result<(), Fail> {
    let alloc = rt.alloc();
    let mut map = Map::make(alloc);
    let p0 = map.add("p0", "m0", "z0", None, None)?;
    let p1 = map.add("p1", "m1", "z1", None, None)?;
    assert_eq!(rt; map.len(), 2);
    let policies = vec![in alloc; read_policy(alloc, "One()")?]?;
    let (mut teams, nobody) = (Teams::make(alloc), ProcSet::empty());
    let members = Members::make(alloc, &[p0])?;
    let mut others = members.try_copy(alloc)?;
    let team = teams.form(&map, &policies, &nobody, members, 0)?;
    let rec = teams.begin(team, Payload::make(alloc, b"hi")?)?;
    assert_eq!(rt; teams.mark(rec, p0), true);
    assert!(rt; others.has(p0) && !others.has(p1));
    others.replace(p0, p1);
    assert_eq!(rt; others.as_slice(), [p1].as_slice());
    let _other = teams.form(&map, &policies, &nobody, others, 0)?;
    teams.replace(&map, &policies, team, p0, p1);
    assert_eq!(rt;
        teams.members(team).map(|members| members.has(p1)),
        Some(true)
    );
    Ok(())
}
