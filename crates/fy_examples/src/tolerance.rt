//! What a cluster of three zones bears, of which two have to be left.
use fy_decide::Loss;
use fy_kinds::Target;
use fy_locality::{Key, Map, ProcSet};
use fy_policy::{Policy, read_policy};
use fy_tolerance::{
    Form, LossesSoFar, book_of, borne_alone, borne_in_pairs, findings_of, least_any, tolerance_of,
    tolerances_of, write_findings,
};
use std::alloc::Global;
use std::test::Fail;

/// Three processes, each in a zone of its own.
fn map_of_three(alloc: Global) -> Result<Map, Fail> {
    let mut map = Map::make(alloc);
    for (process, zone) in [("p0", "z0"), ("p1", "z1"), ("p2", "z2")] {
        let _number = map.add(process, process, zone, None, None)?;
    }
    Ok(map)
}

/// The one policy: two copies, in different zones.
fn two_zones(alloc: Global) -> Result<Vec<Policy>, Fail> {
    let mut policies = Vec::new(alloc);
    policies.push(read_policy(alloc, "Across(2,zoneid,One())")?)?;
    Ok(policies)
}

/// Nothing was lost so far.
fn no_losses() -> LossesSoFar {
    let nobody = ProcSet::empty();
    LossesSoFar {
        destroyed: nobody,
        gone: nobody,
        down: nobody,
    }
}

#[test]
fn one_of_three_may_be_lost(rt: HostRuntime) -> Result<(), Fail> {
    let alloc = rt.alloc();
    let (map, policies) = (map_of_three(alloc)?, two_zones(alloc)?);
    let dead = book_of(alloc, &map, &policies, &no_losses())?;
    let findings = findings_of(alloc, &dead, &map, &policies)?;
    let least = least_any(map.len(), &findings.emptied.tolerances);
    prove!(least == findings.emptied.any);
    assert_eq!(rt; (findings.emptied.any, findings.gone.any), (1, 1));
    let text = write_findings(alloc, &map, &policies, None, &findings, Form::Json)?;
    assert!(rt; text.as_str().starts_with("{"));
    Ok(())
}

#[test]
fn each_policy_names_who_is_too_many(rt: HostRuntime) -> Result<(), Fail> {
    let alloc = rt.alloc();
    let (map, policies) = (map_of_three(alloc)?, two_zones(alloc)?);
    let dead = book_of(alloc, &map, &policies, &no_losses())?;
    let all = tolerances_of(alloc, &dead, &map, &policies, Loss::Gone)?;
    assert_eq!(rt; policies.len(), 1);
    assert_eq!(rt; all.len(), 1);
    let first = tolerance_of(alloc, &dead, &map, &policies, 0, Loss::Gone)?;
    assert_eq!(rt; (first.any, first.too_many.len()), (1, 2));
    assert!(rt; first.is_exact());
    Ok(())
}

#[test]
fn one_zone_of_three_may_be_lost(rt: HostRuntime) -> Result<(), Fail> {
    let alloc = rt.alloc();
    let (map, policies) = (map_of_three(alloc)?, two_zones(alloc)?);
    let dead = book_of(alloc, &map, &policies, &no_losses())?;
    let alone = borne_alone(alloc, &dead, &map, Key::Zone, Loss::Gone)?;
    let Some(value) = map.value_at(Key::Zone, 0) else {
        return Err(Fail::from("no zone"));
    };
    let key = Key::Zone;
    let may = dead.may_destroy(&dead.targets(&map, &Target { key, value }), Loss::Gone);
    assert!(rt; alone.first().copied() == Some(may));
    assert_eq!(rt; alone.as_slice(), [true, true, true].as_slice());
    let pairs = borne_in_pairs(alloc, &dead, &map, key, Loss::Gone)?;
    assert_eq!(rt; pairs.len(), alone.len());
    let first = pairs.first().ok_or("no pair")?;
    assert_eq!(rt; first.as_slice(), [false, false].as_slice());
    Ok(())
}
