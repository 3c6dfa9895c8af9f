//! Verdicts on a cluster of two processes, of which one may be destroyed.
ghost use Rattle.std.specs.Prelude.{◌≡◌};

use fy_decide::{DeadBook, Loss, judge, judge_clog, judge_clog_at, judge_process, judge_targets};
use fy_grants::{Book, Grant, Scope};
use fy_kinds::{KillOrder, Kind, KindSet, Rule, Target, Verdict};
use fy_locality::{Key, Map, Name};
use fy_policy::read_policy;
use std::test::Fail;

#[test]
fn an_order_on_one_of_two_empties_it(rt: HostRuntime) -> Result<(), Fail> {
    let alloc = rt.alloc();
    let mut map = Map::make(alloc);
    let _ = map.add("p0", "m0", "z0", None, None)?;
    let _ = map.add("p1", "m1", "z1", None, None)?;
    let policies = vec![in alloc; read_policy(alloc, "Across(2,zoneid,One())")?]?;
    let dead = DeadBook::make(alloc, &map, &policies)?;
    let mut book = Book::make(alloc, 1, &map)?;
    let (kinds, scope) = (KindSet::all(), Scope::All);
    book.give(Grant {
        actor: 0,
        kinds,
        scope,
    })?;
    let (key, value) = (Key::Process, Name::make("p0")?);
    let order = KillOrder::make(Target { key, value }, Kind::KillInstantly, Kind::Reboot, 0)?;
    let verdict = judge(&dead, &book, &map, 0, &order);
    assert_eq!(rt; verdict.struck, Some(Kind::RebootAndDelete));
    assert_eq!(rt; verdict.rule, Some(Rule::TooFewLeft { policy: 0 }));
    assert_eq!(rt; judge_clog(&dead, &book, &map, 0, &order.target()), None);
    Ok(())
}

#[test]
fn one_of_two_is_destroyed_and_healed(rt: HostRuntime) -> Result<(), Fail> {
    let alloc = rt.alloc();
    let mut map = Map::make(alloc);
    let p0 = map.add("p0", "m0", "z0", None, None)?;
    let _ = map.add("p1", "m1", "z1", None, None)?;
    let policies = vec![in alloc; read_policy(alloc, "Across(2,zoneid,One())")?]?;
    let mut dead = DeadBook::make(alloc, &map, &policies)?;
    let (key, value) = (Key::Process, Name::make("p0")?);
    let targets = dead.targets(&map, &Target { key, value });
    assert!(rt; dead.may_destroy(&targets, Loss::Emptied));
    dead.strike(&targets, Loss::Emptied);
    assert!(rt; dead.destroyed().contains(p0) && dead.left().contains(p0));
    dead.heal(p0);
    assert!(rt; !dead.destroyed().contains(p0));
    Ok(())
}

/// The verdict on an order whose targets were found before.
fn judge_found(dead: &DeadBook, book: &Book, map: &Map, order: &KillOrder) -> Verdict
    requires map { map.now ≡ dead.now.processes }
    requires book { book.now.processes ≡ dead.now.processes }
{
    let found = dead.find_targets(map, &order.target());
    judge_targets(dead, book, 0, order, &found)
}

#[test]
fn a_verdict_is_the_same_by_number(rt: HostRuntime) -> Result<(), Fail> {
    let alloc = rt.alloc();
    let mut map = Map::make(alloc);
    let _ = map.add("p0", "m0", "z0", None, None)?;
    let _ = map.add("p1", "m1", "z1", None, None)?;
    let policies = vec![in alloc; read_policy(alloc, "Across(2,zoneid,One())")?]?;
    let dead = DeadBook::make(alloc, &map, &policies)?;
    let book = Book::make(alloc, 1, &map)?;
    let (key, value) = (Key::Process, Name::make("p0")?);
    let Some(p0) = map.find(&value) else {
        return Err(Fail::from("no p0"));
    };
    let order = KillOrder::make(Target { key, value }, Kind::KillInstantly, Kind::Reboot, 0)?;
    let verdict = judge(&dead, &book, &map, 0, &order);
    let by_number = judge_process(&dead, &book, 0, p0, order.kind(), order.floor());
    assert!(rt; by_number == verdict);
    assert!(rt; judge_found(&dead, &book, &map, &order) == verdict);
    let lone = dead.process_targets(p0).alone();
    assert!(rt; lone == Some(p0));
    assert_eq!(rt; verdict.rule, Some(Rule::NoGrant { process: p0 }));
    Ok(())
}

#[test]
fn a_clog_is_judged_at_its_targets(rt: HostRuntime) -> Result<(), Fail> {
    let alloc = rt.alloc();
    let mut map = Map::make(alloc);
    let p0 = map.add("p0", "m0", "z0", None, None)?;
    let policies = vec![in alloc; read_policy(alloc, "One()")?]?;
    let dead = DeadBook::make(alloc, &map, &policies)?;
    let book = Book::make(alloc, 1, &map)?;
    let (key, value) = (Key::Zone, Name::make("z0")?);
    let target = Target { key, value };
    let found = dead.targets(&map, &target);
    let rule = judge_clog_at(&dead, &book, 0, &target, &found);
    let by_name = judge_clog(&dead, &book, &map, 0, &target);
    assert_eq!(rt; rule, by_name);
    assert_eq!(rt; rule, Some(Rule::NoGrant { process: p0 }));
    Ok(())
}
