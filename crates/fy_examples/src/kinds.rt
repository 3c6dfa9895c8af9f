//! An order with its floor, and a set of kinds.
use fy_kinds::{KillOrder, Kind, KindSet, Target};
use fy_locality::{Key, Name};
use std::test::Fail;

#[test]
fn an_order_has_a_floor(rt: HostRuntime) -> Result<(), Fail> {
    let target = Target {
        key: Key::Zone,
        value: Name::make("z0")?,
    };
    let order = KillOrder::make(target, Kind::KillInstantly, Kind::Reboot, 5)?;
    assert_eq!(rt;
        (order.kind(), order.floor()),
        (Kind::KillInstantly, Kind::Reboot)
    );
    let both = KindSet::of(order.kind()).union(KindSet::of_clog());
    assert!(rt; both.has(Kind::KillInstantly) && both.has_clog() && !both.has(Kind::Reboot));
    Ok(())
}
