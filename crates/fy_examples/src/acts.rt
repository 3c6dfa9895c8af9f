//! An act and its copy.
use fy_acts::Act;
use fy_disk::Payload;
use std::test::Fail;

#[test]
fn an_act_is_copied(rt: HostRuntime) -> Result<(), Fail> {
    let payload = Payload::make(rt.alloc(), b"hi")?;
    let act = Act::Begin { team: 0, payload };
    let copy = act.try_copy(rt.alloc())?;
    assert!(rt; act == copy && act != Act::Tick { ticks: 1 });
    Ok(())
}
