//! The disks of two processes: one syncs a record, and the other crashes and has nothing.
use fy_disk::{Disks, Item, Payload};
use fy_locality::ProcId;
use std::test::Fail;

#[test]
fn the_disks_say_who_has_a_record(rt: HostRuntime) -> Result<(), Fail> {
    let alloc = rt.alloc();
    let (first, second) = (ProcId(0), ProcId(1));
    let payload = Payload::make(alloc, b"hi")?;
    let mut disks = Disks::make(alloc, 2)?;
    disks.open(0)?;
    let Ok(()) = disks.write(first, Item { rec: 0, payload }) else {
        return Err("the item came back".into());
    };
    assert_eq!(rt; disks.with_unsynced().len(), 1);
    assert_eq!(rt; disks.sync(first), 1);
    disks.crash(second, 0);
    assert!(rt; disks.has_synced(0, first) && !disks.has_synced(0, second));
    assert_eq!(rt; disks.of(first).synced_len(), 1);
    disks.wipe(first);
    assert!(rt; disks.holders(0).is_empty() && disks.with_unsynced().is_empty());
    Ok(())
}
