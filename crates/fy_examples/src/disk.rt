//! A disk that is synced between two writes, and then crashes.
use fy_disk::{Disk, Item, Payload};
use std::test::Fail;

#[test]
fn a_crash_takes_what_is_not_synced(rt: HostRuntime) -> Result<(), Fail> {
    let payload = Payload::make(rt.alloc(), b"hi")?;
    let copy = payload.try_copy(rt.alloc())?;
    let mut disk = Disk::make(rt.alloc());
    disk.write(Item { rec: 4, payload })
        .map_err(|_| "the item came back")?;
    assert_eq!(rt; disk.sync(), 1);
    disk.write(Item {
        rec: 9,
        payload: copy,
    })
    .map_err(|_| "the item came back")?;
    assert_eq!(rt; disk.pending(0).map(|item| item.rec), Some(9));
    disk.crash(0);
    assert_eq!(rt; (disk.synced_len(), disk.unsynced_len()), (1, 0));
    assert_eq!(rt; disk.durable(0).map(|item| item.rec), Some(4));
    disk.wipe();
    assert_eq!(rt; disk.synced_len(), 0);
    Ok(())
}
