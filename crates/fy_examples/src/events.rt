//! Events of two entries, and the columns of a picture by their times.
use fy_events::{EventsFault, columns_by_time, events_before, read_events};
use std::alloc::AllocError;
use std::test::Fail;

#[test]
fn columns_are_laid_by_time(rt: HostRuntime) -> Result<(), Fail> {
    let text = "{\"entry\":0,\"t\":0.5}\n{\"entry\":1,\"t\":1.25}\n";
    let events = match read_events(rt.alloc(), text.as_bytes(), 3) {
        Ok(events) => events,
        Err(EventsFault::NoMemory) => return Err(Fail::from(AllocError)),
        Err(_) => return Err(Fail::from("no events")),
    };
    let columns = columns_by_time(rt.alloc(), events_before(&events, 1), 1, 4000)?;
    assert_eq!(rt; columns.width, 100_000);
    assert_eq!(rt; columns.ends.as_slice(), [0, 0, 0, 0, 0, 1].as_slice());
    Ok(())
}
