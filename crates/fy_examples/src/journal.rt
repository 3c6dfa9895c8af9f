//! A journal of one entry.
use fy_acts::{Act, Journal, Reply, Version};
use std::test::Fail;

#[test]
fn an_entry_has_its_number(rt: HostRuntime) -> Result<(), Fail> {
    let mut journal = Journal::make(rt.alloc());
    journal.reserve(1)?;
    journal.push(7, Act::Tick { ticks: 1 }, Reply::Time { now: 1 });
    let entry = journal.entry(0).ok_or("no entry")?;
    assert_eq!(rt;
        (entry.at, entry.by, entry.reply),
        (0, 7, Reply::Time { now: 1 })
    );
    assert_eq!(rt; (journal.len(), journal.version()), (1, Version::Second));
    Ok(())
}
