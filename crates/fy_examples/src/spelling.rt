//! A line of a script, and the line of an audit that it comes to.
use fy_acts::{Act, Entry, Reply};
use fy_spelling::{entry_text, read_command, read_entry};
use std::test::Fail;

#[test]
fn a_command_is_read_and_an_entry_written(rt: HostRuntime) -> Result<(), Fail> {
    let alloc = rt.alloc();
    let line = b"{\"by\":7,\"act\":{\"tick\":{\"ticks\":1}}}";
    let command = read_command(alloc, line)?;
    let entry = Entry {
        at: 0,
        by: 7,
        act: Act::Tick { ticks: 1 },
        reply: Reply::Time { now: 1 },
    };
    assert!(rt; command.by == 7 && command.act == entry.act);
    let text = entry_text(alloc, &entry)?;
    let wanted = "{\"act\":{\"tick\":{\"ticks\":1}},\"at\":0,\"by\":7,\"reply\":{\"time\":1}}";
    assert_eq!(rt; text.as_str(), wanted);
    let mut room = Vec::new(alloc);
    assert!(rt; read_entry(alloc, text.as_bytes(), &mut room)? == entry);
    Ok(())
}
