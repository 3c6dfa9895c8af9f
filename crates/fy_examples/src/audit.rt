//! A script of one act, and its audit.
use fy_acts::Reply;
use fy_audit::{AuditReader, MOST_LINE_BYTES, Version, read_audit, read_entry_at, read_script};
use fy_lines::split_at_newline;
use std::test::Fail;

#[test]
fn a_script_and_its_audit_are_read(rt: HostRuntime) -> Result<(), Fail> {
    let alloc = rt.alloc();
    let commands = read_script(alloc, b"{\"by\":0,\"act\":{\"tick\":{\"ticks\":1}}}\n")?;
    assert_eq!(rt; commands.len(), 1);
    let journal = read_audit(
        alloc,
        b"{\"audit\":2}\n\
        {\"act\":{\"tick\":{\"ticks\":1}},\"at\":0,\"by\":0,\"reply\":{\"time\":1}}\n",
    )?;
    let entry = journal.entry(0).ok_or("no entry")?;
    assert_eq!(rt; (journal.len(), entry.reply), (1, Reply::Time { now: 1 }));
    Ok(())
}

#[test]
fn an_audit_is_read_entry_by_entry(rt: HostRuntime) -> Result<(), Fail> {
    let mut reader = AuditReader::begin(
        rt.alloc(),
        b"{\"audit\":2}\n\
        {\"act\":{\"tick\":{\"ticks\":1}},\"at\":0,\"by\":0,\"reply\":{\"time\":1}}\n",
    )?;
    if reader.is_at_end() {
        return Err(Fail::from("no entry"));
    }
    let entry = reader.next_entry()?;
    assert_eq!(rt; entry.reply, Reply::Time { now: 1 });
    assert!(rt; reader.is_at_end() && reader.place() == 1);
    Ok(())
}

#[test]
fn an_audit_is_read_on_from_an_entry(rt: HostRuntime) -> Result<(), Fail> {
    let line: &[u8] =
        b"{\"act\":{\"tick\":{\"ticks\":1}},\"at\":7,\"by\":0,\"reply\":{\"time\":8}}\n";
    let mut reader = AuditReader::resume(rt.alloc(), Version::Second, 7, line);
    if reader.is_at_end() {
        return Err(Fail::from("no entry"));
    }
    let entry = reader.next_entry()?;
    assert_eq!(rt; entry.reply, Reply::Time { now: 8 });
    assert!(rt; reader.is_at_end() && reader.place() == 8);
    Ok(())
}

#[test]
fn a_line_is_read_at_its_place(rt: HostRuntime) -> Result<(), Fail> {
    let alloc = rt.alloc();
    let rest: &[u8] =
        b"{\"act\":{\"tick\":{\"ticks\":1}},\"at\":7,\"by\":0,\"reply\":{\"time\":8}}\n";
    let Some((line, _)) = split_at_newline(rest) else {
        return Err(Fail::from("no line"));
    };
    if line.len() > MOST_LINE_BYTES {
        return Err(Fail::from("too long"));
    }
    let entry = read_entry_at(alloc, line, Version::Second, 7, &mut Vec::new(alloc))?;
    prove!(entry.at == 7);
    assert_eq!(rt; entry.reply, Reply::Time { now: 8 });
    Ok(())
}
