//! A history of one record that a process lags behind, judged.
use fy_history::{Answer, End, History, Names, Place, Read, Write};
use fy_records::{Index, Verdict, count_records, disks_with, judge_records, lackers, tellers};
use std::alloc::{AllocError, Global};
use std::test::Fail;

/// A line, at its number of nanoseconds.
fn at(line: u32) -> Place {
    Place {
        line,
        nanos: line as u64,
    }
}

/// A read of key 0 by process 1.
fn read(line: u32, answer: Answer) -> Read {
    Read {
        key: 0,
        node: Some(1),
        began: at(line),
        ended: Some(at(line)),
        answer,
        times: 1,
    }
}

/// One write that was acknowledged, one read that lacked it and one that told it.
fn history_of(alloc: Global) -> Result<History, AllocError> {
    let mut history = History {
        names: Names::new(alloc),
        writes: Vec::new(alloc),
        reads: Vec::new(alloc),
        entries: Vec::new(alloc),
        disks: Vec::new(alloc),
        written: Some(at(2)),
        lines: 7,
    };
    history.writes.push(Write {
        key: 0,
        value: 1,
        began: at(0),
        ended: Some(at(1)),
        end: End::Done,
    })?;
    history.reads.push(read(3, Answer::Nothing))?;
    history.reads.push(read(5, Answer::Value(1)))?;
    Ok(history)
}

#[test]
fn a_record_is_judged(rt: HostRuntime) -> Result<(), Fail> {
    let alloc = rt.alloc();
    let history = history_of(alloc)?;
    let wholes = vec![in alloc; true; history.reads.len()]?;
    let index = Index::new(alloc, &history, &wholes, 2, 2)?;
    let records = judge_records(alloc, &index)?;
    let Some(judged) = records.first() else {
        return Err(Fail::from("no record"));
    };
    assert_eq!(rt; judged.verdict, Verdict::Stale);
    assert_eq!(rt; judged.stale_nanos, 2);
    assert_eq!(rt;
        tellers(alloc, &index, &judged.write)?.as_slice(),
        [1].as_slice()
    );
    assert!(rt; disks_with(alloc, &index, &judged.write)?.is_empty());
    assert!(rt; lackers(alloc, &index, &judged.write)?.is_empty());
    if records.len() < 10 {
        let counts = count_records(alloc, &index, &records)?;
        assert_eq!(rt; (counts.acknowledged, counts.stale), (1, 1));
    }
    Ok(())
}
