//! How what was found is spelled. The engine is generic in it, so what it writes comes from what
//! was found and from nothing else. How `verdict` spells is only tested.
use crate::findings::{Evidence, Fault, Finding, Findings};
use fy_history::{Answer, Names, Read};
use fy_locality::{MOST_PROCESSES, ProcId, ProcSet};
use fy_records::{Counts, Lacker, Verdict};
use json::Writer;
use std::alloc::{AllocError, Global};

/// A way to spell what was found of a history. `spells` says which bytes stand for it.
pub trait Spelling {
    ghost use Rattle.std.specs.Prelude.{ℕ, List, IfOk};
    ghost use Rattle.fy_verdict.specs.declared.findings.Findings.{Findings};

    ghost spells: { Self → List (List ℕ) → Findings → List ℕ → Type 0 };

    /// The bytes that stand for what was found in a history of these names.
    ///
    /// # Errors
    ///
    /// An allocation failed.
    fn spell(
        &self,
        alloc: Global,
        names: &Names,
        findings: &Findings,
    ) -> Result<Vec<u8>, AllocError>
        ensures { IfOk result (λ text. spells self.now names.now findings.now text.items) };
}

/// A line of JSON for each record that isn't kept, and a line of counts.
#[derive(Clone, Copy)]
pub struct Jsonl;

/// Writes a member whose value is a number.
fn write_number(line: &mut Writer, name: &str, number: u64) -> Result<(), AllocError> {
    line.key(name)?;
    line.u64(number)
}

/// Writes a member whose value is a text.
fn write_text(line: &mut Writer, name: &str, text: &str) -> Result<(), AllocError> {
    line.key(name)?;
    line.string(text)
}

/// Writes a member whose value is a list of processes.
fn write_processes(line: &mut Writer, name: &str, processes: &[u16]) -> Result<(), AllocError> {
    line.key(name)?;
    line.begin_array()?;
    for process in processes {
        line.u64(u64::from(*process))?;
    }
    line.end_array()
}

/// Writes a member whose value is a set of processes.
fn write_set(line: &mut Writer, name: &str, set: &ProcSet) -> Result<(), AllocError> {
    line.key(name)?;
    line.begin_array()?;
    for number in 0..MOST_PROCESSES {
        if set.contains(ProcId(number)) {
            line.u64(u64::from(number))?;
        }
    }
    line.end_array()
}

/// Writes a list of two numbers.
fn write_pair(line: &mut Writer, first: u64, second: u64) -> Result<(), AllocError> {
    line.begin_array()?;
    line.u64(first)?;
    line.u64(second)?;
    line.end_array()
}

/// Writes who lacks a record, each with the line of the last answer.
fn write_lackers(line: &mut Writer, lackers: &[Lacker]) -> Result<(), AllocError> {
    line.key("lacks")?;
    line.begin_array()?;
    for lacker in lackers {
        write_pair(line, u64::from(lacker.node), u64::from(lacker.line))?;
    }
    line.end_array()
}

/// Writes whose fault it is.
fn write_fault(line: &mut Writer, fault: &Fault) -> Result<(), AllocError> {
    match fault {
        Fault::Beyond(entry) => {
            line.begin_object()?;
            write_number(line, "beyond", u64::from(*entry))?;
            line.end_object()
        }
        Fault::Nobody => line.string("nobody"),
        Fault::Store => line.string("store"),
        Fault::StoreOrWhole(heals) => {
            line.begin_object()?;
            line.key("store_or_whole")?;
            line.begin_array()?;
            for heal in heals {
                write_pair(line, u64::from(heal.process.0), u64::from(heal.entry))?;
            }
            line.end_array()?;
            line.end_object()
        }
    }
}

/// The word for a verdict.
fn verdict_word(verdict: Verdict) -> &'static str {
    match verdict {
        Verdict::Lost(_) => "lost",
        Verdict::Wrong => "wrong",
        Verdict::Missing => "missing",
        Verdict::Unreadable => "unreadable",
        Verdict::Stale => "stale",
        Verdict::Kept => "kept",
    }
}

/// Writes the line where a read ended, and null where there is no such read.
fn write_read(line: &mut Writer, read: Option<Read>) -> Result<(), AllocError> {
    line.key("read")?;
    match read {
        Some(
            Read {
                ended: Some(ended),
                ..
            },
        ) => line.u64(u64::from(ended.line)),
        _ => line.null(),
    }
}

/// Writes what a read told.
fn write_told(line: &mut Writer, names: &Names, read: Option<Read>) -> Result<(), AllocError> {
    if let Some(
        Read {
            answer: Answer::Value(value),
            ..
        },
    ) = read
    {
        write_text(line, "told", names.text(value))?;
    }
    Ok(())
}

/// Writes the members of a record from `acked` to `key`.
fn write_front(line: &mut Writer, names: &Names, finding: &Finding) -> Result<(), AllocError> {
    let judged = finding.judged;
    write_number(line, "acked", u64::from(judged.acked.line))?;
    if judged.verdict == Verdict::Stale {
        write_number(line, "after", judged.stale_nanos)?;
    }
    write_number(line, "at", judged.acked.nanos)?;
    if let Evidence::Lost {
        destroyed,
        disks,
        ..
    } = &finding.evidence
    {
        write_set(line, "destroyed", destroyed)?;
        write_processes(line, "disks", disks)?;
    }
    if let Evidence::Missing { disks, .. } = &finding.evidence {
        write_processes(line, "disks", disks)?;
    }
    write_number(line, "entry", u64::from(finding.position))?;
    line.key("fault")?;
    match &finding.evidence {
        Evidence::Lost { fault, .. } => write_fault(line, fault)?,
        Evidence::Missing { .. } | Evidence::Other => line.null()?,
    }
    write_text(line, "key", names.text(judged.write.key))
}

/// Writes the members of a record from `lacks` to `verdict`.
fn write_back(line: &mut Writer, names: &Names, finding: &Finding) -> Result<(), AllocError> {
    let judged = finding.judged;
    if let Evidence::Missing { lacks, .. } = &finding.evidence {
        write_lackers(line, lacks)?;
    }
    if let Verdict::Lost(_) | Verdict::Wrong | Verdict::Stale = judged.verdict {
        write_read(line, judged.read)?;
    }
    if let Evidence::Lost { tells, .. } = &finding.evidence {
        write_processes(line, "tells", tells)?;
    }
    if judged.verdict == Verdict::Wrong {
        write_told(line, names, judged.read)?;
    }
    write_text(line, "value", names.text(judged.write.value))?;
    write_text(line, "verdict", verdict_word(judged.verdict))
}

/// Ends a line.
fn end_line(mut line: Writer) -> Result<Vec<u8>, AllocError> {
    line.end_object()?;
    let mut bytes = line.into_inner();
    bytes.push(b'\n')?;
    Ok(bytes)
}

/// Writes the line of a record that isn't kept.
fn write_finding(bytes: Vec<u8>, names: &Names, finding: &Finding) -> Result<Vec<u8>, AllocError> {
    let mut line = Writer::new(bytes);
    line.begin_object()?;
    write_front(&mut line, names, finding)?;
    write_back(&mut line, names, finding)?;
    end_line(line)
}

/// Writes the quantiles of staleness, or null.
fn write_staleness(line: &mut Writer, staleness: Option<[u64; 5]>) -> Result<(), AllocError> {
    line.key("staleness")?;
    match staleness {
        Some(numbers) => {
            line.begin_array()?;
            for number in numbers {
                line.u64(number)?;
            }
            line.end_array()
        }
        None => line.null(),
    }
}

/// Writes the line of counts.
fn write_counts(bytes: Vec<u8>, counts: &Counts) -> Result<Vec<u8>, AllocError> {
    let mut line = Writer::new(bytes);
    line.begin_object()?;
    let before = [
        ("acknowledged", counts.acknowledged),
        ("gone", counts.gone),
        ("kept", counts.kept),
        ("lost", counts.lost),
        ("missing", counts.missing),
        ("recovered", counts.recovered),
        ("refused", counts.refused),
        ("registers", counts.registers),
        ("stale", counts.stale),
    ];
    for (name, count) in before {
        write_number(&mut line, name, count as u64)?;
    }
    write_staleness(&mut line, counts.staleness)?;
    let behind = [
        ("twice", counts.twice),
        ("unreadable", counts.unreadable),
        ("unwritten", counts.unwritten),
        ("wrong", counts.wrong),
    ];
    for (name, count) in behind {
        write_number(&mut line, name, count as u64)?;
    }
    end_line(line)
}

impl Spelling for Jsonl {
    // No definition says what the lines are.
    ghost spells = { λ _ _ _ _. Unit };

    fn spell(
        &self,
        alloc: Global,
        names: &Names,
        findings: &Findings,
    ) -> Result<Vec<u8>, AllocError> {
        let mut bytes = Vec::new(alloc);
        for finding in &findings.records {
            bytes = write_finding(bytes, names, finding)?;
        }
        write_counts(bytes, &findings.counts)
    }
}
