//! What is found of the records of a history.
ghost use Rattle.std.specs.Prelude.{◌≡◌, ◌<◌, ◌≤◌, ◌^◌, ◌++◌, ◌∷◌, [], ℕ, List, Option, IfOk, OnOk, length};
ghost use Rattle.fy_acts.specs.declared.entry.Entry.{Entry};
ghost use Rattle.fy_cluster.specs.Setup.{Setup};
ghost use Rattle.fy_records.specs.Indexed.{IsInOrder, IsIndexOf};
ghost use Rattle.fy_records.specs.Lines.{Lines};
ghost use Rattle.fy_verdict.specs.Whole.{AreEntryLines};
ghost use Rattle.fy_verdict.specs.Faults as faults;
ghost use Rattle.fy_verdict.specs.Faults.{IsBlamed, IsFault, IsShownBy};
ghost use Rattle.fy_verdict.specs.Found.{beyond_entry, judged_lines, known_of, is_not_kept, AreNotKept, IsFinding, IsFoundIn};

use crate::entries::{check_entry_lines, first_beyond, position_at, wholes_of};
use fy_history::{History, Known, Write};
use fy_holders::{Blame, Heal, Outages};
use fy_locality::ProcSet;
use fy_records::{
    Counts, Index, Judged, Lacker, Loss, Verdict, count_records, disks_with, judge_records,
    lackers, tellers,
};
use std::alloc::{AllocError, Global};

/// Whose fault it is that a record is lost.
#[derive(Drop)]
pub enum Fault {
    /// Of who did more than the guard said, for this entry first.
    Beyond(u32),
    /// The answers and the disks contradict each other: nobody is blamed.
    Nobody,
    /// The store's.
    Store,
    /// The store's, or of who said that the healed processes were whole again.
    StoreOrWhole(Vec<Heal>),
}

/// What shows a verdict, beside the read that does.
#[derive(Drop)]
pub enum Evidence {
    /// Of a lost record: whose fault it is, who was destroyed since, who told it and whose disk has
    /// it.
    Lost {
        fault: Fault,
        destroyed: ProcSet,
        tells: Vec<u16>,
        disks: Vec<u16>,
    },
    /// Of a missing record: who lacks it, and whose disk has it.
    Missing {
        lacks: Vec<Lacker>,
        disks: Vec<u16>,
    },
    /// Of any other.
    Other,
}

/// A record that isn't kept.
#[derive(Drop)]
pub struct Finding {
    pub judged: Judged,
    /// How many entries had been answered when it was acknowledged.
    pub position: u32,
    pub evidence: Evidence,
}

/// What is found of all records.
#[derive(Drop)]
pub struct Findings {
    /// Of each read, whether its process counts as whole where it was asked and where it answered.
    pub wholes: Vec<bool>,
    /// All acknowledged records with their verdicts, in the order of their acknowledgements.
    pub judged: Vec<Judged>,
    pub counts: Counts,
    /// The records that aren't kept.
    pub records: Vec<Finding>,
}

/// Whether what is asked and what is found on disks contradict each other.
fn is_told_apart(loss: Loss, tells: &[u16], disks: &[u16]) -> bool
    ensures { result ≡ faults.is_told_apart loss tells.now disks.now }
{
    matches!(loss, Loss::Process) || !tells.is_empty() || !disks.is_empty()
}

/// Whose fault it is that a record is lost that was acknowledged at a position, by who was destroyed
/// since.
fn blame_at(alloc: Global, outages: &mut Outages, position: u32) -> Result<Fault, AllocError>
    ensures blamed { IfOk result (λ fault. position ≤ length outages.old.journal →
        IsBlamed outages.old.setup outages.old.journal position fault) }
    ensures same { outages.new ≡ outages.old }
{
    match outages.blame_since(position) {
        Blame::Store => Ok(Fault::Store),
        Blame::StoreOrWhole => Ok(Fault::StoreOrWhole(Vec::from_slice(
            alloc,
            outages.heals_since(position),
        )?)),
    }
}

/// Whose fault it is that a record is lost that was acknowledged at a position.
fn fault_at(
    alloc: Global,
    outages: &mut Outages,
    beyond: Option<u32>,
    told_apart: bool,
    position: u32,
) -> Result<Fault, AllocError>
    ensures fault { IfOk result (λ fault. position ≤ length outages.old.journal →
        IsFault outages.old.setup outages.old.journal beyond told_apart position fault) }
    ensures same { outages.new ≡ outages.old }
{
    if let Some(entry) = beyond {
        return Ok(Fault::Beyond(entry));
    }
    if told_apart {
        return Ok(Fault::Nobody);
    }
    blame_at(alloc, outages, position)
}

/// What shows a loss.
fn evidence_of_loss(
    alloc: Global,
    index: &Index,
    outages: &mut Outages,
    beyond: Option<u32>,
    write: &Write,
    position: u32,
    loss: Loss,
) -> Result<Evidence, AllocError>
    requires { IsInOrder index.now }
    ensures shown { IfOk result (λ evidence. (h : Lines) → IsIndexOf h index.now
        → position ≤ length outages.old.journal
        → IsShownBy outages.old.setup outages.old.journal beyond h write.now position
        (Verdict.Lost loss) evidence) }
    ensures same { outages.new ≡ outages.old }
{
    let tells = tellers(alloc, index, write)?;
    let disks = disks_with(alloc, index, write)?;
    let told_apart = is_told_apart(loss, &tells, &disks);
    let fault = fault_at(alloc, outages, beyond, told_apart, position)?;
    Ok(Evidence::Lost {
        fault,
        destroyed: outages.destroyed_since(position),
        tells,
        disks,
    })
}

/// What shows that a record is missing.
fn evidence_of_missing(alloc: Global, index: &Index, write: &Write) -> Result<Evidence, AllocError>
    requires { IsInOrder index.now }
    ensures { IfOk result (λ evidence. (c : Setup) (journal : List Entry) (beyond : Option ℕ)
        (position : ℕ) (h : Lines) → IsIndexOf h index.now
        → IsShownBy c journal beyond h write.now position Verdict.Missing evidence) }
{
    Ok(Evidence::Missing {
        lacks: lackers(alloc, index, write)?,
        disks: disks_with(alloc, index, write)?,
    })
}

/// What shows a verdict.
fn evidence_of(
    alloc: Global,
    index: &Index,
    outages: &mut Outages,
    beyond: Option<u32>,
    judged: &Judged,
    position: u32,
) -> Result<Evidence, AllocError>
    requires { IsInOrder index.now }
    ensures shown { IfOk result (λ evidence. (h : Lines) → IsIndexOf h index.now
        → position ≤ length outages.old.journal
        → IsShownBy outages.old.setup outages.old.journal beyond h judged.now.write position
        judged.now.verdict evidence) }
    ensures same { outages.new ≡ outages.old }
{
    match judged.verdict {
        Verdict::Lost(loss) => {
            evidence_of_loss(alloc, index, outages, beyond, &judged.write, position, loss)
        }
        Verdict::Missing => evidence_of_missing(alloc, index, &judged.write),
        Verdict::Wrong | Verdict::Unreadable | Verdict::Stale | Verdict::Kept => {
            Ok(Evidence::Other)
        }
    }
}

/// Whether a record isn't kept.
fn is_not_kept(judged: &Judged) -> bool
    ensures { result ≡ is_not_kept judged.now }
{
    !matches!(judged.verdict, Verdict::Kept)
}

/// The entry of the first entry line at which something was done beyond the guard.
fn beyond_entry(outages: &Outages, history: &History) -> Option<u32>
    ensures { result ≡ beyond_entry outages.now.journal history.now }
{
    match first_beyond(outages, &history.entries) {
        Some(line) => Some(line.entry),
        None => None,
    }
}

/// A record with its position and what shows its verdict.
fn finding_of(
    alloc: Global,
    index: &Index,
    outages: &mut Outages,
    history: &History,
    beyond: Option<u32>,
    judged: &Judged,
) -> Result<Finding, AllocError>
    requires order { IsInOrder index.now }
    requires beyond { beyond ≡ beyond_entry outages.old.journal history.now }
    ensures judged { IfOk result (λ finding. finding.judged ≡ judged.now) }
    ensures found { IfOk result (λ finding.
        AreEntryLines (length outages.old.journal) history.now.entries.items
        → IsIndexOf (judged_lines outages.old.setup outages.old.journal history.now) index.now
        → IsFinding outages.old.setup outages.old.journal history.now finding) }
    ensures same { outages.new ≡ outages.old }
{
    let position = position_at(&history.entries, judged.acked.line);
    let evidence = evidence_of(alloc, index, outages, beyond, judged, position)?;
    Ok(Finding {
        judged: *judged,
        position,
        evidence,
    })
}

/// Adds a record to those that aren't kept.
fn add_finding(records: &mut Vec<Finding>, finding: Finding) -> Result<(), AllocError>
    ensures { OnOk result (records.new.items ≡ records.old.items ++ finding ∷ []) }
{
    records.push(finding)?;
    Ok(())
}

/// The records that aren't kept, with what shows it.
fn not_kept(
    alloc: Global,
    index: &Index,
    outages: &mut Outages,
    history: &History,
    judged: &[Judged],
) -> Result<Vec<Finding>, AllocError>
    requires { IsInOrder index.now }
    ensures those { IfOk result (λ records.
        AreEntryLines (length outages.old.journal) history.now.entries.items
        → IsIndexOf (judged_lines outages.old.setup outages.old.journal history.now) index.now
        → AreNotKept outages.old.setup outages.old.journal history.now judged.now records.items) }
    ensures same { outages.new ≡ outages.old }
{
    let beyond = beyond_entry(outages, history);
    let mut records = Vec::new(alloc);
    for each in judged {
        if is_not_kept(each) {
            let finding = finding_of(alloc, index, outages, history, beyond, each)?;
            add_finding(&mut records, finding)?;
        }
    }
    Ok(records)
}

/// How many texts a history has.
fn count_names(history: &History) -> Result<u32, AllocError>
    ensures { IfOk result (λ count. count ≡ length history.now.names) }
{
    match u32::try_from(history.names.len()) {
        Ok(count) => Ok(count),
        Err(_) => Err(AllocError),
    }
}

/// That so many records can be counted, as memory has never room for more.
fn are_few(count: usize) -> Result<(), AllocError>
    ensures { OnOk result (count < 2 ^ 50) }
{
    if count < 1_125_899_906_842_624 {
        Ok(())
    } else {
        Err(AllocError)
    }
}

/// What is found of the records of a history, by who was destroyed when.
///
/// # Errors
///
/// `AllocError` where an allocation fails.
pub(crate) fn findings_of(
    alloc: Global,
    outages: &mut Outages,
    history: &History,
    known: Known,
) -> Result<Findings, AllocError>
    requires { known.processes < 2 ^ 16 }
    ensures { IfOk result (λ findings. known ≡ known_of outages.old.setup outages.old.journal →
        IsFoundIn outages.old.setup outages.old.journal history.now findings) }
{
    check_entry_lines(&history.entries, known.entries)?;
    let wholes = wholes_of(alloc, outages, history)?;
    let names = count_names(history)?;
    let index = Index::new(alloc, history, &wholes, known.processes as u16, names)?;
    let judged = judge_records(alloc, &index)?;
    are_few(judged.len())?;
    let counts = count_records(alloc, &index, &judged)?;
    let records = not_kept(alloc, &index, outages, history, &judged)?;
    Ok(Findings {
        wholes,
        judged,
        counts,
        records,
    })
}
