//! Where the entries of an audit stand in a history, and which processes count as whole there.
ghost use Rattle.std.specs.Prelude.{◌≡◌, ◌≤◌, ℕ, List, IfOk, OnOk, length, vec_len, take, filter};
ghost use Rattle.std.specs.List.Sorted.{IsNonDecreasingBy};
ghost use Rattle.fy_acts.specs.declared.entry.Entry.{Entry};
ghost use Rattle.fy_holders.specs.Destroyed.{destroyed_at};
ghost use Rattle.fy_verdict.specs.Whole as whole;
ghost use Rattle.fy_verdict.specs.Whole.{AreEntryLines, line_of, is_before, is_beyond_guard};

use fy_history::{EntryLine, History, Read};
use fy_holders::{Note, Outages};
use fy_locality::ProcId;
use std::alloc::{AllocError, Global};

/// That entry lines stand in the order of a history, each for one of so many entries. Those of each
/// history that was read do.
///
/// # Errors
///
/// `AllocError` where they don't.
pub(crate) fn check_entry_lines(entries: &[EntryLine], count: u32) -> Result<(), AllocError>
    ensures { OnOk result (AreEntryLines count entries.now) }
{
    let mut last = 0;
    for entry in entries {
        if entry.at.line < last || count <= entry.entry {
            return Err(AllocError);
        }
        last = entry.at.line;
    }
    Ok(())
}

/// How many entry lines stand before a line.
fn count_before(entries: &[EntryLine], line: u32) -> usize
    ensures within { result ≤ length entries.now }
    ensures before { IsNonDecreasingBy line_of entries.now
        → take result entries.now ≡ filter (is_before line) entries.now }
{
    entries.partition_point(|entry| entry.at.line < line)
}

/// How many entries were answered before a line.
pub(crate) fn position_at(entries: &[EntryLine], line: u32) -> u32
    ensures position { (count : ℕ) → AreEntryLines count entries.now
        → result ≡ whole.position_at entries.now line }
    ensures within { (count : ℕ) → AreEntryLines count entries.now → result ≤ count }
{
    match entries[..count_before(entries, line)].last() {
        Some(entry) => entry.entry.saturating_add(1),
        None => 0,
    }
}

/// What an entry line says was done, if it says so.
fn note_of(entry: &EntryLine) -> Option<Note>
    ensures { result ≡ whole.note_of entry.now }
{
    match entry.does {
        Some(done) => Some(Note {
            entry: entry.entry,
            done,
        }),
        None => None,
    }
}

/// Whether an entry line says that a kill was done beyond the guard.
fn is_beyond_guard(outages: &Outages, entry: &EntryLine) -> bool
    ensures { result ≡ is_beyond_guard outages.now.journal entry.now }
{
    match note_of(entry) {
        Some(note) => outages.is_beyond(note),
        None => false,
    }
}

/// The first entry line at which something was done beyond the guard.
pub(crate) fn first_beyond(outages: &Outages, entries: &[EntryLine]) -> Option<EntryLine>
    ensures { result ≡ whole.first_beyond outages.now.journal entries.now }
{
    entries
        .iter()
        .copied()
        .find(|entry| is_beyond_guard(outages, entry))
}

/// Whether the first entry line at which something was done beyond the guard, if there is one,
/// stands before a line.
fn is_behind(beyond: Option<EntryLine>, line: u32) -> bool
    ensures { (journal : List Entry) (entries : List EntryLine) → IsNonDecreasingBy line_of entries
        → beyond ≡ whole.first_beyond journal entries
        → result ≡ whole.was_beyond journal entries line }
{
    match beyond {
        Some(entry) => entry.at.line < line,
        None => false,
    }
}

/// Whether a process is destroyed at the position at a line.
fn is_destroyed_at(outages: &Outages, entries: &[EntryLine], process: ProcId, line: u32) -> bool
    ensures { AreEntryLines (length outages.now.journal) entries.now → result
        ≡ destroyed_at outages.now.setup outages.now.journal
        (whole.position_at entries.now line) process.0 }
{
    outages.was_destroyed(process, position_at(entries, line))
}

/// Whether a process counts as whole at a line: it isn't destroyed, and nothing before was done
/// beyond the guard.
fn is_whole_at(
    outages: &Outages,
    entries: &[EntryLine],
    beyond: Option<EntryLine>,
    process: ProcId,
    line: u32,
) -> bool
    requires { beyond ≡ whole.first_beyond outages.now.journal entries.now }
    ensures { AreEntryLines (length outages.now.journal) entries.now → result
        ≡ whole.is_whole_at outages.now.setup outages.now.journal entries.now process.0 line }
{
    !is_behind(beyond, line) && !is_destroyed_at(outages, entries, process, line)
}

/// Whether the process that a read asked counts as whole where it was asked and where it answered.
fn is_whole(
    outages: &Outages,
    entries: &[EntryLine],
    beyond: Option<EntryLine>,
    read: &Read,
) -> bool
    requires { beyond ≡ whole.first_beyond outages.now.journal entries.now }
    ensures { AreEntryLines (length outages.now.journal) entries.now → result
        ≡ whole.is_whole outages.now.setup outages.now.journal entries.now read.now }
{
    let Some(node) = read.node else {
        return false;
    };
    let Some(ended) = read.ended else {
        return false;
    };
    let process = ProcId(u32::from(node));
    is_whole_at(outages, entries, beyond, process, read.began.line)
        && is_whole_at(outages, entries, beyond, process, ended.line)
}

/// Of each read, whether its process counts as whole where it was asked and where it answered.
///
/// # Errors
///
/// `AllocError` where an allocation fails.
pub(crate) fn wholes_of(
    alloc: Global,
    outages: &Outages,
    history: &History,
) -> Result<Vec<bool>, AllocError>
    ensures count { IfOk result (λ wholes. vec_len wholes ≡ length history.now.reads.items) }
    ensures each { IfOk result (λ wholes.
        AreEntryLines (length outages.now.journal) history.now.entries.items
        → wholes.items ≡ whole.wholes_of outages.now.setup outages.now.journal history.now) }
{
    let beyond = first_beyond(outages, &history.entries);
    let mut wholes = Vec::new(alloc);
    for read in &history.reads {
        wholes.push(is_whole(outages, &history.entries, beyond, read))?;
    }
    Ok(wholes)
}
