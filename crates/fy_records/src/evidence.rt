//! Who tells a record, who lacks it and whose disk has it.
ghost use Rattle.std.specs.Prelude.{◌≡◌, ℕ, ◌+◌, ◌==◌, ◌&&◌, ◌||◌, IfOk, OnOk, IfSome, Contains, IsTrue, ◌⊎◌, true};
ghost use Rattle.std.specs.List.{list_any};
ghost use Rattle.fy_records.specs.Evidence.{is_among, is_node, is_told_by, is_held_by, answer_line, is_answer, is_answer_of, is_lacker, is_lacker_at, IsAnswer, AreTellers, AreHolders, AreLackers};
ghost use Rattle.fy_records.specs.Found.{some_of, AreGathered};
ghost use Rattle.fy_records.specs.declared.evidence.Lacker.{Lacker};
ghost use Rattle.fy_records.specs.Indexed.{IsInOrder, IsIndexOf};
ghost use Rattle.fy_records.specs.Lines.{Lines, some_read};
ghost use Rattle.fy_records.specs.Reads.{process_of};

use crate::Index;
use crate::disks::Found;
use crate::judge::{last_lacking, split_process};
use crate::seen::{Seen, Test};
use fy_history::{Place, Write};
use std::alloc::{AllocError, Global};

/// A process that lacks a record to the end.
#[derive(Clone, Copy, PartialEq, Eq, Debug)]
pub struct Lacker {
    pub node: u16,
    /// The line of its last answer.
    pub line: u32,
}

/// Adds a process, if it isn't there.
fn add_node(nodes: &mut Vec<u16>, node: u16) -> Result<(), AllocError>
    ensures { OnOk result ((process : ℕ) → is_among nodes.new.items process
        ≡ (is_among nodes.old.items process || (node == process))) }
{
    if !nodes.contains(&node) {
        nodes.push(node)?;
    }
    Ok(())
}

/// The process of which a read at the end told a value.
fn teller_of(seen: &Seen, written: Option<Place>, value: u32) -> Option<u16>
    ensures { (process : ℕ) → is_node process result ≡ is_told_by written value process seen.now }
{
    match seen.read.node {
        Some(node) => {
            if seen.is_at_end(written) && seen.tells(value) {
                Some(node)
            } else {
                None
            }
        }
        None => None,
    }
}

/// The process whose disk has a record of a value.
fn holder_of(found: &Found, value: u32) -> Option<u16>
    ensures { (process : ℕ) → is_node process result ≡ is_held_by value process found.now }
{
    if found.has(value) {
        Some(found.node)
    } else {
        None
    }
}

/// Adds a process, if there is one.
fn add_some(nodes: &mut Vec<u16>, node: Option<u16>) -> Result<(), AllocError>
    ensures { OnOk result ((process : ℕ) → is_among nodes.new.items process
        ≡ (is_among nodes.old.items process || is_node process node)) }
{
    match node {
        Some(node) => add_node(nodes, node),
        None => Ok(()),
    }
}

/// The processes of which a read at the end told a value.
fn tellers_among(
    alloc: Global,
    reads: &[Seen],
    written: Option<Place>,
    value: u32,
) -> Result<Vec<u16>, AllocError>
    ensures { IfOk result (λ nodes. (process : ℕ) → is_among nodes.items process
        ≡ list_any (is_told_by written value process) reads.now) }
{
    let mut nodes = Vec::new(alloc);
    for seen in reads {
        add_some(&mut nodes, teller_of(seen, written, value))?;
    }
    Ok(nodes)
}

/// The processes whose disks have a record of a value.
fn holders_among(alloc: Global, founds: &[Found], value: u32) -> Result<Vec<u16>, AllocError>
    ensures { IfOk result (λ nodes. (process : ℕ) → is_among nodes.items process
        ≡ list_any (is_held_by value process) founds.now) }
{
    let mut nodes = Vec::new(alloc);
    for found in founds {
        add_some(&mut nodes, holder_of(found, value))?;
    }
    Ok(nodes)
}

/// The processes that told a record at the end, each once.
///
/// # Errors
///
/// `AllocError` where an allocation fails.
pub fn tellers(alloc: Global, index: &Index, write: &Write) -> Result<Vec<u16>, AllocError>
    requires { IsInOrder index.now }
    ensures { IfOk result (λ nodes. (h : Lines) → IsIndexOf h index.now
        → AreTellers h write.now nodes.items) }
{
    let reads = index.reads_of(write.key);
    let nodes = tellers_among(alloc, reads, index.written(), write.value)?;
    Ok(nodes)
}

/// The processes whose disks have a record, each once.
///
/// # Errors
///
/// `AllocError` where an allocation fails.
pub fn disks_with(alloc: Global, index: &Index, write: &Write) -> Result<Vec<u16>, AllocError>
    requires { IsInOrder index.now }
    ensures { IfOk result (λ nodes. (h : Lines) → IsIndexOf h index.now
        → AreHolders h write.now nodes.items) }
{
    let nodes = holders_among(alloc, index.founds_of(write.key), write.value)?;
    Ok(nodes)
}

/// The line of an answer.
fn answer_line(seen: &Seen) -> u32
    ensures { result ≡ answer_line seen.now }
{
    match seen.read.ended {
        Some(ended) => ended.line,
        None => seen.read.began.line,
    }
}

/// The process and the line of an answer.
fn lacker_of(seen: &Seen) -> Option<Lacker>
    ensures answer { IfSome result (λ lacker. is_answer lacker seen.now ≡ true) }
    ensures process { (process : ℕ) → is_lacker_at process result
        ≡ (process_of seen.now == process + 1) }
{
    let line = answer_line(seen);
    match seen.read.node {
        Some(node) => Some(Lacker { node, line }),
        None => None,
    }
}

/// Adds the process and the line of an answer, if there is one.
fn add_lacker(lackers: &mut Vec<Lacker>, seen: Option<Seen>) -> Result<(), AllocError>
    ensures each { OnOk result ((lacker : Lacker) → Contains lackers.new.items lacker
        → Contains lackers.old.items lacker ⊎ IsAnswer lacker seen) }
    ensures all { OnOk result ((process : ℕ) → is_lacker lackers.new.items process
        ≡ (is_lacker lackers.old.items process || is_answer_of process seen)) }
{
    let Some(seen) = seen else {
        return Ok(());
    };
    if let Some(lacker) = lacker_of(&seen) {
        lackers.push(lacker)?;
    }
    Ok(())
}

/// The processes that count as whole and lack a record to the end, by the reads of its key.
fn lackers_among(
    alloc: Global,
    reads: &[Seen],
    written: Option<Place>,
) -> Result<Vec<Lacker>, AllocError>
    requires { AreGathered reads.now }
    ensures { IfOk result (λ lackers. AreLackers (some_of reads.now) written lackers.items) }
{
    let mut lackers = Vec::new(alloc);
    let mut rest = reads;
    while !rest.is_empty() {
        let (process, next) = split_process(rest);
        add_lacker(&mut lackers, last_lacking(written, process, Test::Whole))?;
        rest = next;
    }
    Ok(lackers)
}

/// The processes that count as whole and lack a record to the end, from the first on.
///
/// # Errors
///
/// `AllocError` where an allocation fails.
pub fn lackers(alloc: Global, index: &Index, write: &Write) -> Result<Vec<Lacker>, AllocError>
    requires { IsInOrder index.now }
    ensures { IfOk result (λ lackers. (h : Lines) → IsIndexOf h index.now
        → AreLackers (some_read h write.now.key) h.written lackers.items) }
{
    let lackers = lackers_among(alloc, index.reads_of(write.key), index.written())?;
    Ok(lackers)
}
