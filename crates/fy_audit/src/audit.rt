//! Audits: journals written out, an entry a line.
ghost use Rattle.std.specs.Prelude.{◌≡◌, ◌↔◌, ◌<◌, ◌++◌, ◌∷◌, [], length, IfOk, IfErr, OnOk, Ok, Err};
ghost use Rattle.fy_audit.specs.Audit.{AuditOf, AuditAnswers, audit_of};
ghost use Rattle.fy_audit.specs.declared.audit.AuditFault.TheVariants.{TooLong};

use crate::{AuditReader, Entry, Journal, JournalFault, MOST_ENTRIES, laws};
use std::alloc::Global;

/// How many bytes an audit may have: 268,435,456.
pub const MOST_AUDIT_BYTES: usize = 268_435_456;

/// Why a line of an audit is refused, the first that holds.
#[derive(Clone, Copy, PartialEq, Eq, Debug)]
pub enum AuditLineFault {
    /// The line is the first, and isn't the header of a version with its line feed.
    Header,
    /// The line has more than 65,536 bytes, without its line feed.
    TooLong,
    /// The line isn't the one text of an entry that is numbered by its place and that audits of the
    /// version have, or it lacks its line feed.
    Syntax,
}

/// Why an audit is refused.
#[derive(Clone, Copy, PartialEq, Eq, Debug)]
pub enum AuditFault {
    /// The audit has more than 268,435,456 bytes.
    TooLong,
    /// The first faulty line, counted from 1, and its first fault.
    Line { number: u32, fault: AuditLineFault },
    /// An allocation for the audit failed.
    NoMemory,
}

/// Puts an entry that is numbered by its place last.
///
/// # Errors
///
/// `NoMemory` where an allocation fails.
fn enter(journal: &mut Journal, entry: Entry) -> Result<(), JournalFault>
    requires place { entry.at ≡ length journal.old.entries }
    requires few { length journal.old.entries < MOST_ENTRIES }
    ensures entries { OnOk result (journal.new.entries ≡ journal.old.entries ++ entry ∷ []) }
    ensures version { journal.new.version ≡ journal.old.version }
{
    journal.reserve(1)?;
    let (_, by, act, reply) = entry.into_parts();
    journal.push(by, act, reply);
    Ok(())
}

/// The journal of an audit. Its last line has a line feed too, and an audit of no entries is its
/// header.
///
/// # Errors
///
/// In this order: `TooLong`; `Line` for the first faulty line; `NoMemory` where an allocation fails
/// before.
pub fn read_audit(alloc: Global, bytes: &[u8]) -> Result<Journal, AuditFault>
    ensures read { IfOk result (λ journal. AuditOf bytes.now (Ok (audit_of journal))) }
    ensures refused { IfErr result (λ fault. AuditAnswers bytes.now (Err fault)) }
    ensures too_long { (result ≡ Err TooLong) ↔ (MOST_AUDIT_BYTES < length bytes.now) }
{
    laws::an_audit_is_read_entry_by_entry();
    let mut reader = AuditReader::begin(alloc, bytes)?;
    let mut journal = Journal::of_version(alloc, reader.version());
    while !reader.is_at_end() {
        let entry = reader.next_entry()?;
        if let Err(_) = enter(&mut journal, entry) {
            return Err(AuditFault::NoMemory);
        }
    }
    Ok(journal)
}
