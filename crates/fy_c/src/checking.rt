//! Audits that are checked line by line.
ghost use Rattle.std.specs.Prelude.{◌≡◌, ◌+◌, ℕ, List, [], ◌++◌, IfOk, IfErr, OnOk, OnErr};
ghost use Rattle.fy_cluster.specs.Setup.{Setup};
ghost use Rattle.fy_c.specs.Checking.{HasProgress, HasChecked, bad_number, count_of, bad_of, line_fault_status, next_number, Refuses, ReadsOn};

use crate::status::Status;
use fy_audit::laws::an_audit_is_read_entry_by_entry;
use fy_audit::{
    AuditFault, AuditLineFault, AuditReader, MOST_AUDIT_BYTES, MOST_LINE_BYTES, Version,
};
use fy_cluster::Config;
use fy_lines::first_line;
use fy_replay::Replayer;
use std::alloc::Global;
use std::marker::Model;

/// The number for no bad entry.
pub const NO_BAD_ENTRY: u32 = u32::MAX;

/// How far an audit was read: its header, so many entries, which were made once more, and so many
/// bytes with it.
#[derive(Drop)]
pub(crate) struct Begun {
    version: Version,
    count: u32,
    bytes: usize,
    replayer: Replayer,
}

impl Model for Begun {
    ghost use Rattle.std.specs.Coded.{codes};
    ghost use Rattle.fy_locality.specs.contracts.locality.Locality as e;
    ghost use Rattle.fy_policy.specs.TreeCode.{tree_code};
    ghost use Rattle.fy_c.specs.Progress.{Progress};

    ghost Value = { Progress };

    ghost coded = { Prim.hlevel (codes, tree_code, e.the_row.coded) };

    ghost use Rattle.fy_c.specs.InStep.{progress, IsInStep};

    ghost view = { progress };

    ghost invariant = { IsInStep };
}

/// An audit that is being checked: what its cluster began with, and how far it was read, once its
/// header was.
#[derive(Drop)]
pub(crate) struct Check {
    pub(crate) config: Config,
    pub(crate) begun: Option<Begun>,
}

/// The status for a faulty line of an audit.
fn line_fault_status(fault: AuditLineFault) -> Status
    ensures { result ≡ line_fault_status fault }
{
    match fault {
        AuditLineFault::Header => Status::NoHeader,
        AuditLineFault::TooLong => Status::LineTooLong,
        AuditLineFault::Syntax => Status::LineSyntax,
    }
}

impl From<AuditFault> for Status {
    ghost use Rattle.fy_c.specs.Checking.{audit_status};

    ghost from_gives = { λ fault status. status ≡ audit_status fault };

    fn from(fault: AuditFault) -> Status {
        match fault {
            AuditFault::TooLong => Status::AuditTooLong,
            AuditFault::Line { number: _, fault } => line_fault_status(fault),
            AuditFault::NoMemory => Status::NoMemory,
        }
    }
}

/// The number of the first bad entry, where there is one.
fn bad_number(first_bad: Option<u32>) -> u32
    ensures { result ≡ bad_number first_bad }
{
    match first_bad {
        Some(at) => at,
        None => NO_BAD_ENTRY,
    }
}

/// Reads the header of an audit.
///
/// # Errors
///
/// In order: `AuditTooLong`; `NoHeader`; `LineSyntax` where more follows; `NoMemory`.
fn read_header(alloc: Global, config: &Config, line: &[u8]) -> Result<Begun, Status>
    ensures read { IfOk result (HasProgress config.now line.now) }
    ensures refused { IfErr result (Refuses (λ bytes. bytes ≡ []) 1 line.now) }
{
    an_audit_is_read_entry_by_entry();
    let reader = AuditReader::begin(alloc, line)?;
    if !reader.is_at_end() {
        return Err(Status::LineSyntax);
    }
    let version = reader.version();
    let config = config.try_copy(alloc)?;
    let replayer = Replayer::begin(alloc, config, version)?;
    Ok(Begun {
        version,
        count: 0,
        bytes: line.len(),
        replayer,
    })
}

/// Reads the line of an entry, and has the entry checked.
///
/// # Errors
///
/// In order: `AuditTooLong`; `LineTooLong`; `LineSyntax`. `NoMemory` can take the place of the
/// last. Nothing changes.
fn read_entry(alloc: Global, begun: &mut Begun, line: &[u8]) -> Result<(), Status>
    ensures read { OnOk result ((setup : Setup) (bytes : List ℕ) →
        HasProgress setup bytes begun.old → HasProgress setup (bytes ++ line.now) begun.new) }
    ensures refused { IfErr result
        (Refuses (λ bytes. (setup : Setup) × HasProgress setup bytes begun.old)
        (begun.old.count + 2) line.now) }
    ensures same { OnErr result (begun.new ≡ begun.old) }
{
    an_audit_is_read_entry_by_entry();
    if line.len() > MOST_AUDIT_BYTES.saturating_sub(begun.bytes) {
        return Err(Status::AuditTooLong);
    }
    if line.is_empty() {
        return Err(Status::LineSyntax);
    }
    // The reader doesn't say that it looks at the length before it asks for memory.
    let (front, _) = first_line(line);
    if front.len() > MOST_LINE_BYTES {
        return Err(Status::LineTooLong);
    }
    let mut reader = AuditReader::resume(alloc, begun.version, begun.count, line);
    let entry = reader.next_entry()?;
    if !reader.is_at_end() {
        return Err(Status::LineSyntax);
    }
    begun.replayer.enter(entry)?;
    begun.count += 1;
    begun.bytes += line.len();
    Ok(())
}

/// Reads the next line of an audit: its header, and then an entry each time.
///
/// # Errors
///
/// Those of `read_header`, and then of `read_entry`. Nothing changes.
pub(crate) fn read_line(alloc: Global, check: &mut Check, line: &[u8]) -> Result<(), Status>
    ensures read { OnOk result (ReadsOn check.old check.new line.now) }
    ensures refused { IfErr result (Refuses (λ bytes. HasChecked bytes check.old)
        (next_number check.old.begun) line.now) }
    ensures same { OnErr result (check.new ≡ check.old) }
{
    match &mut check.begun {
        Some(begun) => read_entry(alloc, begun, line),
        None => {
            check.begun = Some(read_header(alloc, &check.config, line)?);
            Ok(())
        }
    }
}

/// How many entries were read.
pub(crate) fn count_of(begun: &Option<Begun>) -> u32
    ensures { result ≡ count_of begun.now }
{
    match begun {
        Some(begun) => begun.count,
        None => 0,
    }
}

/// The first bad one of them.
pub(crate) fn bad_of(begun: &Option<Begun>) -> u32
    ensures { result ≡ bad_of begun.now }
{
    match begun {
        Some(begun) => bad_number(begun.replayer.first_bad()),
        None => NO_BAD_ENTRY,
    }
}
