//! Guards opened where an audit ends.
ghost use Rattle.std.specs.Prelude.{◌≡◌, ◌↔◌, ◌<◌, ◌∷◌, [], ◌++◌, length, None, Some, Ok, IfOk, IfErr, IfSome, IsTrue, OnErr};
ghost use Rattle.fy_acts.specs.declared.entry.Entry.{Entry};
ghost use Rattle.fy_cluster.specs.Replies.{Legal};
ghost use Rattle.fy_acts.specs.declared.version.Version.TheVariants.{Second};
ghost use Rattle.fy_c.specs.Resuming.{Follows, NotFollowed, OpensAfter, Refutes};
ghost use Rattle.fy_c.specs.Statuses.{Answers};
ghost use Rattle.fy_c.specs.declared.handle.FyGuard.{FyGuard};
ghost use Rattle.fy_c.specs.declared.status.Status.TheVariants.{Done};

use crate::checking::NO_BAD_ENTRY;
use crate::handle::{FyGuard, closed_up};
use crate::opening::begun;
use crate::placing::put;
use crate::status::Status;
use fy_acts::Entry;
use fy_audit::laws::an_audit_is_read_entry_by_entry;
use fy_audit::{AuditReader, Version};
use fy_cluster::{Cluster, Fault, laws};
use std::alloc::{AllocError, Global};

/// Whether the entry may come next in the journal of a cluster. Where it may, that journal then
/// ends with it.
fn comes_next(cluster: &mut Cluster, entry: Entry) -> Result<bool, AllocError>
    requires { entry.at ≡ length cluster.old.journal }
    ensures next { IfOk result (λ next. IsTrue next
        ↔ Legal cluster.old.setup (cluster.old.journal ++ entry ∷ [])) }
    ensures entered { IfOk result (λ next. IsTrue next → cluster.new
        ≡ record cluster.old { journal = cluster.old.journal ++ entry ∷ [] }) }
    ensures setup { cluster.new.setup ≡ cluster.old.setup }
    ensures room { OnErr result (length cluster.old.journal < cluster.old.setup.limit) }
{
    laws::one_entry_more();
    fy_acts::laws::equal_is_the_same();
    cluster.survives();
    let (_, by, act, told) = entry.into_parts();
    match cluster.apply(by, act) {
        Ok(made) => Ok(made == told),
        Err(Fault::JournalFull) => Ok(false),
        Err(Fault::NoMemory) => Err(AllocError),
    }
}

/// Makes the acts of an audit, each of whose replies has to be what the rules give; else the place
/// of the first whose reply isn't is answered.
///
/// # Errors
///
/// In order: `AuditTooLong`; `NoHeader`, for an audit of the first version too; `LineTooLong` or
/// `LineSyntax` of a line before the first bad entry. `NoMemory` can take the place of the last
/// two.
fn follow(alloc: Global, cluster: &mut Cluster, audit: &[u8]) -> Result<Option<u32>, Status>
    requires { cluster.old.journal ≡ [] }
    ensures followed { result ≡ Ok None → Follows cluster.old.setup audit.now cluster.new }
    ensures refuted { IfOk result (λ bad. IfSome bad (Refutes cluster.old.setup audit.now)) }
    ensures refused { IfErr result (NotFollowed cluster.old.setup audit.now) }
{
    an_audit_is_read_entry_by_entry();
    let mut reader = AuditReader::begin(alloc, audit)?;
    match reader.version() {
        Version::First => return Err(Status::NoHeader),
        Version::Second => {}
    }
    while !reader.is_at_end() {
        let entry = reader.next_entry()?;
        let at = entry.at;
        if !comes_next(cluster, entry)? {
            return Ok(Some(at));
        }
    }
    Ok(None)
}

/// A guard whose cluster has the journal of an audit. The first bad entry goes to `first_bad`.
///
/// # Errors
///
/// As of `fy_open_after`.
fn open_after(
    alloc: Global,
    config: &[u8],
    audit: &[u8],
    first_bad: &mut u32,
) -> Result<FyGuard, Status>
    ensures opened { IfOk result (λ guard. (old : FyGuard) →
        OpensAfter config.now audit.now old guard first_bad.new Done) }
    ensures refused { IfErr result (λ status. (old : FyGuard) →
        OpensAfter config.now audit.now old old first_bad.new status) }
{
    *first_bad = NO_BAD_ENTRY;
    let mut cluster = begun(alloc, config)?;
    if let Some(at) = follow(alloc, &mut cluster, audit)? {
        *first_bad = at;
        return Err(Status::Refuted);
    }
    Ok(closed_up(Box::new(alloc, cluster)?))
}

/// Opens a guard whose cluster has the journal of an audit: it goes on where the audit ends. What
/// the guard was before is forgotten. The first bad entry goes to `first_bad`, from 0, and
/// 4,294,967,295 where there is none.
///
/// # Errors
///
/// In order: the statuses for a cluster file that is refused; `AuditTooLong`; `NoHeader`, for an
/// audit of the first version too; and of the lines, the first that isn't so: `LineTooLong` or
/// `LineSyntax`, or `Refuted` where its reply isn't what the rules give. `NoMemory` can take the
/// place of any but `AuditTooLong` and `NoHeader`. The guard is then what it was.
#[unsafe(no_mangle)]
pub extern "C" fn fy_open_after(
    alloc: Global,
    config: &[u8],
    audit: &[u8],
    guard: &mut FyGuard,
    first_bad: &mut u32,
) -> u32
    ensures { Answers result
        (OpensAfter config.now audit.now guard.old guard.new first_bad.new) }
{
    put(open_after(alloc, config, audit, first_bad), guard)
}
