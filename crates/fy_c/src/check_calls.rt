//! Checks of audits: begun, given lines, asked and ended.
ghost use Rattle.std.specs.Prelude.{◌≡◌, ◌≢◌, IfOk, IfErr};
ghost use Rattle.std.specs.Ptr.{null_ptr};
ghost use Rattle.fy_c.specs.Checking.{ReadsLine, BeginsCheck, Finding};
ghost use Rattle.fy_c.specs.Statuses.{Answers};
ghost use Rattle.fy_c.specs.declared.check_handle.FyCheck.{FyCheck};
ghost use Rattle.fy_c.specs.declared.status.Status.TheVariants.{Done};

use crate::check_handle::{FyCheck, closed_up, opened_up};
use crate::checking::{Check, bad_of, count_of, read_line};
use crate::placing::put;
use crate::status::{Status, number_of};
use fy_config::read_config;
use std::alloc::Global;

/// A check for the audits of a cluster file, of which nothing was read.
///
/// # Errors
///
/// `NoMemory`, and the statuses for a cluster file that is refused.
fn begun(alloc: Global, config: &[u8]) -> Result<FyCheck, Status>
    ensures begun { IfOk result (λ check. (old : FyCheck) →
        BeginsCheck config.now old check Done) }
    ensures refused { IfErr result (λ status. (old : FyCheck) →
        BeginsCheck config.now old old status) }
{
    let config = read_config(alloc, config)?;
    let check = Check {
        config,
        begun: None,
    };
    Ok(closed_up(Box::new(alloc, check)?))
}

/// Begins to check an audit of a cluster that began with this cluster file. What the check was
/// before is forgotten.
///
/// # Errors
///
/// `NoMemory`, and the statuses for a cluster file that is refused. The check is then what it was.
#[unsafe(no_mangle)]
pub extern "C" fn fy_begin_check(alloc: Global, config: &[u8], check: &mut FyCheck) -> u32
    ensures { Answers result (BeginsCheck config.now check.old check.new) }
{
    put(begun(alloc, config), check)
}

/// Frees all that an open check holds.
#[unsafe(no_mangle)]
pub extern "C" fn fy_end_check(alloc: Global, check: FyCheck)
    requires { check.at ≢ null_ptr }
{
    drop(opened_up(alloc, check));
}

/// Reads the next line of an audit with its line feed: its header, and then an entry each time. The
/// first bad entry so far goes to `first_bad`, from 0, and 4,294,967,295 where there is none.
///
/// # Errors
///
/// In order: `AuditTooLong` where the lines so far have more than 268,435,456 bytes; `NoHeader`
/// where the first line is no header; `LineTooLong`; `LineSyntax` for a line that is not the one
/// text of an entry that may come next, or that is no one line. `NoMemory` can take the place of
/// the last. Nothing changes.
#[unsafe(no_mangle)]
pub extern "C" fn fy_read_line(
    alloc: Global,
    check: &mut FyCheck,
    line: &[u8],
    first_bad: &mut u32,
) -> u32
    requires { check.old.at ≢ null_ptr }
    ensures open { check.new.at ≢ null_ptr }
    ensures read { Answers result
        (ReadsLine check.old.value check.new.value line.now first_bad.new) }
{
    let held = check.held();
    let outcome = read_line(alloc, held, line);
    *first_bad = bad_of(&held.begun);
    number_of(outcome)
}

/// What `check` finds of the lines so far: how many entries there are, and the first bad one, as
/// `fy_read_line` tells it.
///
/// # Errors
///
/// `NoHeader` where no line was read: 0 goes to `count`.
#[unsafe(no_mangle)]
pub extern "C" fn fy_finding(check: &mut FyCheck, count: &mut u32, first_bad: &mut u32) -> u32
    requires { check.old.at ≢ null_ptr }
    ensures kept { check.new.value ≡ check.old.value }
    ensures place { check.new.at ≡ check.old.at }
    ensures found { Answers result (Finding check.old.value count.new first_bad.new) }
{
    let held = check.held();
    *count = count_of(&held.begun);
    *first_bad = bad_of(&held.begun);
    match held.begun {
        Some(_) => Status::Done.number(),
        None => Status::NoHeader.number(),
    }
}
