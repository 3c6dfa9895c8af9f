//! Clogs of processes and their ends, by numbers.
ghost use Rattle.std.specs.Prelude.{◌≢◌, IfOk, IfErr};
ghost use Rattle.std.specs.Ptr.{null_ptr};
ghost use Rattle.fy_c.specs.Making.{MakesGiven, IsClogOf, IsUnclogOf};
ghost use Rattle.fy_c.specs.Sets.{NoTarget};

use crate::handle::FyGuard;
use crate::making::{FyReply, make_given};
use crate::sets::target_of;
use crate::status::Status;
use fy_acts::Act;

/// A clog by numbers.
///
/// # Errors
///
/// In order: `Argument` where the number is that of no key; `Name` where the bytes are no name.
fn clog_of(key: u32, value: &[u8], ticks: u64) -> Result<Act, Status>
    ensures given { IfOk result (IsClogOf key value.now ticks) }
    ensures not_given { IfErr result (NoTarget key value.now) }
{
    let target = target_of(key, value)?;
    Ok(Act::Clog { target, ticks })
}

/// The end of clogs by numbers.
///
/// # Errors
///
/// As of `clog_of`.
fn unclog_of(key: u32, value: &[u8]) -> Result<Act, Status>
    ensures given { IfOk result (IsUnclogOf key value.now) }
    ensures not_given { IfErr result (NoTarget key value.now) }
{
    let target = target_of(key, value)?;
    Ok(Act::Unclog { target })
}

/// Holds back the messages of each process of a target for so many ticks. The rule that bars it and
/// what it names go to the reply.
///
/// # Errors
///
/// In order: `Argument` where the number is that of no key; `Name` where the value is no name;
/// `JournalFull`; `NoMemory`: nothing changed then. `Refused` where there is no actor with this
/// number, and the act stands in the journal all the same.
#[unsafe(no_mangle)]
pub extern "C" fn fy_clog(
    guard: &mut FyGuard,
    actor: u32,
    key: u32,
    value: &[u8],
    ticks: u64,
    reply: &mut FyReply,
) -> u32
    requires { guard.old.at ≢ null_ptr }
    ensures open { guard.new.at ≢ null_ptr }
    ensures made { MakesGiven guard.old.value guard.new.value actor (IsClogOf key value.now ticks)
        (NoTarget key value.now) result reply.new }
{
    let given = clog_of(key, value, ticks);
    make_given(guard, actor, given, reply)
}

/// Ends the clogs of each process of a target. The rule that bars it and what it names go to the
/// reply.
///
/// # Errors
///
/// As of `fy_clog`.
#[unsafe(no_mangle)]
pub extern "C" fn fy_unclog(
    guard: &mut FyGuard,
    actor: u32,
    key: u32,
    value: &[u8],
    reply: &mut FyReply,
) -> u32
    requires { guard.old.at ≢ null_ptr }
    ensures open { guard.new.at ≢ null_ptr }
    ensures made { MakesGiven guard.old.value guard.new.value actor (IsUnclogOf key value.now)
        (NoTarget key value.now) result reply.new }
{
    let given = unclog_of(key, value);
    make_given(guard, actor, given, reply)
}
