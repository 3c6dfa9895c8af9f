//! Grants and protections, by numbers.
ghost use Rattle.std.specs.Prelude.{◌≡◌, ◌≢◌, IfOk, IfErr, if◌then◌else◌};
ghost use Rattle.std.specs.Ptr.{null_ptr};
ghost use Rattle.fy_kinds.specs.Kinds.{bits_of, no_deed};
ghost use Rattle.fy_acts.specs.declared.act.Act.TheVariants.{Take};
ghost use Rattle.fy_c.specs.Making.{Makes, MakesGiven, NoKinds, IsScopeOf, IsGiveOf, NoGive, IsProtectOf, IsUnprotectOf};
ghost use Rattle.fy_c.specs.Sets.{NoTarget};

use crate::handle::FyGuard;
use crate::making::{FyReply, make, make_given};
use crate::sets::target_of;
use crate::status::Status;
use fy_acts::Act;
use fy_grants::{Grant, Scope};
use fy_kinds::{Kind, KindSet};
use fy_locality::ProcId;

/// The number for every process, in the place of a key.
pub const EVERYONE: u32 = 0;

/// A set of kinds where it is asked for, and else the empty one.
fn asked(is: bool, kinds: KindSet) -> KindSet
    ensures { result ≡ (if is then kinds else no_deed) }
{
    if is { kinds } else { KindSet::empty() }
}

/// The set of kinds that a program in C gives by its bits.
///
/// # Errors
///
/// `Argument` where a bit is that of no kind.
fn kinds_of(bits: u32) -> Result<KindSet, Status>
    ensures kinds { IfOk result (λ kinds. bits ≡ bits_of kinds) }
    ensures none { IfErr result (NoKinds bits) }
{
    if bits >= 32 {
        return Err(Status::Argument);
    }
    let mild = asked(bits % 2 == 1, KindSet::of(Kind::RebootProcess));
    let reboot = asked(bits / 2 % 2 == 1, KindSet::of(Kind::Reboot));
    let delete = asked(bits / 4 % 2 == 1, KindSet::of(Kind::RebootAndDelete));
    let kill = asked(bits / 8 % 2 == 1, KindSet::of(Kind::KillInstantly));
    let clog = asked(bits / 16 % 2 == 1, KindSet::of_clog());
    Ok(mild.union(reboot).union(delete).union(kill).union(clog))
}

/// The scope of a grant by numbers.
///
/// # Errors
///
/// In order: `Argument` where the number is neither `EVERYONE` nor that of a key; `Name` where the
/// bytes are no name.
fn scope_of(key: u32, value: &[u8]) -> Result<Scope, Status>
    ensures scope { IfOk result (IsScopeOf key value.now) }
    ensures no_key { IfErr result (NoTarget key value.now) }
    ensures not_everyone { IfErr result (λ _. key ≢ 0) }
{
    if key == EVERYONE {
        return Ok(Scope::All);
    }
    let target = target_of(key, value)?;
    Ok(Scope::Where(target))
}

/// A grant by numbers.
///
/// # Errors
///
/// In order: `Argument` where a bit is that of no kind, or the number neither `EVERYONE` nor that
/// of a key; `Name` where the bytes are no name.
fn give_of(actor: u32, kinds: u32, key: u32, value: &[u8]) -> Result<Act, Status>
    ensures given { IfOk result (IsGiveOf actor kinds key value.now) }
    ensures not_given { IfErr result (NoGive kinds key value.now) }
{
    let kinds = kinds_of(kinds)?;
    let scope = scope_of(key, value)?;
    Ok(Act::Give {
        grant: Grant {
            actor,
            kinds,
            scope,
        },
    })
}

/// A protection by numbers.
///
/// # Errors
///
/// `Argument` where a bit is that of no kind.
fn protect_of(process: u32, kinds: u32) -> Result<Act, Status>
    ensures given { IfOk result (IsProtectOf process kinds) }
    ensures not_given { IfErr result (NoKinds kinds) }
{
    let (process, kinds) = (ProcId(process), kinds_of(kinds)?);
    Ok(Act::Protect { process, kinds })
}

/// The end of a protection by numbers.
///
/// # Errors
///
/// As of `protect_of`.
fn unprotect_of(process: u32, kinds: u32) -> Result<Act, Status>
    ensures given { IfOk result (IsUnprotectOf process kinds) }
    ensures not_given { IfErr result (NoKinds kinds) }
{
    let (process, kinds) = (ProcId(process), kinds_of(kinds)?);
    Ok(Act::Unprotect { process, kinds })
}

/// Gives an actor a grant of kinds, by their bits, on the processes whose key has a value, or on
/// every process where the key's number is 0.
///
/// # Errors
///
/// In order: `Argument` where a bit is that of no kind, or the number neither 0 nor that of a key;
/// `Name` where the value is no name; `JournalFull`; `NoMemory`: nothing changed then. `Refused`,
/// and the act stands in the journal all the same.
#[unsafe(no_mangle)]
pub extern "C" fn fy_give(
    guard: &mut FyGuard,
    actor: u32,
    to: u32,
    kinds: u32,
    key: u32,
    value: &[u8],
    reply: &mut FyReply,
) -> u32
    requires { guard.old.at ≢ null_ptr }
    ensures open { guard.new.at ≢ null_ptr }
    ensures made { MakesGiven guard.old.value guard.new.value actor
        (IsGiveOf to kinds key value.now) (NoGive kinds key value.now) result reply.new }
{
    let given = give_of(to, kinds, key, value);
    make_given(guard, actor, given, reply)
}

/// Takes away the grant at a place, from 0, of an actor's list.
///
/// # Errors
///
/// `Refused`, and the act stands in the journal all the same; `JournalFull` and `NoMemory`, in this
/// order, where nothing changed.
#[unsafe(no_mangle)]
pub extern "C" fn fy_take(
    guard: &mut FyGuard,
    actor: u32,
    from: u32,
    index: u32,
    reply: &mut FyReply,
) -> u32
    requires { guard.old.at ≢ null_ptr }
    ensures open { guard.new.at ≢ null_ptr }
    ensures made { Makes guard.old.value guard.new.value actor (Take from index)
        result reply.new }
{
    let act = Act::Take { actor: from, index };
    make(guard, actor, act, reply)
}

/// Adds to the kinds from which a process is protected, by their bits.
///
/// # Errors
///
/// In order: `Argument` where a bit is that of no kind; `JournalFull`; `NoMemory`: nothing changed
/// then. `Refused`, and the act stands in the journal all the same.
#[unsafe(no_mangle)]
pub extern "C" fn fy_protect(
    guard: &mut FyGuard,
    actor: u32,
    process: u32,
    kinds: u32,
    reply: &mut FyReply,
) -> u32
    requires { guard.old.at ≢ null_ptr }
    ensures open { guard.new.at ≢ null_ptr }
    ensures made { MakesGiven guard.old.value guard.new.value actor (IsProtectOf process kinds)
        (NoKinds kinds) result reply.new }
{
    let given = protect_of(process, kinds);
    make_given(guard, actor, given, reply)
}

/// Takes out of the kinds from which a process is protected, by their bits.
///
/// # Errors
///
/// As of `fy_protect`.
#[unsafe(no_mangle)]
pub extern "C" fn fy_unprotect(
    guard: &mut FyGuard,
    actor: u32,
    process: u32,
    kinds: u32,
    reply: &mut FyReply,
) -> u32
    requires { guard.old.at ≢ null_ptr }
    ensures open { guard.new.at ≢ null_ptr }
    ensures made { MakesGiven guard.old.value guard.new.value actor (IsUnprotectOf process kinds)
        (NoKinds kinds) result reply.new }
{
    let given = unprotect_of(process, kinds);
    make_given(guard, actor, given, reply)
}
