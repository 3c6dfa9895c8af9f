//! Sets of processes: who is up, left, gone or destroyed, and whom a target means.
ghost use Rattle.std.specs.Prelude.{◌≡◌, ◌≢◌, ℕ, length, IfOk, IfErr, if◌then◌else◌};
ghost use Rattle.std.specs.Ptr.{null_ptr};
ghost use Rattle.std.specs.FinSet as sets;
ghost use Rattle.fy_cluster.specs.Execution.{history_of};
ghost use Rattle.fy_cluster.specs.History.{destroyed};
ghost use Rattle.fy_c.specs.Sets.{AreBitsOf, left_in, up_in, destroyed_in, gone_in, targets_in, IsTargetOf, NoTarget, Targets};
ghost use Rattle.fy_c.specs.Statuses.{Answers, ending};

use crate::handle::FyGuard;
use crate::numbers::key_of;
use crate::status::{Status, number_of};
use fy_cluster::Cluster;
use fy_kinds::Target;
use fy_locality::{Name, ProcId, ProcSet, SET_WORDS};

/// Writes a set to as many words as it has.
fn write_set(set: &ProcSet, words: &mut [u64])
    requires { length words.old ≡ SET_WORDS }
    ensures { AreBitsOf words.new (sets.contains set.now) }
{
    words.copy_from_slice(&set.words());
}

/// Whether a process with any number is destroyed: struck by a kind that destroys, and not healed
/// since. 1 where it is, and else 0.
#[unsafe(no_mangle)]
pub extern "C" fn fy_is_destroyed(guard: &mut FyGuard, process: u32) -> u32
    requires { guard.old.at ≢ null_ptr }
    ensures kept { guard.new.value ≡ guard.old.value }
    ensures place { guard.new.at ≡ guard.old.at }
    ensures told { result ≡ (if destroyed (history_of guard.old.value) process then 1 else 0) }
{
    if guard.cluster().destroyed().contains(ProcId(process)) {
        1
    } else {
        0
    }
}

/// Writes who is left to 16 words of 64 bits: bit p % 64 of word p / 64 is 1 where there is a
/// process p and it isn't gone for good, and else 0.
#[unsafe(no_mangle)]
pub extern "C" fn fy_left(guard: &mut FyGuard, set: &mut [u64])
    requires open { guard.old.at ≢ null_ptr }
    requires room { length set.old ≡ SET_WORDS }
    ensures kept { guard.new.value ≡ guard.old.value }
    ensures place { guard.new.at ≡ guard.old.at }
    ensures told { AreBitsOf set.new (left_in guard.old.value) }
{
    write_set(&guard.cluster().left(), set);
}

/// Writes who is up, as `fy_left` writes who is left.
#[unsafe(no_mangle)]
pub extern "C" fn fy_up_set(guard: &mut FyGuard, set: &mut [u64])
    requires open { guard.old.at ≢ null_ptr }
    requires room { length set.old ≡ SET_WORDS }
    ensures kept { guard.new.value ≡ guard.old.value }
    ensures place { guard.new.at ≡ guard.old.at }
    ensures told { AreBitsOf set.new (up_in guard.old.value) }
{
    write_set(&guard.cluster().up(), set);
}

/// Writes who is destroyed, as `fy_left` writes who is left.
#[unsafe(no_mangle)]
pub extern "C" fn fy_destroyed_set(guard: &mut FyGuard, set: &mut [u64])
    requires open { guard.old.at ≢ null_ptr }
    requires room { length set.old ≡ SET_WORDS }
    ensures kept { guard.new.value ≡ guard.old.value }
    ensures place { guard.new.at ≡ guard.old.at }
    ensures told { AreBitsOf set.new (destroyed_in guard.old.value) }
{
    write_set(&guard.cluster().destroyed(), set);
}

/// The processes that are gone for good.
pub(crate) fn gone(cluster: &Cluster) -> ProcSet
    ensures { (p : ℕ) → sets.contains result p ≡ gone_in cluster.now p }
{
    cluster
        .config()
        .map()
        .everyone()
        .difference(&cluster.left())
}

/// Writes who is gone for good, as `fy_left` writes who is left.
#[unsafe(no_mangle)]
pub extern "C" fn fy_gone_set(guard: &mut FyGuard, set: &mut [u64])
    requires open { guard.old.at ≢ null_ptr }
    requires room { length set.old ≡ SET_WORDS }
    ensures kept { guard.new.value ≡ guard.old.value }
    ensures place { guard.new.at ≡ guard.old.at }
    ensures told { AreBitsOf set.new (gone_in guard.old.value) }
{
    write_set(&gone(guard.cluster()), set);
}

/// The target that a program in C gives, by a key's number and a name's bytes.
///
/// # Errors
///
/// In order: `Argument` where the number is that of no key; `Name` where the bytes are no name.
pub(crate) fn target_of(key: u32, value: &[u8]) -> Result<Target, Status>
    ensures target { IfOk result (IsTargetOf key value.now) }
    ensures none { IfErr result (NoTarget key value.now) }
{
    let Some(key) = key_of(key) else {
        return Err(Status::Argument);
    };
    let Ok(value) = Name::from_bytes(value) else {
        return Err(Status::Name);
    };
    Ok(Target { key, value })
}

/// The processes left that have the target's value of its key.
fn found(cluster: &Cluster, target: &Target) -> ProcSet
    ensures { (p : ℕ) → sets.contains result p ≡ targets_in cluster.now target.now p }
{
    cluster
        .config()
        .map()
        .members(target.key, &target.value)
        .intersection(&cluster.left())
}

/// Writes the processes that a target by numbers means.
///
/// # Errors
///
/// In order: `Argument` where the number is that of no key; `Name` where the bytes are no name.
fn write_targets(cluster: &Cluster, key: u32, value: &[u8], set: &mut [u64]) -> Result<(), Status>
    requires { length set.old ≡ SET_WORDS }
    ensures { Targets cluster.now key value.now set.old set.new (ending result) }
{
    let target = target_of(key, value)?;
    write_set(&found(cluster, &target), set);
    Ok(())
}

/// Writes whom a kill of this key and value would be about, as `fy_left` writes who is left: those
/// of its value that aren't gone for good.
///
/// # Errors
///
/// In order: `Argument` where the number is that of no key; `Name` where the value is no name.
/// Nothing is written then.
#[unsafe(no_mangle)]
pub extern "C" fn fy_targets(guard: &mut FyGuard, key: u32, value: &[u8], set: &mut [u64]) -> u32
    requires open { guard.old.at ≢ null_ptr }
    requires room { length set.old ≡ SET_WORDS }
    ensures kept { guard.new.value ≡ guard.old.value }
    ensures place { guard.new.at ≡ guard.old.at }
    ensures told { Answers result
        (Targets guard.old.value key value.now set.old set.new) }
{
    number_of(write_targets(guard.cluster(), key, value, set))
}
