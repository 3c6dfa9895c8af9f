//! What the cluster shows without an act: processes by name, their states, who keeps a record, and
//! what there is to do next.
ghost use Rattle.std.specs.Prelude.{◌≡◌, ◌≢◌, length, if◌then◌else◌};
ghost use Rattle.std.specs.Ptr.{null_ptr};
ghost use Rattle.fy_cluster.specs.Execution.{history_of};
ghost use Rattle.fy_cluster.specs.History.{acked, keeper};
ghost use Rattle.fy_cluster.specs.Sights.{status_of, needed_of};
ghost use Rattle.fy_c.specs.Asking.{Finds, Shows, told_seen};
ghost use Rattle.fy_c.specs.Numbers.{process_number, record_number, status_bits};

use crate::handle::FyGuard;
use crate::numbers::{NOBODY, message_number, process_number, record_number, status_bits};
use fy_cluster::Sight;
use fy_locality::{Map, Name, ProcId};

/// The number of the process with a name, where there is one.
fn numbered(map: &Map, name: &[u8]) -> u32
    ensures { Finds map.now name.now result }
{
    match Name::from_bytes(name) {
        Ok(name) => process_number(map.find(&name)),
        Err(_) => NOBODY,
    }
}

/// The number of the process with this name as its `processid`; 4,294,967,295 where there is none.
#[unsafe(no_mangle)]
pub extern "C" fn fy_process(guard: &mut FyGuard, name: &[u8]) -> u32
    requires { guard.old.at ≢ null_ptr }
    ensures kept { guard.new.value ≡ guard.old.value }
    ensures place { guard.new.at ≡ guard.old.at }
    ensures found { Finds guard.old.value.setup.processes name.now result }
{
    numbered(guard.cluster().config().map(), name)
}

/// How many processes there are. They are numbered from 0.
#[unsafe(no_mangle)]
pub extern "C" fn fy_process_count(guard: &mut FyGuard) -> u32
    requires { guard.old.at ≢ null_ptr }
    ensures kept { guard.new.value ≡ guard.old.value }
    ensures place { guard.new.at ≡ guard.old.at }
    ensures count { result ≡ length guard.old.value.setup.processes }
{
    guard.cluster().config().map().len()
}

/// Of an acknowledged record, the least member of its team that isn't destroyed and has the record
/// synced; 4,294,967,295 for any other record.
#[unsafe(no_mangle)]
pub extern "C" fn fy_keeper(guard: &mut FyGuard, rec: u32) -> u32
    requires { guard.old.at ≢ null_ptr }
    ensures kept { guard.new.value ≡ guard.old.value }
    ensures place { guard.new.at ≡ guard.old.at }
    ensures keeper { result ≡ process_number
        (keeper guard.old.value.setup (history_of guard.old.value) rec) }
{
    process_number(guard.cluster().keeper(rec))
}

/// Whether a record is acknowledged: 1 where it is, and else 0.
#[unsafe(no_mangle)]
pub extern "C" fn fy_is_acked(guard: &mut FyGuard, rec: u32) -> u32
    requires { guard.old.at ≢ null_ptr }
    ensures kept { guard.new.value ≡ guard.old.value }
    ensures place { guard.new.at ≡ guard.old.at }
    ensures acked { result ≡ (if acked (history_of guard.old.value) rec then 1 else 0) }
{
    match guard.cluster().keeper(rec) {
        Some(_) => 1,
        None => 0,
    }
}

/// The state of a process as bits: 1 where it is up, 2 where it is clogged, 4 where it is
/// destroyed, 8 where it is gone for good. 4,294,967,295 where there is no process with this
/// number.
#[unsafe(no_mangle)]
pub extern "C" fn fy_state(guard: &mut FyGuard, process: u32) -> u32
    requires { guard.old.at ≢ null_ptr }
    ensures kept { guard.new.value ≡ guard.old.value }
    ensures place { guard.new.at ≡ guard.old.at }
    ensures status { result ≡ status_bits
        (status_of guard.old.value.setup (history_of guard.old.value) process) }
{
    status_bits(guard.cluster().status(ProcId(process)))
}

/// The record that a process still needs before it may be healed: of its teams' records, the least
/// acknowledged one that it hasn't synced. 4,294,967,295 where there is none, or no process with
/// this number.
#[unsafe(no_mangle)]
pub extern "C" fn fy_needed(guard: &mut FyGuard, process: u32) -> u32
    requires { guard.old.at ≢ null_ptr }
    ensures kept { guard.new.value ≡ guard.old.value }
    ensures place { guard.new.at ≡ guard.old.at }
    ensures needed { result ≡ record_number
        (needed_of guard.old.value.setup (history_of guard.old.value) process) }
{
    record_number(guard.cluster().needed(ProcId(process)))
}

/// The time, and what there is to do next. A message is 18,446,744,073,709,551,615 where there is
/// none, and a process 4,294,967,295.
#[repr(C)]
#[derive(Drop)]
pub struct FySeen {
    /// The time, in ticks.
    pub now: u64,
    /// The least message that a `Deliver` would accept now.
    pub deliverable: u64,
    /// The least process that is up and has writes which it has not synced.
    pub unsynced: u32,
    /// The least process that is neither up nor gone.
    pub sleeping: u32,
}

/// What C is told of a sight.
fn told_seen(sight: Sight) -> FySeen
    ensures { result ≡ told_seen sight }
{
    FySeen {
        now: sight.now,
        deliverable: message_number(sight.deliverable),
        unsynced: process_number(sight.unsynced),
        sleeping: process_number(sight.sleeping),
    }
}

/// Writes the time, and what there is to do next: the least message to deliver, the least process
/// to sync and the least one to start.
#[unsafe(no_mangle)]
pub extern "C" fn fy_sight(guard: &mut FyGuard, seen: &mut FySeen)
    requires { guard.old.at ≢ null_ptr }
    ensures kept { guard.new.value ≡ guard.old.value }
    ensures place { guard.new.at ≡ guard.old.at }
    ensures shown { Shows guard.old.value seen.new }
{
    *seen = told_seen(guard.cluster().sight());
}

/// The three numbers of the library's version.
const VERSION: [u32; 3] = [2, 0, 0];

/// The library's version: 10,000 times its first number, 100 times the second, and the third.
#[unsafe(no_mangle)]
pub extern "C" fn fy_version() -> u32
    ensures { result ≡ 20000 }
{
    VERSION[0] * 10_000 + VERSION[1] * 100 + VERSION[2]
}
