//! Teams formed and records begun, by numbers.
ghost use Rattle.std.specs.Prelude.{◌≡◌, ◌≢◌, ◌↔◌, IsTrue, IfOk, IfErr};
ghost use Rattle.std.specs.Ptr.{null_ptr};
ghost use Rattle.fy_team.specs.Members.{rises_from};
ghost use Rattle.fy_team.specs.Teams.{AreMembers};
ghost use Rattle.fy_acts.specs.declared.act.Act.TheVariants.{Replace};
ghost use Rattle.fy_c.specs.Making.{Makes, MakesGiven, processes, IsFormOf, NoForm, IsBeginOf, NoBegin};

use crate::handle::FyGuard;
use crate::making::{FyReply, make, make_given};
use crate::status::Status;
use fy_acts::Act;
use fy_cluster::Cluster;
use fy_disk::Payload;
use fy_locality::ProcId;
use fy_team::{MOST_MEMBERS, Members};
use std::alloc::{AllocError, Global};

/// How many bytes a payload may have: 32,000, so that the line of its entry has no more than
/// 65,536.
pub const MOST_PAYLOAD: usize = 32_000;

/// Whether each number is above the one before it.
fn rise(numbers: &[u32]) -> bool
    ensures { result ≡ rises_from 0 (processes numbers.now) }
{
    let mut low = 0u64;
    for &number in numbers {
        let number = u64::from(number);
        if number < low {
            return false;
        }
        low = number + 1;
    }
    true
}

/// Whether these are the numbers of members: few enough, and rising.
fn are_members(numbers: &[u32]) -> bool
    ensures { IsTrue result ↔ AreMembers (processes numbers.now) }
{
    fy_team::laws::members_are_tested();
    numbers.len() <= MOST_MEMBERS && rise(numbers)
}

/// The processes with these numbers.
fn processes(alloc: Global, numbers: &[u32]) -> Result<Vec<ProcId>, AllocError>
    ensures { IfOk result (λ found. found.items ≡ processes numbers.now) }
{
    numbers.iter().map(|number| ProcId(*number)).collect(alloc)
}

/// The form of a team by numbers.
///
/// # Errors
///
/// In order: `Argument` where the numbers don't rise, or are more than 1024; `JournalFull`;
/// `NoMemory`.
fn form_of(alloc: Global, cluster: &Cluster, members: &[u32], policy: u32) -> Result<Act, Status>
    ensures given { IfOk result (IsFormOf members.now policy) }
    ensures not_given { IfErr result (NoForm cluster.now members.now) }
{
    if !are_members(members) {
        return Err(Status::Argument);
    }
    if cluster.is_full() {
        return Err(Status::JournalFull);
    }
    let found = processes(alloc, members)?;
    match Members::from_vec(found) {
        Ok(members) => Ok(Act::Form { members, policy }),
        Err(_) => unreachable!(),
    }
}

/// The begin of a record by numbers.
///
/// # Errors
///
/// In order: `Argument` where the payload has more than 32,000 bytes; `JournalFull`; `NoMemory`.
fn begin_of(alloc: Global, cluster: &Cluster, team: u32, payload: &[u8]) -> Result<Act, Status>
    ensures given { IfOk result (IsBeginOf team payload.now) }
    ensures not_given { IfErr result (NoBegin cluster.now payload.now) }
{
    if payload.len() > MOST_PAYLOAD {
        return Err(Status::Argument);
    }
    if cluster.is_full() {
        return Err(Status::JournalFull);
    }
    let payload = Payload::make(alloc, payload)?;
    Ok(Act::Begin { team, payload })
}

/// Forms a team of the processes with these numbers, which rise, under a policy. The team's number
/// goes to the reply.
///
/// # Errors
///
/// In order: `Argument` where the numbers don't rise, or are more than 1024; `JournalFull`;
/// `NoMemory`: nothing changed then. `Refused`, and the act stands in the journal all the same.
#[unsafe(no_mangle)]
pub extern "C" fn fy_form(
    alloc: Global,
    guard: &mut FyGuard,
    actor: u32,
    members: &[u32],
    policy: u32,
    reply: &mut FyReply,
) -> u32
    requires { guard.old.at ≢ null_ptr }
    ensures open { guard.new.at ≢ null_ptr }
    ensures made { MakesGiven guard.old.value guard.new.value actor (IsFormOf members.now policy)
        (NoForm guard.old.value members.now) result reply.new }
{
    let given = form_of(alloc, guard.cluster(), members, policy);
    make_given(guard, actor, given, reply)
}

/// Begins a record for a team, and sends a store message to each member. The record's number and
/// that of its first message go to the reply.
///
/// # Errors
///
/// In order: `Argument` where the payload has more than 32,000 bytes; `JournalFull`; `NoMemory`:
/// nothing changed then. `Refused`, also for more than 256 bytes, and the act stands in the journal
/// all the same.
#[unsafe(no_mangle)]
pub extern "C" fn fy_begin(
    alloc: Global,
    guard: &mut FyGuard,
    actor: u32,
    team: u32,
    payload: &[u8],
    reply: &mut FyReply,
) -> u32
    requires { guard.old.at ≢ null_ptr }
    ensures open { guard.new.at ≢ null_ptr }
    ensures made { MakesGiven guard.old.value guard.new.value actor (IsBeginOf team payload.now)
        (NoBegin guard.old.value payload.now) result reply.new }
{
    let given = begin_of(alloc, guard.cluster(), team, payload);
    make_given(guard, actor, given, reply)
}

/// Puts a process into a team in the place of a member.
///
/// # Errors
///
/// `Refused`, and the act stands in the journal all the same; `JournalFull` and `NoMemory`, in this
/// order, where nothing changed.
#[unsafe(no_mangle)]
pub extern "C" fn fy_replace(
    guard: &mut FyGuard,
    actor: u32,
    team: u32,
    out: u32,
    into: u32,
    reply: &mut FyReply,
) -> u32
    requires { guard.old.at ≢ null_ptr }
    ensures open { guard.new.at ≢ null_ptr }
    ensures made { Makes guard.old.value guard.new.value actor
        (Replace team (record { 0 = out }) (record { 0 = into })) result reply.new }
{
    let (out, into) = (ProcId(out), ProcId(into));
    make(guard, actor, Act::Replace { team, out, into }, reply)
}
