//! Acts applied to the cluster of a guard: a process started, and one healed.
ghost use Rattle.std.specs.Prelude.{◌≡◌, ◌≢◌};
ghost use Rattle.std.specs.Ptr.{null_ptr};
ghost use Rattle.fy_acts.specs.declared.act.Act.TheVariants.{Up, Heal};
ghost use Rattle.fy_c.specs.Entering.{Applies, Enters, IsMissing, status_of, refusal_of};
ghost use Rattle.fy_c.specs.Numbers.{refusal_number};

use crate::handle::FyGuard;
use crate::status::Status;
use fy_acts::{Act, Refusal, Reply};
use fy_cluster::Fault;
use fy_locality::ProcId;

/// Applies an act by an actor to the cluster of an open guard.
///
/// # Errors
///
/// In order: `JournalFull`, `NoMemory`. The cluster is then as it was.
pub(crate) fn apply(guard: &mut FyGuard, by: u32, act: Act) -> Result<Reply, Fault>
    requires { guard.old.at ≢ null_ptr }
    ensures open { guard.new.at ≢ null_ptr }
    ensures applied { Applies guard.old.value guard.new.value by act result }
{
    guard.cluster().apply(by, act)
}

/// The status of an act.
pub(crate) fn status_of(answer: Result<Reply, Fault>) -> Status
    ensures { result ≡ status_of answer }
{
    match answer {
        Ok(Reply::No(_)) => Status::Refused,
        Ok(_) => Status::Done,
        Err(fault) => Status::from(fault),
    }
}

/// The number by which C knows a refusal.
pub(crate) fn refusal_number(refusal: Refusal) -> u32
    ensures { result ≡ refusal_number refusal }
{
    match refusal {
        Refusal::Stranger => 1,
        Refusal::WrongRole => 2,
        Refusal::TooMany => 3,
        Refusal::NoPolicy => 4,
        Refusal::NoProcess => 5,
        Refusal::Gone => 6,
        Refusal::TeamShort { .. } => 7,
        Refusal::NoTeam => 8,
        Refusal::Payload => 9,
        Refusal::NetFull => 10,
        Refusal::NoMessage => 11,
        Refusal::Clogged => 12,
        Refusal::NotUp => 13,
        Refusal::NoRecord => 14,
        Refusal::NotMember => 15,
        Refusal::Acked => 16,
        Refusal::IsUp => 17,
        Refusal::ClockEnd => 18,
        Refusal::NoActor => 19,
        Refusal::Full => 20,
        Refusal::NoSuch => 21,
        Refusal::NoCopy => 22,
        Refusal::IsMember => 23,
        Refusal::NotDestroyed => 24,
        Refusal::StillNeeds { .. } => 25,
    }
}

/// Why an act is refused; 0 where it isn't.
fn refusal_of(answer: Result<Reply, Fault>) -> u32
    ensures { result ≡ refusal_of answer }
{
    match answer {
        Ok(Reply::No(refusal)) => refusal_number(refusal),
        _ => 0,
    }
}

/// Applies an act by an actor. Why it is refused goes to `refusal`, or 0.
///
/// # Errors
///
/// `Refused`, and the act stands in the journal all the same; `JournalFull` and `NoMemory`, in this
/// order, where nothing changed.
fn enter(guard: &mut FyGuard, actor: u32, act: Act, refusal: &mut u32) -> u32
    requires { guard.old.at ≢ null_ptr }
    ensures open { guard.new.at ≢ null_ptr }
    ensures entered { Enters guard.old.value guard.new.value actor act result refusal.new }
{
    let answer = apply(guard, actor, act);
    *refusal = refusal_of(answer);
    status_of(answer).number()
}

/// Applies `Up`: the process runs again. Why it is refused goes to `refusal`, or 0.
///
/// # Errors
///
/// `Refused`, and the act stands in the journal all the same; `JournalFull` and `NoMemory`, in this
/// order, where nothing changed.
#[unsafe(no_mangle)]
pub extern "C" fn fy_up(guard: &mut FyGuard, actor: u32, process: u32, refusal: &mut u32) -> u32
    requires { guard.old.at ≢ null_ptr }
    ensures open { guard.new.at ≢ null_ptr }
    ensures entered { Enters guard.old.value guard.new.value actor (Up (record { 0 = process }))
        result refusal.new }
{
    let process = ProcId(process);
    enter(guard, actor, Act::Up { process }, refusal)
}

/// Applies `Heal`: the process has every acknowledged record on its disk again. Why it is refused
/// goes to `refusal`, or 0. After 25, `StillNeeds`, `fy_needed` answers the record that the refusal
/// names.
///
/// # Errors
///
/// `Refused`, and the act stands in the journal all the same; `JournalFull` and `NoMemory`, in this
/// order, where nothing changed.
#[unsafe(no_mangle)]
pub extern "C" fn fy_heal(guard: &mut FyGuard, actor: u32, process: u32, refusal: &mut u32) -> u32
    requires { guard.old.at ≢ null_ptr }
    ensures open { guard.new.at ≢ null_ptr }
    ensures entered { Enters guard.old.value guard.new.value actor (Heal (record { 0 = process }))
        result refusal.new }
    ensures missing { refusal.new ≡ 25 →
        IsMissing guard.old.value guard.new.value actor process }
{
    let process = ProcId(process);
    enter(guard, actor, Act::Heal { process }, refusal)
}
