//! Acts made by numbers, and what is told of each.
ghost use Rattle.std.specs.Prelude.{◌≡◌, ◌≢◌, IfOk, IfErr};
ghost use Rattle.std.specs.Ptr.{null_ptr};
ghost use Rattle.fy_c.specs.Making.{Makes, refused_by, reply_told, nothing_told};
ghost use Rattle.fy_c.specs.Statuses.{number};

use crate::entering::{apply, refusal_number, status_of};
use crate::handle::FyGuard;
use crate::numbers::{bit, named_by, rule_number};
use crate::status::Status;
use fy_acts::{Act, Refusal, Reply};
use fy_cluster::Fault;

/// What is told of an act. What an act doesn't tell is 0.
#[repr(C)]
#[derive(Clone, Copy, PartialEq, Eq)]
pub struct FyReply {
    /// Why it is refused, from 1; 0 where it isn't.
    pub refusal: u32,
    /// The rule that bars a clog or the end of one, from 1; 0 where none does.
    pub rule: u32,
    /// The process or the policy that the rule names; the policy or the record that the refusal
    /// names.
    pub named: u64,
    /// The team that was formed.
    pub team: u32,
    /// The record that was begun.
    pub rec: u32,
    /// The first message that was sent.
    pub message: u64,
    /// How many writes were synced.
    pub synced: u64,
    /// The time now, in ticks.
    pub now: u64,
    /// 1 where the message that was delivered was an acknowledgement.
    pub marked: u32,
    /// 1 where the record is acknowledged by it.
    pub acked: u32,
}

/// Nothing to tell.
pub(crate) const NOTHING_TOLD: FyReply = FyReply {
    refusal: 0,
    rule: 0,
    named: 0,
    team: 0,
    rec: 0,
    message: 0,
    synced: 0,
    now: 0,
    marked: 0,
    acked: 0,
};

/// The policy or the record that a refusal names, 0 where it names none.
fn refused_by(refusal: Refusal) -> u64
    ensures { result ≡ refused_by refusal }
{
    match refusal {
        Refusal::TeamShort { policy } => u64::from(policy),
        Refusal::StillNeeds { rec } => u64::from(rec),
        _ => 0,
    }
}

/// What is told of an answer.
fn reply_told(answer: Result<Reply, Fault>) -> FyReply
    ensures { result ≡ reply_told answer }
{
    let mut told = NOTHING_TOLD;
    match answer {
        Ok(Reply::Ruled { rule }) => {
            told.rule = rule_number(rule);
            told.named = named_by(rule);
        }
        Ok(Reply::Formed { team }) => told.team = team,
        Ok(Reply::Begun { rec, first }) => {
            told.rec = rec;
            told.message = first;
        }
        Ok(Reply::Marked { acked }) => {
            told.marked = 1;
            told.acked = bit(acked, 1);
        }
        Ok(Reply::Sent { message }) => told.message = message,
        Ok(Reply::Synced { first, count }) => {
            told.message = first;
            told.synced = u64::from(count);
        }
        Ok(Reply::Time { now }) => told.now = now,
        Ok(Reply::No(refusal)) => {
            told.refusal = refusal_number(refusal);
            told.named = refused_by(refusal);
        }
        Ok(Reply::Verdict(_)) | Ok(Reply::Stored) | Ok(Reply::Done) | Err(_) => {}
    }
    told
}

/// Makes an act by an actor, and tells what became of it.
///
/// # Errors
///
/// `Refused`, and the act stands in the journal all the same; `JournalFull` and `NoMemory`, in this
/// order, where nothing changed.
pub(crate) fn make(guard: &mut FyGuard, actor: u32, act: Act, reply: &mut FyReply) -> u32
    requires { guard.old.at ≢ null_ptr }
    ensures open { guard.new.at ≢ null_ptr }
    ensures made { Makes guard.old.value guard.new.value actor act result reply.new }
{
    let answer = apply(guard, actor, act);
    *reply = reply_told(answer);
    status_of(answer).number()
}

/// Makes an act where one is given, and tells what became of it.
///
/// # Errors
///
/// The status in the place of an act: nothing changed then. Else as of `make`.
pub(crate) fn make_given(
    guard: &mut FyGuard,
    actor: u32,
    given: Result<Act, Status>,
    reply: &mut FyReply,
) -> u32
    requires { guard.old.at ≢ null_ptr }
    ensures open { guard.new.at ≢ null_ptr }
    ensures given { IfOk given (λ act. Makes guard.old.value guard.new.value actor act
        result reply.new) }
    ensures not_given { IfErr given (λ status. (result ≡ number status)
        × (guard.new.value ≡ guard.old.value) × (reply.new ≡ nothing_told)) }
{
    match given {
        Ok(act) => make(guard, actor, act, reply),
        Err(status) => {
            *reply = NOTHING_TOLD;
            status.number()
        }
    }
}
