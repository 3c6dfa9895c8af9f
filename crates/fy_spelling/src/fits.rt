//! The bounds that the types of acts, replies and entries set, shown for the proof, and the one
//! that is tested. But for that test the functions do nothing, and the compiler leaves nothing of
//! them.
ghost use Rattle.std.specs.Prelude.{◌↔◌, IsTrue, true};
ghost use Rattle.std.specs.List.{AllByRecursion};
ghost use Rattle.fy_spelling.specs.Fits.{IsU32, IsU64, IsByte, IsProcess, FitsTarget, FitsScope, FitsMembers, FitsAct, FitsRule, FitsRefusal, FitsReply};
ghost use Rattle.fy_spelling.specs.Representable.{IsRepresentableRule, IsRepresentableReply, IsRepresentable};

use crate::{Act, Entry, Refusal, Reply};
use fy_disk::Payload;
use fy_grants::Scope;
use fy_kinds::{Rule, Target};
use fy_locality::ProcId;
use fy_team::Members;

/// Shows that a number is below its bound of 32 bits.
pub(crate) fn u32_fits(_n: u32)
    ensures { IsU32 _n }
{}

/// Shows that a number is below its bound of 64 bits.
fn u64_fits(_n: u64)
    ensures { IsU64 _n }
{}

/// Shows that a process's number fits.
fn process_fits(p: ProcId)
    ensures { IsProcess p }
{
    u32_fits(p.0);
}

/// Shows that a target's value is a name.
fn target_fits(target: &Target)
    ensures { FitsTarget target.now }
{
    let _bytes = target.value.as_bytes();
}

/// Shows that a scope fits.
fn scope_fits(scope: &Scope)
    ensures { FitsScope scope.now }
{
    match scope {
        Scope::All => {}
        Scope::Where(target) => target_fits(target),
    }
}

/// Shows that the numbers of processes fit.
fn processes_fit(processes: &[ProcId])
    ensures { AllByRecursion IsProcess processes.now }
{
    for &p in processes {
        process_fits(p);
    }
}

/// Shows that members fit.
fn members_fit(members: &Members)
    ensures { FitsMembers members.now }
{
    fy_team::laws::members_are_tested();
    processes_fit(members.as_slice());
}

/// Shows that bytes are below 256.
fn bytes_fit(bytes: &[u8])
    ensures { AllByRecursion IsByte bytes.now }
{
    for &byte in bytes {
        let _byte = byte;
    }
}

/// Shows that the bytes of a payload fit.
fn payload_fits(payload: &Payload)
    ensures { AllByRecursion IsByte payload.now }
{
    bytes_fit(payload.bytes());
}

/// Shows that a target and a number fit.
fn aim_fits(target: &Target, number: u64)
    ensures { FitsTarget target.now × IsU64 number }
{
    target_fits(target);
    u64_fits(number);
}

/// Shows that two numbers of 32 bits fit.
fn shorts_fit(first: u32, second: u32)
    ensures { IsU32 first × IsU32 second }
{
    u32_fits(first);
    u32_fits(second);
}

/// Shows that a record and a process fit.
fn copy_fits(rec: u32, process: ProcId)
    ensures { IsU32 rec × IsProcess process }
{
    u32_fits(rec);
    process_fits(process);
}

/// The numbers, names and members of an act fit.
pub fn act_fits(act: &Act)
    ensures { FitsAct act.now }
{
    match act {
        Act::Kill { order } => aim_fits(&order.target(), order.tear()),
        Act::Clog { target, ticks } => aim_fits(target, *ticks),
        Act::Unclog { target } => target_fits(target),
        Act::Form { members, policy } => {
            members_fit(members);
            u32_fits(*policy);
        }
        Act::Begin { team, payload } => {
            u32_fits(*team);
            payload_fits(payload);
        }
        Act::Deliver { message } | Act::Lose { message } => u64_fits(*message),
        Act::Tick { ticks } => u64_fits(*ticks),
        Act::Resend { rec, process } => copy_fits(*rec, *process),
        Act::Sync { process } | Act::Up { process } | Act::Heal { process } => {
            process_fits(*process)
        }
        Act::Give { grant } => {
            u32_fits(grant.actor);
            scope_fits(&grant.scope);
        }
        Act::Take { actor, index } => shorts_fit(*actor, *index),
        Act::Protect { process, kinds: _ } | Act::Unprotect { process, kinds: _ } => {
            process_fits(*process)
        }
        Act::CopyTo { from, rec, to } => {
            process_fits(*from);
            copy_fits(*rec, *to);
        }
        Act::Replace { team, out, into } => {
            copy_fits(*team, *out);
            process_fits(*into);
        }
    }
}

/// Shows that a rule fits, but for the number of its policy, which may have 64 bits.
fn rule_is_held(rule: Option<Rule>)
    ensures { IsRepresentableRule rule }
{
    match rule {
        None | Some(Rule::NoTarget) => {}
        Some(Rule::NoGrant { process }) | Some(Rule::Protected { process }) => {
            process_fits(process);
        }
        Some(Rule::TooManyDestroyed { policy }) | Some(Rule::TooFewLeft { policy }) => {
            u64_fits(policy as u64);
        }
    }
}

/// Shows that a refusal fits.
fn refusal_fits(refusal: Refusal)
    ensures { FitsRefusal refusal }
{
    match refusal {
        Refusal::TeamShort { policy } => u32_fits(policy),
        Refusal::StillNeeds { rec } => u32_fits(rec),
        _ => {}
    }
}

/// The numbers of a reply fit, but for the policy of a rule, which may have 64 bits.
pub fn reply_is_representable(reply: &Reply)
    ensures { IsRepresentableReply reply.now }
{
    match reply {
        Reply::Verdict(verdict) => rule_is_held(verdict.rule),
        Reply::Ruled { rule } => rule_is_held(*rule),
        Reply::Formed { team } => u32_fits(*team),
        Reply::Begun { rec, first } => {
            u32_fits(*rec);
            u64_fits(*first);
        }
        Reply::Stored | Reply::Done => {}
        Reply::Marked { acked: _ } => {}
        Reply::Sent { message } => u64_fits(*message),
        Reply::Synced { first, count } => {
            u64_fits(*first);
            u32_fits(*count);
        }
        Reply::Time { now } => u64_fits(*now),
        Reply::No(refusal) => refusal_fits(*refusal),
    }
}

/// Whether the number of a rule's policy fits: its type has 64 bits.
fn rule_fits(rule: Option<Rule>) -> bool
    ensures { IsTrue result ↔ FitsRule rule }
{
    match rule {
        None | Some(Rule::NoTarget) => true,
        Some(Rule::NoGrant { process }) | Some(Rule::Protected { process }) => {
            process_fits(process);
            true
        }
        Some(Rule::TooManyDestroyed { policy }) | Some(Rule::TooFewLeft { policy }) => {
            u32::try_from(policy).is_ok()
        }
    }
}

/// Whether the numbers of a reply fit.
pub(crate) fn reply_fits(reply: &Reply) -> bool
    ensures { IsTrue result ↔ FitsReply reply.now }
{
    match reply {
        Reply::Verdict(verdict) => rule_fits(verdict.rule),
        Reply::Ruled { rule } => rule_fits(*rule),
        reply => {
            reply_is_representable(reply);
            true
        }
    }
}

/// The numbers, names and members of an entry fit, but for the policy of a rule, which may have 64
/// bits.
pub fn entry_is_representable(entry: &Entry)
    ensures { IsRepresentable entry.now }
{
    u32_fits(entry.at);
    u32_fits(entry.by);
    act_fits(&entry.act);
    reply_is_representable(&entry.reply);
}
