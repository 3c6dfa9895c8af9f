//! What one entry did, read off its act and its reply. A function that answers an `Option` answers
//! `None` where the entry's act is another one, or was not done.
ghost use Rattle.std.specs.Prelude.{◌≡◌, ℕ, false, option_map};
ghost use Rattle.std.specs.Option.{option_map_or};
ghost use Rattle.fy_decide.specs.Verdicts.{targets};
ghost use Rattle.fy_cluster.specs.Setup.{Setup};
ghost use Rattle.fy_cluster.specs.History.{History, left, targets_of, is_accepted, struck_by, tear_of, clogs, unclogs, delivers, syncs, ups, ticks, gives, takes_grant, protects, unprotects, heals};

use fy_acts::{Act, Entry, Reply};
use fy_grants::Grant;
use fy_kinds::{Kind, KindSet, Target};
use fy_locality::ProcId;

/// Whether an act with this reply was done: the reply is not `No`, and names no rule against a
/// clog.
pub fn is_accepted(reply: Reply) -> bool
    ensures { result ≡ is_accepted reply }
{
    match reply {
        Reply::No(_) => false,
        Reply::Ruled { rule } => rule.is_none(),
        _ => true,
    }
}

/// The target that an act names: that of a kill, a clog or an unclog, whatever its reply.
pub fn target_of(act: &Act) -> Option<Target>
    ensures { (c : Setup) (h : History) (p : ℕ) → targets_of c h act.now p
        ≡ option_map_or (λ target. targets c.processes (left c h) target p) result false }
{
    match *act {
        Act::Kill { order } => Some(order.target()),
        Act::Clog { target, .. } => Some(target),
        Act::Unclog { target } => Some(target),
        _ => None,
    }
}

/// The kind by which a kill struck.
pub fn struck_by(entry: &Entry) -> Option<Kind>
    ensures { result ≡ struck_by entry.now.act entry.now.reply }
{
    if let Act::Kill { .. } = entry.act
        && let Reply::Verdict(verdict) = entry.reply
    {
        verdict.struck
    } else {
        None
    }
}

/// The bits of a kill's order that say which unsynced writes outlive a reboot; 0 for another act.
pub fn tear_of(entry: &Entry) -> u64
    ensures { result ≡ tear_of entry.now.act }
{
    match entry.act {
        Act::Kill { order } => order.tear(),
        _ => 0,
    }
}

/// For how many ticks it clogs.
pub fn clogs(entry: &Entry) -> Option<u64>
    ensures { result ≡ clogs entry.now.act entry.now.reply }
{
    if let Act::Clog { ticks, .. } = entry.act
        && is_accepted(entry.reply)
    {
        Some(ticks)
    } else {
        None
    }
}

/// The target whose clogs it ends.
pub fn unclogs(entry: &Entry) -> Option<Target>
    ensures { result ≡ unclogs entry.now.act entry.now.reply }
{
    if let Act::Unclog { target } = entry.act
        && is_accepted(entry.reply)
    {
        Some(target)
    } else {
        None
    }
}

/// The number of the message that it delivers.
pub fn delivers(entry: &Entry) -> Option<u64>
    ensures { result ≡ delivers entry.now.act entry.now.reply }
{
    if let Act::Deliver { message } = entry.act
        && is_accepted(entry.reply)
    {
        Some(message)
    } else {
        None
    }
}

/// The process that it syncs.
pub fn syncs(entry: &Entry) -> Option<ProcId>
    ensures { option_map (λ p. p.0) result ≡ syncs entry.now.act entry.now.reply }
{
    if let Act::Sync { process } = entry.act
        && is_accepted(entry.reply)
    {
        Some(process)
    } else {
        None
    }
}

/// The process that it starts.
pub fn ups(entry: &Entry) -> Option<ProcId>
    ensures { option_map (λ p. p.0) result ≡ ups entry.now.act entry.now.reply }
{
    if let Act::Up { process } = entry.act
        && is_accepted(entry.reply)
    {
        Some(process)
    } else {
        None
    }
}

/// How many ticks it lets pass.
pub fn ticks(entry: &Entry) -> Option<u64>
    ensures { result ≡ ticks entry.now.act entry.now.reply }
{
    if let Act::Tick { ticks } = entry.act
        && is_accepted(entry.reply)
    {
        Some(ticks)
    } else {
        None
    }
}

/// The grant that it gives.
pub fn gives(entry: &Entry) -> Option<Grant>
    ensures { result ≡ gives entry.now.act entry.now.reply }
{
    if let Act::Give { grant } = entry.act
        && is_accepted(entry.reply)
    {
        Some(grant)
    } else {
        None
    }
}

/// The actor and the index of the grant that it takes away.
pub fn takes_grant(entry: &Entry) -> Option<(u32, u32)>
    ensures { result ≡ takes_grant entry.now.act entry.now.reply }
{
    if let Act::Take { actor, index } = entry.act
        && is_accepted(entry.reply)
    {
        Some((actor, index))
    } else {
        None
    }
}

/// The process that it protects, and from which kinds.
pub fn protects(entry: &Entry) -> Option<(ProcId, KindSet)>
    ensures { option_map (λ it. (it.0.0, it.1)) result ≡ protects entry.now.act entry.now.reply }
{
    if let Act::Protect { process, kinds } = entry.act
        && is_accepted(entry.reply)
    {
        Some((process, kinds))
    } else {
        None
    }
}

/// The process whose protection it ends, and from which kinds.
pub fn unprotects(entry: &Entry) -> Option<(ProcId, KindSet)>
    ensures { option_map (λ it. (it.0.0, it.1)) result
        ≡ unprotects entry.now.act entry.now.reply }
{
    if let Act::Unprotect { process, kinds } = entry.act
        && is_accepted(entry.reply)
    {
        Some((process, kinds))
    } else {
        None
    }
}

/// The process that it heals.
pub fn heals(entry: &Entry) -> Option<ProcId>
    ensures { option_map (λ p. p.0) result ≡ heals entry.now.act entry.now.reply }
{
    if let Act::Heal { process } = entry.act
        && is_accepted(entry.reply)
    {
        Some(process)
    } else {
        None
    }
}
