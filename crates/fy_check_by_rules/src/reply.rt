//! The reply to an act, from what the entries before say.
ghost use Rattle.std.specs.Prelude.{◌≡◌, ◌≤◌, length, IfOk};
ghost use Rattle.fy_cluster.specs.declared.config.TheConstants.{MOST_JOURNAL_ENTRIES};
ghost use Rattle.fy_cluster.specs.Replies.{reply};
ghost use Rattle.fy_check_by_rules.specs.Past.{history_of};
ghost use Rattle.fy_check_by_rules.specs.Allowed.{allowed_reply};

mod clock;
mod kills;
mod processes;
mod records;
mod rights;
mod teams;

use crate::past::Past;
use crate::teams::Swap;
use clock::tick;
use fy_acts::{Act, Refusal, Reply};
use kills::{clog, kill, unclog};
use processes::{heal, start};
use records::{begin, copy, deliver, lose, resend, sync};
use rights::{give, protect, take, unprotect};
use std::alloc::AllocError;
use teams::{form, replace};

/// The reply to an act that its actor may make.
fn allowed_reply(before: &Past, by: u32, act: &Act) -> Result<Reply, AllocError>
    requires few { length before.now.steps.now ≤ MOST_JOURNAL_ENTRIES }
    ensures { IfOk result (λ answer. answer ≡ allowed_reply before.now by act.now) }
{
    match act {
        Act::Kill { order } => kill(before, by, order),
        Act::Clog { target, .. } => clog(before, by, target),
        Act::Unclog { target } => unclog(before, by, target),
        Act::Form { members, policy } => form(before, members, *policy),
        Act::Replace { team, out, into } => replace(
            before,
            Swap {
                team: *team,
                out: *out,
                into: *into,
            },
        ),
        Act::Begin { team, payload } => begin(before, *team, payload),
        Act::Deliver { message } => deliver(before, *message),
        Act::Lose { message } => lose(before, *message),
        Act::Resend { rec, process } => resend(before, *rec, *process),
        Act::Sync { process } => sync(before, *process),
        Act::CopyTo { from, rec, to } => copy(before, *from, *rec, *to),
        Act::Up { process } => Ok(start(before, *process)),
        Act::Heal { process } => heal(before, *process),
        Act::Tick { ticks } => Ok(tick(before, *ticks)),
        Act::Give { grant } => give(before, *grant),
        Act::Take { actor, index } => take(before, *actor, *index),
        Act::Protect { process, .. } => Ok(protect(before, *process)),
        Act::Unprotect { process, .. } => Ok(unprotect(before, *process)),
    }
}

/// The reply to an act. An unknown actor, or one whose role may not make the act, is refused first.
pub(crate) fn reply(before: &Past, by: u32, act: &Act) -> Result<Reply, AllocError>
    requires few { length before.now.steps.now ≤ MOST_JOURNAL_ENTRIES }
    ensures { IfOk result (λ answer. answer
        ≡ reply before.now.config.now (history_of before.now) by act.now) }
{
    let Some(role) = before.config.role(by) else {
        return Ok(Reply::No(Refusal::Stranger));
    };
    if !role.may(act) {
        return Ok(Reply::No(Refusal::WrongRole));
    }
    let answer = allowed_reply(before, by, act)?;
    Ok(answer)
}
