//! The replies to kills and clogs, from what the entries before say.
#![tactic(auto, unfolding(fy_cluster::specs::Replies::refusals, fy_cluster::specs::Replies::answer))]

ghost use Rattle.std.specs.Prelude.{◌≡◌, ℕ, IfOk};
ghost use Rattle.fy_acts.specs.declared.act.Act.TheVariants.{Kill, Clog, Unclog};
ghost use Rattle.fy_check_by_rules.specs.Allowed.{allowed_reply};

use crate::past::Past;
use crate::rules::Case;
use fy_acts::Reply;
use fy_kinds::{KillOrder, Target};
use std::alloc::AllocError;

/// The reply to a Kill.
pub(crate) fn kill(before: &Past, by: u32, order: &KillOrder) -> Result<Reply, AllocError>
    ensures { IfOk result (λ reply. reply ≡ allowed_reply before.now by (Kill order.now)) }
{
    let verdict = Case { before, by }.verdict(order)?;
    Ok(Reply::Verdict(verdict))
}

/// The reply to a Clog, however long it is to last.
pub(crate) fn clog(before: &Past, by: u32, target: &Target) -> Result<Reply, AllocError>
    ensures { IfOk result (λ reply. (ticks : ℕ)
        → reply ≡ allowed_reply before.now by (Clog target.now ticks)) }
{
    let rule = Case { before, by }.clog_bar(target)?;
    Ok(Reply::Ruled { rule })
}

/// The reply to an Unclog.
pub(crate) fn unclog(before: &Past, by: u32, target: &Target) -> Result<Reply, AllocError>
    ensures { IfOk result (λ reply. reply ≡ allowed_reply before.now by (Unclog target.now)) }
{
    let rule = Case { before, by }.clog_bar(target)?;
    Ok(Reply::Ruled { rule })
}
