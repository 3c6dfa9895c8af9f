//! The reply to a Tick, from what the entries before say.
#![tactic(auto, unfolding(fy_cluster::specs::Replies::refusals, fy_cluster::specs::Replies::answer))]

ghost use Rattle.std.specs.Prelude.{◌≡◌, ℕ};
ghost use Rattle.fy_acts.specs.declared.act.Act.TheVariants.{Tick};
ghost use Rattle.fy_check_by_rules.specs.Allowed.{allowed_reply};

use crate::clock::now;
use crate::past::Past;
use fy_acts::{Refusal, Reply};
use fy_net::LAST_TICK;

/// The reply to a Tick.
pub(crate) fn tick(before: &Past, ticks: u64) -> Reply
    ensures { (by : ℕ) → result ≡ allowed_reply before.now by (Tick ticks) }
{
    let then = now(before) + u128::from(ticks);
    if then > u128::from(LAST_TICK) {
        return Reply::No(Refusal::ClockEnd);
    }
    Reply::Time { now: then as u64 }
}
