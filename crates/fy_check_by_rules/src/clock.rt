//! What the entries before say of the time, and of who is clogged.
#![tactic(auto, using(crate::proofs::Pasts::past_next, crate::proofs::Pasts::past_none))]

ghost use Rattle.std.specs.Prelude.{◌≡◌, ◌≤◌, ◌*◌, length, unwrap_or};
ghost use Rattle.fy_cluster.specs.History.{ticks, now, clog_end_by, clogged};
ghost use Rattle.fy_check_by_rules.specs.Past.{history_of};

use crate::past::Past;
use crate::step::FoundStep;
use fy_cluster::effects::{clogs, ticks, unclogs};
use fy_locality::ProcId;
use fy_net::LAST_TICK;

/// How many ticks the step let pass.
fn ticks_at(step: &FoundStep) -> u64
    ensures { result ≡ unwrap_or (ticks step.now.entry.act step.now.entry.reply) 0 }
{
    ticks(&step.entry).unwrap_or(0)
}

/// The ticks that have passed.
pub(crate) fn now(before: &Past) -> u128
    ensures now { result ≡ now (history_of before.now) }
    ensures small { result ≤ length before.now.steps.now * 18446744073709551615 }
{
    let mut now = 0u128;
    for step in before.steps {
        now += u128::from(ticks_at(step));
    }
    now
}

/// What the step, made at a time, makes of the end of its targets' clogs.
fn clog_end_by(step: &FoundStep, made: u128, until: u128) -> u128
    requires { made ≤ 340282366920938463444927863358058659840 }
    ensures { result ≡ clog_end_by step.now.entry made until }
{
    match clogs(&step.entry) {
        Some(ticks) => until.max((made + u128::from(ticks)).min(u128::from(LAST_TICK))),
        None => if unclogs(&step.entry).is_some() {
            until.min(made)
        } else {
            until
        },
    }
}

/// Whether the clogs of the process last longer than now.
pub(crate) fn clogged(before: &Past, p: ProcId) -> bool
    ensures { result ≡ clogged (history_of before.now) p.0 }
{
    let mut then = 0u128;
    let mut until = 0u128;
    for step in before.steps {
        if step.targets.contains(p) {
            until = clog_end_by(step, then, until);
        }
        then += u128::from(ticks_at(step));
    }
    then < until
}
