//! Rounds: the acts of a plan that are drawn at once, from a stream of their own.
ghost use Rattle.std.specs.Prelude.{◌≡◌, IfOk};
ghost use Rattle.fy_players.specs.Rounds.{swizzle_round, attrition_round};

use fy_actors::{attrition_acts, draw_attrition, draw_swizzle, swizzle_acts};
use fy_acts::Act;
use fy_kinds::Kind;
use fy_locality::Map;
use std::alloc::{AllocError, Global};

/// As many machines as there may be.
pub(crate) const EVERY_MACHINE: u32 = 1024;

/// A round of a swizzle: each process that is drawn is clogged for so many ticks, and then freed.
pub(crate) fn swizzle_round(
    alloc: Global,
    map: &Map,
    seed: u64,
    stream: u64,
    ticks: u64,
) -> Result<Vec<Act>, AllocError>
    ensures { IfOk result (λ acts. acts.items ≡ swizzle_round map.now seed stream ticks) }
{
    let plan = draw_swizzle(alloc, map, seed, stream)?;
    swizzle_acts(alloc, map, &plan, ticks)
}

/// A round of an attrition: every machine is emptied, or at least rebooted. The number of
/// the stream is the tear too.
pub(crate) fn attrition_round(
    alloc: Global,
    map: &Map,
    seed: u64,
    stream: u64,
) -> Result<Vec<Act>, AllocError>
    ensures { IfOk result (λ acts. acts.items ≡ attrition_round map.now seed stream) }
{
    let plan = draw_attrition(alloc, map, seed, stream, EVERY_MACHINE, 0)?;
    attrition_acts(
        alloc,
        &plan.machines,
        Kind::RebootAndDelete,
        Kind::Reboot,
        stream,
    )
}
