//! Clogging processes one after another, and freeing them in another order.
ghost use Rattle.std.specs.Prelude.{◌≡◌, ◌<◌, length, All, IfOk};
ghost use Rattle.fy_actors.specs.Schedules.{begun, process_target, swizzle_acts};

use crate::{Schedule, SwizzlePlan};
use fy_acts::Act;
use fy_kinds::Target;
use fy_locality::{Key, Map, ProcId};
use std::alloc::{AllocError, Global};

/// A process by its name.
///
/// Asks that the process is in the map.
pub fn process_target(map: &Map, p: ProcId) -> Target
    requires { p.0 < length map.now }
    ensures { result ≡ process_target map.now p }
{
    let Some(value) = map.value(p, Key::Process) else {
        unreachable!();
    };
    Target {
        key: Key::Process,
        value,
    }
}

/// Each process that is to be clogged, for so many ticks, and then each that is to be freed, in the
/// plan's orders. They are named by their `processid`.
///
/// Asks that each process of the plan is in the map.
///
/// # Errors
///
/// `AllocError` only where an allocation fails.
pub fn swizzle_acts(
    alloc: Global,
    map: &Map,
    plan: &SwizzlePlan,
    ticks: u64,
) -> Result<Vec<Act>, AllocError>
    requires clogs { All (λ p. p.0 < length map.now) plan.now.clogs.items }
    requires frees { All (λ p. p.0 < length map.now) plan.now.frees.items }
    ensures { IfOk result (λ acts. acts.items ≡ swizzle_acts map.now plan.now ticks) }
{
    let mut acts = Vec::new(alloc);
    for p in plan.clogs.iter() {
        let target = process_target(map, *p);
        acts.push(Act::Clog { target, ticks })?;
    }
    for p in plan.frees.iter() {
        let target = process_target(map, *p);
        acts.push(Act::Unclog { target })?;
    }
    Ok(acts)
}

impl Schedule {
    /// The actor that clogs each process of the plan for so many ticks, one a turn, and then frees
    /// each, in the plan's orders. It names them by their `processid`.
    ///
    /// Asks that each process of the plan is in the map.
    ///
    /// # Errors
    ///
    /// `AllocError` only where an allocation fails.
    pub fn swizzle(
        alloc: Global,
        map: &Map,
        plan: &SwizzlePlan,
        ticks: u64,
    ) -> Result<Schedule, AllocError>
        requires clogs { All (λ p. p.0 < length map.now) plan.now.clogs.items }
        requires frees { All (λ p. p.0 < length map.now) plan.now.frees.items }
        ensures { IfOk result (λ actor. actor ≡ begun (swizzle_acts map.now plan.now ticks)) }
    {
        let acts = swizzle_acts(alloc, map, plan, ticks)?;
        Ok(Schedule::begin(alloc, acts))
    }
}
