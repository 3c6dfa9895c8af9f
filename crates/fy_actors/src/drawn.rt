//! Plans of all processes, drawn from a stream of a seed.
ghost use Rattle.std.specs.Prelude.{◌≡◌, ◌<◌, length, All, IfOk};
ghost use Rattle.fy_actors.specs.Plans.{IsSwizzle, machines_to_kill, everyone, plan_words};

use crate::{AttritionPlan, PlanFault, SwizzlePlan, attrition_plan, swizzle_plan, words};
use fy_locality::{Map, ProcId};
use std::alloc::{AllocError, Global};

/// Every process, by number.
///
/// # Errors
///
/// `AllocError` only where an allocation fails.
#[tactic(auto, using(crate::proofs::PlansOfAll::one_process_more))]
pub fn everyone(alloc: Global, map: &Map) -> Result<Vec<ProcId>, AllocError>
    ensures { IfOk result (λ all. all.items ≡ everyone map.now) }
{
    let mut all = Vec::new(alloc);
    for p in 0..map.len() {
        all.push(ProcId(p))?;
    }
    Ok(all)
}

/// A swizzle of all processes, drawn from a stream of the seed.
///
/// # Errors
///
/// `AllocError` only where an allocation fails.
pub fn draw_swizzle(
    alloc: Global,
    map: &Map,
    seed: u64,
    stream: u64,
) -> Result<SwizzlePlan, AllocError>
    ensures drawn { IfOk result (IsSwizzle (plan_words map.now seed stream) (everyone map.now)) }
    ensures clogs { IfOk result (λ plan. All (λ p. p.0 < length map.now) plan.clogs.items) }
    ensures frees { IfOk result (λ plan. All (λ p. p.0 < length map.now) plan.frees.items) }
{
    let words = words(alloc, seed, stream, 2 * map.len() as usize)?;
    let all = everyone(alloc, map)?;
    // The words are enough, which no `From` of the fault could know.
    match swizzle_plan(alloc, &words, &all) {
        Ok(plan) => Ok(plan),
        Err(PlanFault::NoMemory) => Err(AllocError),
        Err(PlanFault::WordsShort { .. }) => unreachable!(),
    }
}

/// So many machines to kill, but so many others are left, drawn from a stream of the seed.
///
/// # Errors
///
/// `AllocError` only where an allocation fails.
pub fn draw_attrition(
    alloc: Global,
    map: &Map,
    seed: u64,
    stream: u64,
    to_kill: u32,
    to_leave: u32,
) -> Result<AttritionPlan, AllocError>
    ensures { IfOk result (λ plan. plan.machines.items
        ≡ machines_to_kill (plan_words map.now seed stream) map.now to_kill to_leave) }
{
    let words = words(alloc, seed, stream, 2 * map.len() as usize)?;
    // The words are enough, which no `From` of the fault could know.
    match attrition_plan(alloc, &words, map, to_kill, to_leave) {
        Ok(plan) => Ok(plan),
        Err(PlanFault::NoMemory) => Err(AllocError),
        Err(PlanFault::WordsShort { .. }) => unreachable!(),
    }
}
