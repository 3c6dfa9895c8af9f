//! Plans that are drawn from random words.
ghost use Rattle.std.specs.Prelude.{◌≡◌, ◌+◌, ◌-◌, ◌<◌, ◌≤◌, Err, length, IfOk, IfErr};
ghost use Rattle.fy_locality.specs.declared.key.Key.TheVariants.{Machine};
ghost use Rattle.fy_locality.specs.Locality.{values_of};
ghost use Rattle.fy_actors.specs.Plans.{shuffled, chosen, swizzle_need, IsSwizzle, machines_to_kill};

use fy_locality::{Key, Map, Name, ProcId};
use std::alloc::{AllocError, Global};

/// Why there is no plan.
#[derive(Clone, Copy, PartialEq, Eq, Debug)]
pub enum PlanFault {
    /// The plan takes so many words, and fewer were given.
    WordsShort { need: usize },
    /// An allocation failed.
    NoMemory,
}

impl From<AllocError> for PlanFault {
    ghost use Rattle.fy_actors.specs.declared.plans.PlanFault.TheVariants.{NoMemory};
    ghost use Rattle.std.specs.Prelude.{◌≡◌};

    ghost from_gives = { λ _ fault. fault ≡ NoMemory };

    fn from(_: AllocError) -> PlanFault {
        PlanFault::NoMemory
    }
}

/// Which processes are clogged one after another, and in which order they are freed.
pub struct SwizzlePlan {
    pub clogs: Vec<ProcId>,
    pub frees: Vec<ProcId>,
}

// Written out and not derived: see `Drop` in docs/DECISIONS.md.
impl Drop for SwizzlePlan {
    fn drop(self) {
        let SwizzlePlan { clogs: _, frees: _ } = self;
    }
}

/// Which machines are killed one after another.
pub struct AttritionPlan {
    pub machines: Vec<Name>,
}

// Written out and not derived: see `Drop` in docs/DECISIONS.md.
impl Drop for AttritionPlan {
    fn drop(self) {
        let AttritionPlan { machines: _ } = self;
    }
}

/// Shuffles a list by Fisher and Yates: from the last item down to the second, each is swapped with
/// itself or one before it, by the next word.
fn shuffle<T: Copy>(list: &mut [T], words: &[u32])
    requires { length list.old ≤ length words.now + 1 }
    ensures { list.new ≡ shuffled words.now list.old }
{
    for done in 1..list.len() {
        let index = list.len() - done;
        list.swap(index, words[done - 1] as usize % (index + 1));
    }
}

/// How many of the candidates stand beside an odd word.
fn count_chosen(words: &[u32], candidates: &[ProcId]) -> usize
    requires { length candidates.now ≤ length words.now }
    ensures count { result ≡ length (chosen words.now candidates.now) }
    ensures few { result ≤ length candidates.now }
{
    let mut count = 0;
    for index in 0..candidates.len() {
        if words[index] % 2 == 1 {
            count += 1;
        }
    }
    count
}

/// How many words a swizzle of these candidates takes.
fn swizzle_need(words: &[u32], candidates: &[ProcId]) -> usize
    ensures { result ≡ swizzle_need words.now candidates.now }
{
    if words.len() < candidates.len() {
        return candidates.len();
    }
    candidates.len() + count_chosen(words, candidates).saturating_sub(1)
}

/// The candidates that stand beside an odd word.
fn chosen(alloc: Global, words: &[u32], candidates: &[ProcId]) -> Result<Vec<ProcId>, AllocError>
    requires { length candidates.now ≤ length words.now }
    ensures { IfOk result (λ made. made.items ≡ chosen words.now candidates.now) }
{
    let mut chosen = Vec::new(alloc);
    for (index, candidate) in candidates.iter().enumerate() {
        if words[index] % 2 == 1 {
            chosen.push(*candidate)?;
        }
    }
    Ok(chosen)
}

/// Whom to clog and to free again. Each candidate that stands beside an odd word is clogged, in the
/// candidates' order, and freed in an order that the words after these shuffle. Of `n` candidates
/// with `m` chosen it takes `n + max(m - 1, 0)` words; further words are ignored.
///
/// # Errors
///
/// In this order: `WordsShort` where there are fewer words than that, with `need` being `n` where
/// there are fewer than `n`, and else that sum; `NoMemory`.
pub fn swizzle_plan(
    alloc: Global,
    words: &[u32],
    candidates: &[ProcId],
) -> Result<SwizzlePlan, PlanFault>
    ensures short { length words.now < swizzle_need words.now candidates.now
        → result ≡ Err (PlanFault.WordsShort (swizzle_need words.now candidates.now)) }
    ensures memory { swizzle_need words.now candidates.now ≤ length words.now
        → IfErr result (λ fault. fault ≡ PlanFault.NoMemory) }
    ensures made { IfOk result (IsSwizzle words.now candidates.now) }
{
    let need = swizzle_need(words, candidates);
    if words.len() < need {
        return Err(PlanFault::WordsShort { need });
    }
    let clogs = chosen(alloc, words, candidates)?;
    let mut frees = Vec::from_slice(alloc, &clogs)?;
    shuffle(frees.as_mut_slice(), &words[candidates.len()..]);
    Ok(SwizzlePlan { clogs, frees })
}

/// The names of all machines, in the order in which they were first seen.
fn machines(alloc: Global, map: &Map) -> Result<Vec<Name>, AllocError>
    ensures { IfOk result (λ made. made.items ≡ values_of map.now Machine) }
{
    let mut machines = Vec::new(alloc);
    for index in 0..map.value_count(Key::Machine) {
        let Some(machine) = map.value_at(Key::Machine, index) else {
            unreachable!();
        };
        machines.push(machine)?;
    }
    Ok(machines)
}

/// Which machines to kill: all of them, in the order in which they were first seen, are shuffled,
/// and the first `to_kill` are taken, but no more than leave `to_leave` others. Of `n` machines it
/// takes `max(n - 1, 0)` words; further words are ignored.
///
/// # Errors
///
/// In this order: `WordsShort` where there are fewer words than that; `NoMemory`.
pub fn attrition_plan(
    alloc: Global,
    words: &[u32],
    map: &Map,
    to_kill: u32,
    to_leave: u32,
) -> Result<AttritionPlan, PlanFault>
    ensures short { let need = length (values_of map.now Machine) - 1 in
        length words.now < need → result ≡ Err (PlanFault.WordsShort need) }
    ensures memory { length (values_of map.now Machine) - 1 ≤ length words.now
        → IfErr result (λ fault. fault ≡ PlanFault.NoMemory) }
    ensures made { IfOk result (λ plan.
        plan.machines.items ≡ machines_to_kill words.now map.now to_kill to_leave) }
{
    let count = map.value_count(Key::Machine);
    let need = count.saturating_sub(1) as usize;
    if words.len() < need {
        return Err(PlanFault::WordsShort { need });
    }
    let mut machines = machines(alloc, map)?;
    shuffle(machines.as_mut_slice(), words);
    machines.truncate(to_kill.min(count.saturating_sub(to_leave)) as usize);
    Ok(AttritionPlan { machines })
}
