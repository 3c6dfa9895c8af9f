//! Of several parts of a group, each with its number of processes, those that take the fewest
//! together: the parts are the values of an `Across`'s key.
ghost use Rattle.std.specs.Prelude.{◌≡◌, ◌+◌, ◌-◌, ◌*◌, ◌<◌, ◌≤◌, ℕ, Bool, IfSome, IfNone, min, nat_lt, sum_by};
ghost use Rattle.std.specs.List.{AllByRecursion, count_by};
ghost use Rattle.std.specs.FinSet as sets;
ghost use Rattle.fy_policy.specs.Counted.{number_of};
ghost use Rattle.fy_tolerance.specs.Costs.{AreSized, IsLeastOf, IsTaken, IsWithin, lies_in};

use fy_locality::{MOST_PROCESSES, ProcSet};

/// More processes than there are.
pub(crate) const MORE_THAN_ALL: u32 = MOST_PROCESSES + 1;

/// How many processes it takes at least, and a set of so many that does, where there is one.
#[derive(Clone, Copy)]
pub(crate) struct Part {
    pub(crate) least: u32,
    pub(crate) set: ProcSet,
}

/// What any `many` of the parts take together at least, and so many that take no more.
pub(crate) fn least_of(parts: &[Part], many: usize) -> Part
    ensures least { IsLeastOf parts.now many result.least }
    ensures taken { result.least ≤ MOST_PROCESSES → many ≤ MOST_PROCESSES
        → (count : ℕ) → IsTaken count parts.now many result }
    ensures within { (s : ℕ → Bool)
        → AllByRecursion (λ part. IsWithin (sets.contains part.set) s) parts.now
        → IsWithin (sets.contains result.set) s }
{
    let taken = many.min(MOST_PROCESSES as usize) as u32;
    match level_of(parts, taken) {
        Some(level) => Part {
            least: least_at(parts, taken, level),
            set: cheapest(parts, taken, level),
        },
        None => Part {
            least: MORE_THAN_ALL,
            set: ProcSet::empty(),
        },
    }
}

/// How many of the parts take less than the level.
fn number_below(parts: &[Part], level: u32) -> usize
    ensures { result ≡ count_by (λ part. nat_lt part.least level) parts.now }
{
    let mut count = 0usize;
    for part in parts {
        if part.least < level {
            count += 1;
        }
    }
    count
}

/// The least number that so many of the parts don't exceed, if there are so many.
fn level_of(parts: &[Part], taken: u32) -> Option<u32>
    ensures small { IfSome result (λ level. level ≤ MOST_PROCESSES) }
    ensures few { IfSome result (λ level.
        count_by (λ part. nat_lt part.least level) parts.now ≤ taken) }
    ensures enough { IfSome result (λ level.
        taken ≤ count_by (λ part. nat_lt part.least (level + 1)) parts.now) }
    ensures none { IfNone result (
        count_by (λ part. nat_lt part.least MORE_THAN_ALL) parts.now < taken) }
{
    for level in 0..MORE_THAN_ALL {
        if number_below(parts, level + 1) >= taken as usize {
            return Some(level);
        }
    }
    None
}

/// The level so many times, less what the parts fall short of it.
fn least_at(parts: &[Part], taken: u32, level: u32) -> u32
    ensures { result
        ≡ min (taken * level - sum_by (λ part. level - part.least) parts.now) MORE_THAN_ALL }
{
    let mut short = 0u64;
    for part in parts {
        short = short.saturating_add(u64::from(level.saturating_sub(part.least)));
    }
    let all = u64::from(taken) * u64::from(level);
    all.saturating_sub(short).min(u64::from(MORE_THAN_ALL)) as u32
}

/// The sets of so many parts that take the least: all below the level, and others at it.
fn cheapest(parts: &[Part], taken: u32, level: u32) -> ProcSet
    requires small { level ≤ MOST_PROCESSES }
    requires few { count_by (λ part. nat_lt part.least level) parts.now ≤ taken }
    requires enough { taken ≤ count_by (λ part. nat_lt part.least (level + 1)) parts.now }
    ensures taken { taken ≤ count_by (lies_in result) parts.now }
    ensures least { (count : ℕ) → AreSized count parts.now
        → number_of (sets.contains result) count
        + sum_by (λ part. level - part.least) parts.now ≤ taken * level }
    ensures within { (s : ℕ → Bool)
        → AllByRecursion (λ part. IsWithin (sets.contains part.set) s) parts.now
        → IsWithin (sets.contains result) s }
{
    let mut all = ProcSet::empty();
    let mut room = (taken as usize).saturating_sub(number_below(parts, level));
    for part in parts {
        if part.least < level {
            all = all.union(&part.set);
        } else if part.least == level && room > 0 {
            all = all.union(&part.set);
            room -= 1;
        }
    }
    all
}
