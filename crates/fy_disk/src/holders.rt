//! For each record the set of its holders: the processes that have it synced.
ghost use Rattle.std.specs.Prelude.{◌≡◌, ◌<◌, ◌≤◌, ℕ, length, OnOk};
ghost use Rattle.std.specs.List.{All};
ghost use Rattle.fy_disk.specs.Holders.{holders_of, Gains, Loses};

use crate::Item;
use fy_locality::{MOST_PROCESSES, ProcId, ProcSet};
use std::alloc::AllocError;

/// Makes empty sets until there is one for a record.
///
/// # Errors
///
/// `AllocError` only if the allocation fails.
pub(crate) fn open(holders: &mut Vec<ProcSet>, rec: u32) -> Result<(), AllocError>
    ensures room { OnOk result (rec < length holders.new.items) }
    ensures more { length holders.old.items ≤ length holders.new.items }
    ensures same { (r : ℕ) → holders_of holders.new.items r ≡ holders_of holders.old.items r }
{
    let missing = (rec as usize + 1).saturating_sub(holders.len());
    for _set in 0..missing {
        holders.push(ProcSet::empty())?;
    }
    Ok(())
}

/// Puts a process into the set of each item's record.
pub(crate) fn add_holder(holders: &mut Vec<ProcSet>, items: &[Item], p: ProcId)
    requires small { p.0 < MOST_PROCESSES }
    requires room { All (λ item. item.rec < length holders.old.items) items.now }
    ensures { Gains p.0 items.now holders.old.items holders.new.items }
{
    for item in items {
        holders[item.rec as usize].put(p);
    }
}

/// Takes a process out of the set of each item's record.
pub(crate) fn remove_holder(holders: &mut Vec<ProcSet>, items: &[Item], p: ProcId)
    requires small { p.0 < MOST_PROCESSES }
    requires room { All (λ item. item.rec < length holders.old.items) items.now }
    ensures { Loses p.0 items.now holders.old.items holders.new.items }
{
    for item in items {
        holders[item.rec as usize].drop_one(p);
    }
}
