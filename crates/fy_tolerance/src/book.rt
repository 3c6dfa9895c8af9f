//! The dead book with the losses so far, from which further losses are counted.
ghost use Rattle.std.specs.Prelude.{◌≡◌, ℕ, Some, None, Err, IfOk, IfErr};
ghost use Rattle.fy_decide.specs.declared.dead_book.MakeFault.TheVariants.{Unmet, NoMemory};
ghost use Rattle.fy_decide.specs.Safety.{first_unmet};
ghost use Rattle.fy_tolerance.specs.Bears.{IsAfterLosses, lost_as_allowed};

use fy_decide::{DeadBook, Loss, MakeFault};
use fy_locality::{Map, ProcSet};
use fy_policy::Policy;
use std::alloc::Global;

/// What a cluster has lost so far.
#[derive(Clone, Copy)]
pub struct LossesSoFar {
    /// Emptied or killed for good, and not healed since.
    pub destroyed: ProcSet,
    /// Killed for good.
    pub gone: ProcSet,
    /// Not running, the gone not counted.
    pub down: ProcSet,
}

/// The dead book of a cluster after the losses so far.
///
/// # Errors
///
/// The faults of `DeadBook::make`.
pub fn book_of(
    alloc: Global,
    map: &Map,
    policies: &[Policy],
    losses: &LossesSoFar,
) -> Result<DeadBook, MakeFault>
    ensures processes { IfOk result (λ dead. dead.processes ≡ map.now) }
    ensures policies { IfOk result (λ dead. dead.policies ≡ policies.now) }
    ensures losses { IfOk result (IsAfterLosses map.now policies.now
        losses.now.destroyed losses.now.gone) }
    ensures unmet { (i : ℕ) → first_unmet map.now policies.now ≡ Some i → result ≡ Err (Unmet i) }
    ensures memory { first_unmet map.now policies.now ≡ None →
        IfErr result (λ fault. fault ≡ NoMemory) }
{
    let mut dead = DeadBook::make(alloc, map, policies)?;
    strike_as_allowed(&mut dead, &losses.gone, Loss::Gone);
    strike_as_allowed(&mut dead, &losses.destroyed, Loss::Emptied);
    Ok(dead)
}

/// Records a loss, where the policies bear it. A legal journal has no other losses.
fn strike_as_allowed(dead: &mut DeadBook, set: &ProcSet, loss: Loss)
    ensures { dead.new ≡ lost_as_allowed set.now loss dead.old }
{
    if dead.may_destroy(set, loss) {
        dead.strike(set, loss);
    }
}
