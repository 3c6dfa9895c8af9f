//! Killing machines one after another.
ghost use Rattle.std.specs.Prelude.{◌≡◌, ◌↔◌, ◌<◌, ◌≤◌, Err, IfOk};
ghost use Rattle.fy_kinds.specs.Kinds.{rank};
ghost use Rattle.fy_actors.specs.Schedules.{begun, attrition_acts};

use crate::{AttritionPlan, Schedule};
use fy_acts::Act;
use fy_kinds::{KillOrder, Kind, Target};
use fy_locality::{Key, Name};
use std::alloc::{AllocError, Global};

/// Why there is no actor that kills the machines of a plan.
#[derive(Clone, Copy, PartialEq, Eq, Debug)]
pub enum AttritionFault {
    /// The floor is above the kind.
    Floor,
    /// An allocation failed.
    NoMemory,
}

impl From<AllocError> for AttritionFault {
    ghost use Rattle.fy_actors.specs.declared.attrition.AttritionFault.TheVariants.{NoMemory};
    ghost use Rattle.std.specs.Prelude.{◌≡◌};

    ghost from_gives = { λ _ fault. fault ≡ NoMemory };

    fn from(_: AllocError) -> AttritionFault {
        AttritionFault::NoMemory
    }
}

/// An order to kill each machine by a kind, or by a milder one down to the floor. A reboot keeps
/// the unsynced writes that `tear` says.
///
/// Asks that the floor isn't above the kind.
///
/// # Errors
///
/// `AllocError` only where an allocation fails.
pub fn attrition_acts(
    alloc: Global,
    machines: &[Name],
    kind: Kind,
    floor: Kind,
    tear: u64,
) -> Result<Vec<Act>, AllocError>
    requires { rank floor ≤ rank kind }
    ensures { (ordered : rank floor ≤ rank kind)
        → IfOk result (λ acts. acts.items ≡ attrition_acts kind floor tear ordered machines.now) }
{
    let mut acts = Vec::new(alloc);
    for machine in machines {
        let target = Target {
            key: Key::Machine,
            value: *machine,
        };
        let Ok(order) = KillOrder::make(target, kind, floor, tear) else {
            unreachable!();
        };
        acts.push(Act::Kill { order })?;
    }
    Ok(acts)
}

impl Schedule {
    /// The actor that orders to kill each machine of the plan, one a turn in the plan's order, by
    /// this kind, or where that is barred by a milder one down to the floor. A reboot keeps the
    /// unsynced writes that `tear` says.
    ///
    /// # Errors
    ///
    /// In this order: `Floor` where the floor is above the kind; `NoMemory`.
    pub fn attrition(
        alloc: Global,
        plan: &AttritionPlan,
        kind: Kind,
        floor: Kind,
        tear: u64,
    ) -> Result<Schedule, AttritionFault>
        ensures floor { (rank kind < rank floor) ↔ (result ≡ Err AttritionFault.Floor) }
        ensures made { (ordered : rank floor ≤ rank kind) → IfOk result (λ actor.
            actor ≡ begun (attrition_acts kind floor tear ordered plan.now.machines.items)) }
    {
        if floor.is_above(kind) {
            return Err(AttritionFault::Floor);
        }
        let acts = attrition_acts(alloc, &plan.machines, kind, floor, tear)?;
        Ok(Schedule::begin(alloc, acts))
    }
}
