//! After which journals the cluster is safe: what the words of the headline accept, and what they
//! refuse.
ghost use Rattle.std.specs.Prelude.{◌≡◌, true};
ghost use Rattle.fy_decide.specs.Safety.{AreShort, AreSatisfied};
ghost use Rattle.fy_cluster.specs.History.{history, destroyed, left, acked};
ghost use Rattle.fy_cluster.specs.Survival.{Kept, IsSafeAfter, Survives};
ghost use Rattle.fy_laws.specs.Clusters.{six, four};
ghost use Rattle.fy_laws.specs.Strikes.{two_zones, few_left};
ghost use Rattle.fy_laws.specs.Records.{written_and_synced};
ghost use Rattle.fy_laws.specs.Healed.{healed};
ghost use Rattle.fy_laws.specs.Wrong.{second_zone_killed, too_few_left, healed_in_need};
ghost use Rattle.fy_laws.specs.Told.{last_copy_emptied};

use super::{every, healed, records, strikes};

/// After a second zone is killed for good, the destroyed satisfy the policy. After it is rebooted
/// they don't.
pub fn safe_from_too_many_destroyed()
    ensures safe { IsSafeAfter six (history six two_zones) }
    ensures satisfy { AreShort six.processes six.policies
        (destroyed (history six second_zone_killed)) → ⊥ }
    ensures wrong { IsSafeAfter six (history six second_zone_killed) → ⊥ }
{
    every::six_is_met();
    strikes::two_zones();
    fy_cluster::laws::journals_survive();
}

/// After one of two zones is killed for good, those left are short of the policy. After it is
/// emptied they aren't.
pub fn safe_from_too_few_left()
    ensures safe { IsSafeAfter four (history four few_left) }
    ensures short { AreSatisfied four.processes four.policies
        (left four (history four too_few_left)) → ⊥ }
    ensures wrong { IsSafeAfter four (history four too_few_left) → ⊥ }
{
    every::four_is_met();
    strikes::few_left();
    fy_policy::laws::test_is_satisfaction();
    fy_cluster::laws::journals_survive();
}

/// An acknowledged record isn't kept where no member is left that has it.
pub fn kept_by_someone()
    ensures kept { Kept (history six written_and_synced) 0 }
    ensures acknowledged { acked (history six last_copy_emptied) 0 ≡ true }
    ensures wrong { Kept (history six last_copy_emptied) 0 → ⊥ }
{
    every::record_stands();
}

/// Nor is it where a member lacks it that isn't destroyed.
pub fn kept_by_everyone()
    ensures safe { IsSafeAfter six (history six healed) }
    ensures acknowledged { acked (history six healed_in_need) 0 ≡ true }
    ensures lacking { Kept (history six healed_in_need) 0 → ⊥ }
    ensures wrong { IsSafeAfter six (history six healed_in_need) → ⊥ }
{
    every::six_is_met();
    healed::healed();
    fy_cluster::laws::journals_survive();
}

/// A journal of writes and a kill keeps all of the headline, after each of its entries.
pub fn written_and_survives()
    ensures { Survives six written_and_synced }
{
    every::six_is_met();
    records::written_and_synced();
    fy_cluster::laws::journals_survive();
}
