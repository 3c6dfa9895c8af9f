//! Stores of one's own beside a guard: what the three premises accept, and what they refuse.
ghost use Rattle.std.specs.Prelude.{ℕ, ◌+◌};
ghost use Rattle.fy_cluster.specs.Stores.{KeepsPremises, IsGuarded, IsHeld};
ghost use Rattle.fy_laws.specs.Clusters.{six};
ghost use Rattle.fy_laws.specs.Stores.{stored, unwritten, written, struck_once, in_three_zones, healed_beside_two, died_unasked, one_zone_has_it, healed_without, last_holder_emptied};

use super::every;

/// A store that copies before it heals keeps the premises. So each of its records is held by a
/// process that isn't destroyed, at every moment after the first.
pub fn stored()
    ensures guarded { IsGuarded six stored }
    ensures held { (n r : ℕ) → IsHeld six (stored (n + 1)) r }
{
    every::six_is_met();
    fy_cluster::laws::holders_are_left();
}

/// A process is emptied, started, and healed without its copy, between two moments: the record is
/// covered without it, so the premises are kept.
pub fn healed_beside_two()
    ensures { KeepsPremises six in_three_zones healed_beside_two }
{}

/// A process dies that nobody struck.
pub fn died_unasked()
    ensures { KeepsPremises six written died_unasked → ⊥ }
{
    fy_policy::laws::test_is_satisfaction();
}

/// A record is acknowledged with copies in one zone, and none is destroyed.
pub fn acknowledged_too_soon()
    ensures { KeepsPremises six unwritten one_zone_has_it → ⊥ }
{
    fy_policy::laws::test_is_satisfaction();
}

/// A zone is healed that has no copy, while one other process has one.
pub fn healed_without()
    ensures { KeepsPremises six struck_once healed_without → ⊥ }
{
    fy_policy::laws::test_is_satisfaction();
}

/// A record whose only holder is destroyed isn't held.
pub fn last_holder_emptied()
    ensures { IsHeld six last_holder_emptied 0 → ⊥ }
{}
