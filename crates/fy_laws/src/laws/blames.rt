//! Whose fault a lost record is: what the first two premises accept, and who was destroyed since.
ghost use Rattle.std.specs.Prelude.{ℕ};
ghost use Rattle.fy_cluster.specs.Replies.{Legal};
ghost use Rattle.fy_holders.specs.Blames.{AreShortSince, IsByTwo, IsHeldSince};
ghost use Rattle.fy_laws.specs.Blamed.{all_lost, misled, next_zone_emptied};
ghost use Rattle.fy_laws.specs.Clusters.{six};
ghost use Rattle.fy_laws.specs.Stores.{both_healed};

/// A zone was emptied and healed without a copy, and then the last holder is emptied. The store
/// keeps the first two premises, and nobody holds its records: the heals were wrong. Two zones were
/// destroyed since the records were acknowledged, so the store alone isn't blamed.
pub fn misled()
    ensures legal { Legal six next_zone_emptied }
    ensures two { IsByTwo six misled }
    ensures nobody { (r : ℕ) → IsHeldSince six 0 all_lost r → ⊥ }
    ensures blame { AreShortSince six next_zone_emptied 0 → ⊥ }
{
    fy_policy::laws::test_is_satisfaction();
}

/// One zone alone was destroyed since the start, and one since the other was healed: a store that
/// lost a record acknowledged then is to blame, whatever the heals were worth.
pub fn one_zone_since()
    ensures first { AreShortSince six both_healed 0 }
    ensures second { AreShortSince six next_zone_emptied 5 }
{
    fy_policy::laws::test_is_satisfaction();
}
