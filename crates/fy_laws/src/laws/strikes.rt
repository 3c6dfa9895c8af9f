//! Kills: what strikes, who is destroyed and who is left.
ghost use Rattle.std.specs.Prelude.{◌≡◌, true, [], ◌∷◌};
ghost use Rattle.fy_cluster.specs.History.{history, destroyed, gone, left, up};
ghost use Rattle.fy_cluster.specs.Replies.{Legal};
ghost use Rattle.fy_laws.specs.Clusters.{six, four, four_of_one, members};
ghost use Rattle.fy_laws.specs.Strikes.{two_zones, few_left, few_left_and_nothing_milder, one_is_enough, few_left_and_no_grant_to_empty, back_and_destroyed, emptied_is_left, killed_is_not_left, two_policies, no_hall, three_and_two, halls};

/// Of three zones one is killed for good, and the next is only rebooted: else the destroyed would
/// satisfy the policy. Two processes of one zone are no two zones.
pub fn two_zones()
    ensures legal { Legal six two_zones }
    ensures destroyed { members (destroyed (history six two_zones)) ≡ 0 ∷ 1 ∷ [] }
    ensures left { members (left six (history six two_zones)) ≡ 2 ∷ 3 ∷ 4 ∷ 5 ∷ [] }
    ensures up { members (up (history six two_zones)) ≡ 4 ∷ 5 ∷ [] }
{}

/// Of two zones one is only emptied: killed for good it would leave too few. The emptied are
/// destroyed, and left.
pub fn few_left()
    ensures legal { Legal four few_left }
    ensures destroyed { members (destroyed (history four few_left)) ≡ 0 ∷ 1 ∷ [] }
    ensures left { members (left four (history four few_left)) ≡ 0 ∷ 1 ∷ 2 ∷ 3 ∷ [] }
{}

/// Where the floor is the ordered kind itself, a barred kill does nothing.
pub fn few_left_and_nothing_milder()
    ensures legal { Legal four few_left_and_nothing_milder }
    ensures destroyed { members (destroyed (history four few_left_and_nothing_milder)) ≡ [] }
    ensures up { up (history four few_left_and_nothing_milder) 0 ≡ true }
{}

/// Where one process satisfies the policy, the first to be emptied is only rebooted.
pub fn one_is_enough()
    ensures legal { Legal four_of_one one_is_enough }
    ensures destroyed { members (destroyed (history four_of_one one_is_enough)) ≡ [] }
{}

/// A kind without a grant is passed over, and the rule is that of the ordered kind.
pub fn few_left_and_no_grant_to_empty()
    ensures legal { Legal four few_left_and_no_grant_to_empty }
    ensures destroyed { members (destroyed (history four few_left_and_no_grant_to_empty)) ≡ [] }
{}

/// An emptied process that is up again is destroyed still.
pub fn back_and_destroyed()
    ensures legal { Legal six back_and_destroyed }
    ensures destroyed { members (destroyed (history six back_and_destroyed)) ≡ 0 ∷ [] }
    ensures up { members (up (history six back_and_destroyed)) ≡ 0 ∷ 1 ∷ 4 ∷ 5 ∷ [] }
{}

/// An emptied process is left, and one that is killed for good isn't: no order finds it.
pub fn emptied_is_left()
    ensures legal { Legal four emptied_is_left }
    ensures left { members (left four (history four emptied_is_left)) ≡ 0 ∷ 2 ∷ 3 ∷ [] }
    ensures gone { members (gone (history four emptied_is_left)) ≡ 1 ∷ [] }
    ensures destroyed { members (destroyed (history four emptied_is_left)) ≡ 0 ∷ 1 ∷ [] }
{}

/// A process that is killed for good doesn't count towards those that have to be left.
pub fn killed_is_not_left()
    ensures legal { Legal four killed_is_not_left }
    ensures left { members (left four (history four killed_is_not_left)) ≡ 1 ∷ 2 ∷ 3 ∷ [] }
    ensures gone { members (gone (history four killed_is_not_left)) ≡ 0 ∷ [] }
{}

/// Each rule names the first policy by which it bars.
pub fn two_policies()
    ensures legal { Legal three_and_two two_policies }
    ensures destroyed { members (destroyed (history three_and_two two_policies)) ≡ 0 ∷ 1 ∷ [] }
{}

/// A process without a key counts for no value of it.
pub fn no_hall()
    ensures legal { Legal halls no_hall }
    ensures left { members (left halls (history halls no_hall)) ≡ 2 ∷ 4 ∷ [] }
    ensures destroyed { members (destroyed (history halls no_hall)) ≡ 0 ∷ 1 ∷ 3 ∷ 5 ∷ [] }
{}
