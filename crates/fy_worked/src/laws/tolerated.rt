//! What one policy bears: four processes, two in each of two zones, and a policy of both zones; and
//! three processes in three zones.
ghost use Rattle.std.specs.Prelude.{[], ◌∷◌};
ghost use Rattle.fy_decide.specs.declared.dead_book.Loss.TheVariants.{Emptied, Gone};
ghost use Rattle.fy_worked.specs.Tolerated.{Bears, ThreeBear};

/// Any one process may be emptied, and one of each zone is too many. A zone may be emptied whole,
/// so it isn't too many, and beside one of each zone no third process is named.
pub fn emptied()
    ensures bears { Bears Emptied 1 (0 ∷ 2 ∷ []) }
    ensures more { Bears Emptied 2 (0 ∷ 2 ∷ []) → ⊥ }
    ensures fewer { Bears Emptied 0 (0 ∷ 2 ∷ []) → ⊥ }
    ensures borne { Bears Emptied 1 (0 ∷ 1 ∷ []) → ⊥ }
    ensures needless { Bears Emptied 1 (0 ∷ 1 ∷ 2 ∷ []) → ⊥ }
{
    fy_policy::laws::test_is_satisfaction();
}

/// Any one process may be gone, and a zone may not: those left would all be of the other zone.
pub fn gone()
    ensures bears { Bears Gone 1 (0 ∷ 1 ∷ []) }
    ensures more { Bears Gone 2 (0 ∷ 1 ∷ []) → ⊥ }
    ensures borne { Bears Gone 1 (0 ∷ []) → ⊥ }
{
    fy_policy::laws::test_is_satisfaction();
}

/// A policy that takes all of three zones bears that any two processes are emptied. So one is too
/// low a number, though any one may be emptied and the three are too many.
pub fn three_zones()
    ensures bears { ThreeBear 2 (0 ∷ 1 ∷ 2 ∷ []) }
    ensures fewer { ThreeBear 1 (0 ∷ 1 ∷ 2 ∷ []) → ⊥ }
{
    fy_policy::laws::test_is_satisfaction();
}
