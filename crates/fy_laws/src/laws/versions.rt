//! The two versions of the rules: what is legal under which, and that the second changes nothing
//! where its acts aren't used.
ghost use Rattle.std.specs.Prelude.{◌≡◌, true, [], ◌∷◌};
ghost use Rattle.fy_acts.specs.declared.version.Version.TheVariants.{First, Second};
ghost use Rattle.fy_cluster.specs.History.{history};
ghost use Rattle.fy_cluster.specs.Versions.{LegalUnder};
ghost use Rattle.fy_cluster.specs.Earlier.{once_destroyed, formed_for, once_marked, marked_by_all, IsAsEarlier};
ghost use Rattle.fy_laws.specs.Clusters.{six, members};
ghost use Rattle.fy_laws.specs.Records.{pair, written_and_synced};
ghost use Rattle.fy_laws.specs.Healed.{mark_taken, destroyed_again, copied_along};
ghost use Rattle.fy_laws.specs.Replaced.{replaced, replaces_refused};

use super::every;

/// A journal without copies, replaced members and healing is legal under both versions.
pub fn both_know_the_earlier_acts()
    ensures first { LegalUnder First six written_and_synced }
    ensures second { LegalUnder Second six written_and_synced }
{}

/// With one of these acts, though it was refused, it is legal under the second alone.
pub fn first_knows_no_others()
    ensures heal { LegalUnder First six destroyed_again → ⊥ }
    ensures copy { LegalUnder First six copied_along → ⊥ }
    ensures replace { LegalUnder First six replaces_refused → ⊥ }
    ensures second { LegalUnder Second six destroyed_again }
{}

/// Under the first all is as by the earlier rules.
#[tactic(auto, using(crate::proofs::FromLaws::six_as_earlier))]
pub fn first_is_as_earlier()
    ensures { IsAsEarlier (history six written_and_synced) }
{
    every::six_is_met();
    both_know_the_earlier_acts();
    fy_cluster::laws::earlier_rules_hold();
}

/// Under the second it isn't: by the earlier rules whoever was healed is destroyed still, a team is
/// as it was formed, a mark stays, and with the marks of all members a record is acknowledged.
pub fn second_is_not()
    ensures differs { IsAsEarlier (history six mark_taken) → ⊥ }
    ensures destroyed { members (once_destroyed (history six mark_taken)) ≡ 0 ∷ [] }
    ensures team { formed_for (history six replaced) 0 ≡ pair }
    ensures marked { members (once_marked (history six mark_taken) 0) ≡ 0 ∷ 2 ∷ [] }
    ensures acked { marked_by_all (history six mark_taken) 0 ≡ true }
{}
