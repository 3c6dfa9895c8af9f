//! Grants and protections: who may strike whom.
ghost use Rattle.std.specs.Prelude.{◌≡◌, [], ◌∷◌, length};
ghost use Rattle.fy_kinds.specs.declared.kind.Kind.TheVariants.{Reboot, RebootAndDelete, KillInstantly};
ghost use Rattle.fy_kinds.specs.Kinds.{Striking};
ghost use Rattle.fy_grants.specs.declared.grant.Scope.TheVariants.{All};
ghost use Rattle.fy_cluster.specs.History.{history, destroyed, up, clogged};
ghost use Rattle.fy_cluster.specs.Rules.{grants, is_protected};
ghost use Rattle.fy_cluster.specs.Replies.{Legal};
ghost use Rattle.fy_laws.specs.Clusters.{six, members, kill_and_reboot};
ghost use Rattle.fy_laws.specs.Permission.{protected, first_of_the_rules, given_and_taken, closed_up, one_zone_granted, half_unprotected, protected_from_the_start, full_of_grants, permission, rebooting, guarded, granted};

/// A protection bars its kinds for the whole target. Whoever has no grant is told of that first,
/// also of a process that is protected.
pub fn protected()
    ensures legal { Legal six protected }
    ensures destroyed { members (destroyed (history six protected)) ≡ [] }
{}

/// Of several rules that bar an order the first is named: a missing grant, a protection, and only
/// then replication.
pub fn first_of_the_rules()
    ensures legal { Legal six first_of_the_rules }
    ensures destroyed { members (destroyed (history six first_of_the_rules)) ≡ 0 ∷ [] }
{}

/// A grant holds from its Give to its Take, and a protection from its Protect to its Unprotect.
pub fn given_and_taken()
    ensures legal { Legal six given_and_taken }
    ensures grants { grants six (history six given_and_taken) 3 ≡ [] }
    ensures protected { members (λ p. is_protected six (history six given_and_taken) p
        (Striking Reboot)) ≡ [] }
{}

/// A Take takes the grant at its place, and the later ones move up.
pub fn closed_up()
    ensures legal { Legal six closed_up }
    ensures grants { grants six (history six closed_up) 3 ≡ permission rebooting All ∷ [] }
    ensures others { grants six (history six closed_up) 2
        ≡ record { actor = 2; kinds = kill_and_reboot; scope = All } ∷ [] }
    ensures clogged { members (clogged (history six closed_up)) ≡ [] }
{}

/// A grant for a zone covers the processes of that zone alone.
pub fn one_zone_granted()
    ensures legal { Legal six one_zone_granted }
    ensures up { members (up (history six one_zone_granted)) ≡ 2 ∷ 3 ∷ 4 ∷ 5 ∷ [] }
{}

/// An Unprotect ends the protection from its own kinds alone.
pub fn half_unprotected()
    ensures legal { Legal six half_unprotected }
    ensures ended { members (λ p. is_protected six (history six half_unprotected) p
        (Striking KillInstantly)) ≡ [] }
    ensures stays { members (λ p. is_protected six (history six half_unprotected) p
        (Striking RebootAndDelete)) ≡ 1 ∷ [] }
{}

/// Of several first protections of a process each counts, and an Unprotect takes its kinds out of
/// all of them.
pub fn protected_from_the_start()
    ensures legal { Legal guarded protected_from_the_start }
    ensures stays { members (λ p. is_protected guarded (history guarded protected_from_the_start) p
        (Striking RebootAndDelete)) ≡ 1 ∷ [] }
{}

/// There are at most 4096 grants.
pub fn full_of_grants()
    ensures legal { Legal (granted 4095) full_of_grants }
    ensures number { length (grants (granted 4095) (history (granted 4095) full_of_grants) 3)
        ≡ 4096 }
{}
