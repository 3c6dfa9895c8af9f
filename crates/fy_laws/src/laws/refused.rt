//! Refused acts, the first reason being named.
ghost use Rattle.std.specs.Prelude.{◌≡◌, true, [], ◌∷◌, length, map};
ghost use Rattle.fy_kinds.specs.declared.kind.Kind.TheVariants.{Reboot};
ghost use Rattle.fy_kinds.specs.Kinds.{Striking};
ghost use Rattle.fy_cluster.specs.History.{history, destroyed, gone, up, teams, records, now, acked};
ghost use Rattle.fy_cluster.specs.Rules.{grants, is_protected};
ghost use Rattle.fy_cluster.specs.Replies.{Legal};
ghost use Rattle.fy_laws.specs.Clusters.{six, members, process};
ghost use Rattle.fy_laws.specs.Strikes.{three_and_two};
ghost use Rattle.fy_laws.specs.Permission.{protected};
ghost use Rattle.fy_laws.specs.Refused.{nobody_formed, gone_protected, refused_before_anything, refused_of_the_gone, refused_in_order, roles_apart, operator_moves_nothing, team_by_policy, no_member_of_acknowledged};

/// An act that names what isn't there is refused and changes nothing. The clock stops at its last
/// tick.
pub fn refused_before_anything()
    ensures legal { Legal six refused_before_anything }
    ensures now { now (history six refused_before_anything) ≡ 1099511627776 }
    ensures teams { teams (history six refused_before_anything) ≡ [] }
    ensures destroyed { members (destroyed (history six refused_before_anything)) ≡ [] }
{}

/// A process that is killed for good never comes back, and is no member of a new team.
pub fn refused_of_the_gone()
    ensures legal { Legal six refused_of_the_gone }
    ensures gone { members (gone (history six refused_of_the_gone)) ≡ 0 ∷ [] }
    ensures up { members (up (history six refused_of_the_gone)) ≡ 1 ∷ 2 ∷ 3 ∷ 4 ∷ 5 ∷ [] }
    ensures teams { teams (history six refused_of_the_gone)
        ≡ record { members = process 1 ∷ process 2 ∷ []; policy = 0 } ∷ [] }
{}

/// Nobody makes no team.
pub fn nobody_formed()
    ensures legal { Legal six nobody_formed }
    ensures teams { teams (history six nobody_formed) ≡ [] }
{}

/// A process that is gone may be protected all the same.
pub fn gone_protected()
    ensures legal { Legal six gone_protected }
    ensures gone { members (gone (history six gone_protected)) ≡ 0 ∷ [] }
    ensures protected { members (λ p. is_protected six (history six gone_protected) p
        (Striking Reboot)) ≡ 0 ∷ [] }
{}

/// Of several reasons to refuse the first is named. A payload has at most 256 bytes.
pub fn refused_in_order()
    ensures legal { Legal six refused_in_order }
    ensures records { length (records (history six refused_in_order)) ≡ 1 }
{}

/// Each role may make its own acts alone; kills and clogs are open to all, as far as their grants
/// go.
pub fn roles_apart()
    ensures legal { Legal six roles_apart }
    ensures now { now (history six roles_apart) ≡ 0 }
    ensures protected { members (λ p. is_protected six (history six roles_apart) p
        (Striking Reboot)) ≡ 1 ∷ [] }
    ensures not_given { grants six (history six roles_apart) 0 ≡ [] }
    ensures not_taken { length (grants six (history six roles_apart) 1) ≡ 1 }
{}

/// An operator copies no record and changes no team.
pub fn operator_moves_nothing()
    ensures legal { Legal six operator_moves_nothing }
    ensures teams { teams (history six operator_moves_nothing)
        ≡ record { members = process 1 ∷ process 2 ∷ []; policy = 0 } ∷ [] }
{}

/// A team has to meet the policy that it names, and no other.
pub fn team_by_policy()
    ensures legal { Legal three_and_two team_by_policy }
    ensures teams { map (λ team. team.policy) (teams (history three_and_two team_by_policy))
        ≡ 1 ∷ 0 ∷ [] }
{}

/// That a process is no member is said before that the record is acknowledged.
pub fn no_member_of_acknowledged()
    ensures legal { Legal six no_member_of_acknowledged }
    ensures acked { acked (history six no_member_of_acknowledged) 0 ≡ true }
{}
