//! What the words of a verdict accept and what they refuse. Each law has an order after a written
//! journal, its right answer, and that answer with one thing turned.
ghost use Rattle.std.specs.Prelude.{[], Some, None};
ghost use Rattle.fy_kinds.specs.declared.kind.Kind.TheVariants.{Reboot, RebootAndDelete, KillInstantly};
ghost use Rattle.fy_kinds.specs.declared.verdict.Rule.TheVariants.{NoTarget, NoGrant, Protected, TooManyDestroyed, TooFewLeft};
ghost use Rattle.fy_cluster.specs.Replies.{Legal};
ghost use Rattle.fy_cluster.specs.Survival.{AreNamed};
ghost use Rattle.fy_laws.specs.Clusters.{six, four, process, struck, weakened, barred};
ghost use Rattle.fy_laws.specs.Strikes.{one_zone, two_zones, second_kill};
ghost use Rattle.fy_laws.specs.Judged.{StrikesAfter, NamesAfter, JudgedAfter, with_kill, first_kill, nobody_killed, kill_alone, reboot_alone, one_emptied, one_protected, two_protected, emptied_and_protected, six_twice};

/// Where a kill for good may strike, a milder kind is too mild, and so is none.
pub fn too_mild()
    ensures legal { Legal six (with_kill [] 1 first_kill (struck KillInstantly)) }
    ensures strikes { StrikesAfter six [] 1 first_kill (Some KillInstantly) }
    ensures milder { StrikesAfter six [] 1 first_kill (Some RebootAndDelete) → ⊥ }
    ensures none { StrikesAfter six [] 1 first_kill None → ⊥ }
    ensures judged { JudgedAfter six [] 1 first_kill (struck KillInstantly) }
    ensures wrong { JudgedAfter six [] 1 first_kill (struck RebootAndDelete) → ⊥ }
{
    fy_decide::laws::verdict_answers();
}

/// Where the destroyed would satisfy the policy, no kind that destroys strikes, and no answer goes
/// without a rule.
pub fn too_many_destroyed()
    ensures legal { Legal six
        (with_kill one_zone 1 second_kill (weakened Reboot (TooManyDestroyed 0))) }
    ensures strikes { StrikesAfter six one_zone 1 second_kill (Some Reboot) }
    ensures killed { StrikesAfter six one_zone 1 second_kill (Some KillInstantly) → ⊥ }
    ensures emptied { StrikesAfter six one_zone 1 second_kill (Some RebootAndDelete) → ⊥ }
    ensures names { NamesAfter six one_zone 1 second_kill (Some (TooManyDestroyed 0)) }
    ensures unnamed { NamesAfter six one_zone 1 second_kill None → ⊥ }
    ensures judged { JudgedAfter six one_zone 1 second_kill
        (weakened Reboot (TooManyDestroyed 0)) }
    ensures wrong { JudgedAfter six one_zone 1 second_kill (struck KillInstantly) → ⊥ }
{
    fy_decide::laws::verdict_answers();
}

/// Where those left would be short of the policy, no kill for good strikes.
pub fn too_few_left()
    ensures legal { Legal four
        (with_kill [] 1 first_kill (weakened RebootAndDelete (TooFewLeft 0))) }
    ensures strikes { StrikesAfter four [] 1 first_kill (Some RebootAndDelete) }
    ensures killed { StrikesAfter four [] 1 first_kill (Some KillInstantly) → ⊥ }
    ensures judged { JudgedAfter four [] 1 first_kill
        (weakened RebootAndDelete (TooFewLeft 0)) }
    ensures wrong { JudgedAfter four [] 1 first_kill (struck KillInstantly) → ⊥ }
{
    fy_policy::laws::test_is_satisfaction();
    fy_decide::laws::verdict_answers();
}

/// Nothing strikes that is milder than the floor.
pub fn below_the_floor()
    ensures legal { Legal four (with_kill [] 1 kill_alone (barred (TooFewLeft 0))) }
    ensures strikes { StrikesAfter four [] 1 kill_alone None }
    ensures milder { StrikesAfter four [] 1 kill_alone (Some RebootAndDelete) → ⊥ }
    ensures judged { JudgedAfter four [] 1 kill_alone (barred (TooFewLeft 0)) }
    ensures wrong { JudgedAfter four [] 1 kill_alone
        (weakened RebootAndDelete (TooFewLeft 0)) → ⊥ }
{
    fy_decide::laws::verdict_answers();
}

/// Nothing strikes that is harder than the ordered kind.
pub fn above_the_order()
    ensures legal { Legal six (with_kill [] 1 reboot_alone (struck Reboot)) }
    ensures strikes { StrikesAfter six [] 1 reboot_alone (Some Reboot) }
    ensures harder { StrikesAfter six [] 1 reboot_alone (Some KillInstantly) → ⊥ }
    ensures judged { JudgedAfter six [] 1 reboot_alone (struck Reboot) }
    ensures wrong { JudgedAfter six [] 1 reboot_alone (struck KillInstantly) → ⊥ }
{
    fy_decide::laws::verdict_answers();
}

/// Nothing strikes that the actor has no grant for.
pub fn only_granted()
    ensures legal { Legal four (with_kill [] 2 first_kill (weakened Reboot (TooFewLeft 0))) }
    ensures strikes { StrikesAfter four [] 2 first_kill (Some Reboot) }
    ensures emptied { StrikesAfter four [] 2 first_kill (Some RebootAndDelete) → ⊥ }
    ensures judged { JudgedAfter four [] 2 first_kill (weakened Reboot (TooFewLeft 0)) }
    ensures wrong { JudgedAfter four [] 2 first_kill
        (weakened RebootAndDelete (TooFewLeft 0)) → ⊥ }
{
    fy_decide::laws::verdict_answers();
}

/// Nothing strikes that a target is protected from.
pub fn only_unprotected()
    ensures legal { Legal six
        (with_kill one_protected 1 first_kill (weakened Reboot (Protected (process 1)))) }
    ensures strikes { StrikesAfter six one_protected 1 first_kill (Some Reboot) }
    ensures killed { StrikesAfter six one_protected 1 first_kill (Some KillInstantly) → ⊥ }
    ensures judged { JudgedAfter six one_protected 1 first_kill
        (weakened Reboot (Protected (process 1))) }
    ensures wrong { JudgedAfter six one_protected 1 first_kill (struck KillInstantly) → ⊥ }
{
    fy_decide::laws::verdict_answers();
}

/// No rule is named that doesn't bar the ordered kind.
pub fn no_rule()
    ensures names { NamesAfter six [] 1 first_kill None }
    ensures granted { NamesAfter six [] 1 first_kill (Some (NoGrant (process 0))) → ⊥ }
    ensures unprotected { NamesAfter six [] 1 first_kill (Some (Protected (process 0))) → ⊥ }
    ensures few_destroyed { NamesAfter six [] 1 first_kill (Some (TooManyDestroyed 0)) → ⊥ }
    ensures enough_left { NamesAfter six [] 1 first_kill (Some (TooFewLeft 0)) → ⊥ }
    ensures wrong { JudgedAfter six [] 1 first_kill
        (weakened KillInstantly (TooFewLeft 0)) → ⊥ }
{
    fy_decide::laws::verdict_answers();
}

/// No target is named where there is none, and only there. Nothing strikes then.
pub fn target_first()
    ensures legal { Legal six (with_kill [] 1 nobody_killed (barred NoTarget)) }
    ensures strikes { StrikesAfter six [] 1 nobody_killed None }
    ensures struck { StrikesAfter six [] 1 nobody_killed (Some KillInstantly) → ⊥ }
    ensures names { NamesAfter six [] 1 nobody_killed (Some NoTarget) }
    ensures later { NamesAfter six [] 1 nobody_killed (Some (NoGrant (process 0))) → ⊥ }
    ensures judged { JudgedAfter six [] 1 nobody_killed (barred NoTarget) }
    ensures wrong { JudgedAfter six [] 1 nobody_killed (barred (NoGrant (process 0))) → ⊥ }
    ensures there { NamesAfter six [] 3 first_kill (Some NoTarget) → ⊥ }
{
    fy_decide::laws::verdict_answers();
}

/// A missing grant is named before a protection.
pub fn grant_before_protection()
    ensures legal { Legal six
        (with_kill one_protected 3 first_kill (barred (NoGrant (process 0)))) }
    ensures names { NamesAfter six one_protected 3 first_kill (Some (NoGrant (process 0))) }
    ensures later { NamesAfter six one_protected 3 first_kill (Some (Protected (process 1))) → ⊥ }
    ensures judged { JudgedAfter six one_protected 3 first_kill (barred (NoGrant (process 0))) }
    ensures wrong { JudgedAfter six one_protected 3 first_kill
        (barred (Protected (process 1))) → ⊥ }
{
    fy_decide::laws::verdict_answers();
}

/// A missing grant is named before replication.
pub fn grant_before_replication()
    ensures legal { Legal six
        (with_kill one_emptied 3 second_kill (barred (NoGrant (process 2)))) }
    ensures names { NamesAfter six one_emptied 3 second_kill (Some (NoGrant (process 2))) }
    ensures later { NamesAfter six one_emptied 3 second_kill (Some (TooManyDestroyed 0)) → ⊥ }
    ensures judged { JudgedAfter six one_emptied 3 second_kill (barred (NoGrant (process 2))) }
    ensures wrong { JudgedAfter six one_emptied 3 second_kill (barred (TooManyDestroyed 0)) → ⊥ }
{
    fy_decide::laws::verdict_answers();
}

/// A protection is named before replication.
pub fn protection_before_replication()
    ensures legal { Legal six (with_kill emptied_and_protected 1 second_kill
        (weakened Reboot (Protected (process 3)))) }
    ensures names { NamesAfter six emptied_and_protected 1 second_kill
        (Some (Protected (process 3))) }
    ensures later { NamesAfter six emptied_and_protected 1 second_kill
        (Some (TooManyDestroyed 0)) → ⊥ }
    ensures judged { JudgedAfter six emptied_and_protected 1 second_kill
        (weakened Reboot (Protected (process 3))) }
    ensures wrong { JudgedAfter six emptied_and_protected 1 second_kill
        (weakened Reboot (TooManyDestroyed 0)) → ⊥ }
{
    fy_decide::laws::verdict_answers();
}

/// That the destroyed satisfy a policy is named before that those left don't.
pub fn destroyed_before_left()
    ensures legal { Legal four
        (with_kill one_emptied 1 second_kill (weakened Reboot (TooManyDestroyed 0))) }
    ensures names { NamesAfter four one_emptied 1 second_kill (Some (TooManyDestroyed 0)) }
    ensures later { NamesAfter four one_emptied 1 second_kill (Some (TooFewLeft 0)) → ⊥ }
    ensures judged { JudgedAfter four one_emptied 1 second_kill
        (weakened Reboot (TooManyDestroyed 0)) }
    ensures wrong { JudgedAfter four one_emptied 1 second_kill
        (weakened Reboot (TooFewLeft 0)) → ⊥ }
{
    fy_decide::laws::verdict_answers();
}

/// Of the processes without a grant the least is named.
pub fn least_without_grant()
    ensures legal { Legal six (with_kill [] 3 first_kill (barred (NoGrant (process 0)))) }
    ensures names { NamesAfter six [] 3 first_kill (Some (NoGrant (process 0))) }
    ensures greater { NamesAfter six [] 3 first_kill (Some (NoGrant (process 1))) → ⊥ }
    ensures judged { JudgedAfter six [] 3 first_kill (barred (NoGrant (process 0))) }
    ensures wrong { JudgedAfter six [] 3 first_kill (barred (NoGrant (process 1))) → ⊥ }
{
    fy_decide::laws::verdict_answers();
}

/// Of the protected processes the least is named.
pub fn least_protected()
    ensures legal { Legal six
        (with_kill two_protected 1 first_kill (weakened Reboot (Protected (process 0)))) }
    ensures names { NamesAfter six two_protected 1 first_kill (Some (Protected (process 0))) }
    ensures greater { NamesAfter six two_protected 1 first_kill
        (Some (Protected (process 1))) → ⊥ }
    ensures judged { JudgedAfter six two_protected 1 first_kill
        (weakened Reboot (Protected (process 0))) }
    ensures wrong { JudgedAfter six two_protected 1 first_kill
        (weakened Reboot (Protected (process 1))) → ⊥ }
{
    fy_decide::laws::verdict_answers();
}

/// Of the policies that bar by one rule the first is named.
pub fn first_policy()
    ensures legal { Legal six_twice
        (with_kill one_zone 1 second_kill (weakened Reboot (TooManyDestroyed 0))) }
    ensures names { NamesAfter six_twice one_zone 1 second_kill (Some (TooManyDestroyed 0)) }
    ensures greater { NamesAfter six_twice one_zone 1 second_kill (Some (TooManyDestroyed 1)) → ⊥ }
    ensures judged { JudgedAfter six_twice one_zone 1 second_kill
        (weakened Reboot (TooManyDestroyed 0)) }
    ensures wrong { JudgedAfter six_twice one_zone 1 second_kill
        (weakened Reboot (TooManyDestroyed 1)) → ⊥ }
{
    fy_decide::laws::verdict_answers();
}

/// A rule is named exactly where the ordered kind doesn't strike.
pub fn rule_named()
    ensures struck { AreNamed one_zone }
    ensures lesser { AreNamed two_zones }
    ensures unnamed { AreNamed (with_kill [] 1 first_kill (struck RebootAndDelete)) → ⊥ }
    ensures needless { AreNamed (with_kill [] 1 first_kill
        (weakened KillInstantly (TooFewLeft 0))) → ⊥ }
{
    too_mild();
    too_many_destroyed();
    fy_cluster::laws::rules_named();
}
