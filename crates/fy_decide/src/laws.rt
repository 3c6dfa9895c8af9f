//! Laws of verdicts, for the crates above.
ghost use Rattle.fy_decide.specs.Hardest.{VerdictAnswers, OneVerdictAnswers};
ghost use Rattle.fy_decide.specs.Verdicts.{RuleIsNamedForLess, StruckMayBeDestroyed};

/// No rule is named exactly where the ordered kind strikes.
pub fn rule_is_named_for_less()
    ensures { RuleIsNamedForLess }
{}

/// What strikes may destroy its targets.
pub fn struck_may_be_destroyed()
    ensures { StruckMayBeDestroyed }
{
    fy_policy::laws::test_is_satisfaction();
}

/// The verdict strikes with the hardest kind that nothing bars, and names the first rule that bars
/// the ordered kind; no other verdict does.
pub fn verdict_answers()
    ensures answers { VerdictAnswers }
    ensures one { OneVerdictAnswers }
{
    fy_locality::laws::processes_have_values();
    fy_policy::laws::test_is_satisfaction();
    fy_grants::laws::least_is_first_found();
}
