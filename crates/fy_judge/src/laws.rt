//! Laws of what `judge` answers, and the limit as a number.
ghost use Rattle.std.specs.Prelude.{◌≡◌};
ghost use Rattle.fy_judge.specs.declared.judge.TheConstants.{MOST_JUDGE_BYTES};
ghost use Rattle.fy_judge.specs.JudgeTexts.{TextIsOne};

/// Bytes have one answer: a text, or a refusal at one line for one fault.
#[tactic(auto, using(crate::proofs::JudgeOnce::judged_once))]
pub fn text_is_one()
    ensures { TextIsOne }
{
    fy_locality::laws::values_occur();
    fy_policy::text_laws::reading_is_settled();
}

/// The limit of this crate, as a number.
pub fn limits()
    ensures bytes { MOST_JUDGE_BYTES ≡ 1048576 }
{}
