//! Laws of what `check` finds, over the definitions alone.
ghost use Rattle.fy_check.specs.CheckTexts.{FindingIsOne};

/// Bytes have one finding: they are no audit for one fault, or an audit that is legal, or one with
/// a first bad entry.
pub fn a_finding_is_one()
    ensures { FindingIsOne }
{
    fy_audit::laws::audits_are_unambiguous();
    fy_replay::laws::one_answer();
}
