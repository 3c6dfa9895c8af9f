//! Laws of what checking a journal answers.
ghost use Rattle.fy_replay.specs.Check.{OneAnswer, LegalIsOk};

/// A journal has one answer, and that to a legal journal is Ok.
pub fn one_answer()
    ensures same { OneAnswer }
    ensures legal { LegalIsOk }
{
    fy_cluster::laws::one_entry_more();
}
