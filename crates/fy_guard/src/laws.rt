//! Laws of a guard that goes on, over the definitions alone.
ghost use Rattle.fy_guard.specs.AskedTexts.{ActsAlone, ActsAloneFrom};
ghost use Rattle.fy_guard.specs.AfterTexts.{OneAudit, OneGuard};
ghost use Rattle.fy_guard.specs.Cuts.{WholeIsAudit};

/// An audit and what a guard writes behind it are one audit of a legal journal: that of the acts of
/// both. It is what one guard would have answered to all lines.
pub fn it_is_one_guard()
    ensures audit { OneAudit }
    ensures guard { OneGuard }
{}

/// Where an audit is refused for half a last line, the whole lines before it are an audit.
pub fn what_is_whole_is_an_audit()
    ensures { WholeIsAudit }
{
    fy_spelling::laws::a_text_is_a_line();
}

/// What a guard that is asked questions writes, less the lines that begin as what is told does, is
/// what a guard writes of the acts alone: from the start on their audit, and behind an audit what
/// goes on from there.
pub fn acts_are_answered_alone()
    ensures start { ActsAlone }
    ensures after { ActsAloneFrom }
{}
