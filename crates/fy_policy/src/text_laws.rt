//! Laws of the texts of policies.
ghost use Rattle.fy_policy.specs.Laws.{TextIsOfOnePolicy, TextIsShort, TextReadsBack, ReadingIsSettled};

/// No text of a policy begins the text of another: what bytes begin with is one policy at most.
pub fn text_is_of_one_policy()
    ensures { TextIsOfOnePolicy }
{}

/// The text of a policy within the limits isn't too long to be read.
pub fn text_is_short()
    ensures { TextIsShort }
{}

/// A policy's own text reads as that policy.
pub fn text_reads_back()
    ensures { TextReadsBack }
{}

/// Where no allocation fails, what a text reads as is settled by its bytes.
pub fn reading_is_settled()
    ensures { ReadingIsSettled }
{}
