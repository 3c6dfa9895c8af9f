//! Laws of work at a desk and of turns of a part, over the definitions alone.
ghost use Rattle.fy_actors.specs.Work.{NoneIsWork, WorkAddsUp, ReceiptsStayWhole, OthersAddNothing};
ghost use Rattle.fy_actors.specs.Parts.{TurnsKeepTo, OthersChangeNoPart, AnswersTell};

/// To do nothing is work, and so is work after work: for actors of one's own that make no act in a
/// turn, or several.
#[tactic(auto, using(crate::proofs::Adding::none_is_work, crate::proofs::Adding::work_adds_up))]
pub fn work_adds_up()
    ensures none { NoneIsWork }
    ensures both { WorkAddsUp }
{}

/// Receipts that are all the entries of their actor still are after work.
pub fn receipts_stay_whole()
    ensures { ReceiptsStayWhole }
{}

/// Work adds no entry of anybody else.
#[tactic(auto, using(crate::proofs::Adding::others_add_nothing))]
pub fn others_add_nothing()
    ensures { OthersAddNothing }
{}

/// Who keeps to a part still does after a turn of it, and after entries of others.
pub fn parts_are_kept()
    ensures turns { TurnsKeepTo }
    ensures others { OthersChangeNoPart }
{}

/// The answer of a turn tells whether an act was made, whether one is left, and whether the
/// journal is full.
pub fn answers_tell()
    ensures { AnswersTell }
{}
