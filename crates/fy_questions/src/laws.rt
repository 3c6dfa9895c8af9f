//! What holds of what is told, over the definitions alone.
ghost use Rattle.fy_questions.specs.Told.{JudgedIsReplied, KillableIsJudged};

/// What `judge` is told is the reply in the entry that the act would make now.
pub fn judged_is_replied()
    ensures { JudgedIsReplied }
{}

/// The kind that `killable` is told of a process is the one that strikes it, where it is killed by
/// its name by any kind.
pub fn killable_is_judged()
    ensures { KillableIsJudged }
{}
