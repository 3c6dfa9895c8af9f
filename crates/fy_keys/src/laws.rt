//! The law of the keys of a history that was read.
ghost use Rattle.fy_keys.specs.Judged.{ReadAreJudged};

/// What is judged of a history that was read is true of each of its keys: where it is linearizable
/// its operations have an order, with the texts that the history has as values; else they have none,
/// and those that are named show it. All keys are judged linearizable exactly where all are.
pub fn read_are_judged()
    ensures { ReadAreJudged }
{}
