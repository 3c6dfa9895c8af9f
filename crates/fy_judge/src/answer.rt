//! The answers to the asks.
ghost use Rattle.std.specs.Prelude.{◌≡◌, ◌<◌, List, length, IfOk};
ghost use Rattle.fy_judge.specs.declared.line.Ask.{Ask};
ghost use Rattle.fy_judge.specs.JudgeLines.{Input};
ghost use Rattle.fy_judge.specs.JudgeTexts.{answer_of, answer_line, answers_text, granted_after};
ghost use Rattle.fy_judge.specs.JudgeBooks.{RecordsGranted};
ghost use Rattle.fy_decide.specs.DeadBook.{IsFresh};

use crate::input::Input;
use crate::line::Ask;
use fy_decide::DeadBook;
use fy_locality::{MOST_PROCESSES, ProcSet};
use std::alloc::{AllocError, Global};

/// What is answered to an ask.
#[derive(Clone, Copy, PartialEq, Eq, Debug)]
pub(crate) enum Answer {
    Yes,
    No,
    WasGone,
}

impl Answer {
    /// The line of an answer.
    fn line(self) -> &'static str
        ensures { result.now ≡ answer_line self }
    {
        match self {
            Answer::Yes => "yes\n",
            Answer::No => "no\n",
            Answer::WasGone => "gone\n",
        }
    }
}

/// The answer to one ask, whose loss is recorded where the answer is yes.
fn answer_ask(dead: &mut DeadBook, ask: Ask) -> Answer
    requires { ask.process.0 < MOST_PROCESSES }
    ensures { (i : Input) (granted : List Ask) → RecordsGranted i granted dead.old →
        ask.process.0 < length i.processes → (result ≡ answer_of i granted ask)
        × RecordsGranted i (granted_after granted ask result) dead.new }
{
    if !dead.left().has(ask.process) {
        return Answer::WasGone;
    }
    let mut set = ProcSet::empty();
    set.put(ask.process);
    if !dead.may_destroy(&set, ask.loss) {
        return Answer::No;
    }
    dead.strike(&set, ask.loss);
    Answer::Yes
}

/// The line of each answer, in order.
pub(crate) fn answer_asks(
    alloc: Global,
    input: &Input,
    dead: &mut DeadBook,
) -> Result<Vec<u8>, AllocError>
    requires { IsFresh input.now.processes input.now.policies dead.old }
    ensures { IfOk result (λ text. text.items ≡ answers_text input.now) }
{
    // A map has at most 1024 processes, so the number of each ask fits a set.
    let _processes = input.map().len();
    let mut text = Vec::new(alloc);
    for ask in input.asks() {
        let answer = answer_ask(dead, *ask);
        text.extend_from_slice(answer.line().as_bytes())?;
    }
    Ok(text)
}
