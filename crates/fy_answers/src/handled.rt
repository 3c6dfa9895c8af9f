//! A line in that is an act or a question, its one answer out.
ghost use Rattle.std.specs.Prelude.{◌≡◌, ◌++◌, ◌∷◌, [], ℕ, List, IfErr, IfOk, OnOk, vec_capacity};
ghost use Rattle.fy_answers.specs.Answers.{EndsLine, IsHandled, IsUnhandled};
ghost use Rattle.fy_answers.specs.declared.fault.AnswerFault.TheVariants.{NoMemory};
ghost use Rattle.fy_lines.specs.Lines.{IsLine};
ghost use Rattle.fy_asking.specs.ToldTexts.{IsToldLine};
ghost use Rattle.fy_questions.specs.Told.{IsTold};
ghost use Rattle.fy_questions.specs.declared.told.Told.{Told};

use crate::enters::Enters;
use crate::fault::AnswerFault;
use fy_asking::{Question, Request, push_told_line, read_request};
use fy_cluster::ClusterState;
use fy_questions::answer as answer_question;
use std::alloc::Global;

/// Puts the line of what is told to a question into a text, in place of what that has.
///
/// # Errors
///
/// `NoMemory`.
fn tell(
    alloc: Global,
    cluster: &ClusterState,
    question: &Question,
    text: &mut Vec<u8>,
) -> Result<(), AnswerFault>
    ensures told { OnOk result ((told : Told) × (line : List ℕ)
        × IsTold cluster.now question.now told × IsToldLine cluster.now.setup told line
        × IsLine line × (text.new.items ≡ line ++ 10 ∷ [])) }
    ensures err { IfErr result (λ fault. fault ≡ NoMemory) }
{
    let told = answer_question(alloc, cluster, question)?;
    push_told_line(alloc, cluster.config(), &told, text)?;
    Ok(())
}

/// Answers a line, and puts the answer into a text, in place of what that has: the line of the
/// entry that its act makes, or of what is told to its question.
///
/// # Errors
///
/// `Line` for a line that is neither a command nor a question. Then those of [`answer`] for a
/// command, and `NoMemory` for a question.
///
/// [`answer`]: crate::answer
pub fn handle(
    alloc: Global,
    cluster: &mut ClusterState,
    line: &[u8],
    text: &mut Vec<u8>,
) -> Result<(), AnswerFault>
    ensures handled { OnOk result
        (IsHandled cluster.old cluster.new line.now text.new.items) }
    ensures ends { OnOk result (EndsLine text.new.items) }
    ensures err { IfErr result (IsUnhandled cluster.old cluster.new line.now
        (vec_capacity text.old)) }
{
    match read_request(alloc, line)? {
        Request::Act(command) => {
            let (by, act) = command.into_parts();
            cluster.enter_line(by, act, text)
        }
        Request::Ask(question) => tell(alloc, cluster, &question, text),
    }
}
