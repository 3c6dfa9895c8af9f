//! Questions in, and the lines of what is told out.
ghost use Rattle.std.specs.Prelude.{◌≡◌, ◌≢◌, IfOk, IfErr};
ghost use Rattle.std.specs.Ptr.{null_ptr};
ghost use Rattle.fy_c.specs.Questioning.{Asks, HasTold, IsToldText, NotTold};
ghost use Rattle.fy_c.specs.Statuses.{Answers, ending};
ghost use Rattle.fy_c.specs.declared.status.Status.TheVariants.{NoMemory};

use crate::acting::tell;
use crate::handle::FyGuard;
use crate::status::{Status, number_of};
use fy_asking::{Question, push_told_line, read_question};
use fy_cluster::ClusterState;
use fy_questions::answer;
use std::alloc::Global;

/// The line of what is told to a question, with its line feed.
///
/// # Errors
///
/// `NoMemory`.
fn told_text(alloc: Global, state: &ClusterState, question: &Question) -> Result<Vec<u8>, Status>
    ensures told { IfOk result (λ text. IsToldText state.now question.now text.items) }
    ensures err { IfErr result (λ status. status ≡ NoMemory) }
{
    let told = answer(alloc, state, question)?;
    let mut text = Vec::new(alloc);
    push_told_line(alloc, state.config(), &told, &mut text)?;
    Ok(text)
}

/// The line of what is told to the question of a line.
///
/// # Errors
///
/// In order: `LineTooLong`, `LineSyntax` and `Floor` for a line that is no question. `NoMemory` can
/// take the place of any but the first.
fn told_line(alloc: Global, state: &ClusterState, line: &[u8]) -> Result<Vec<u8>, Status>
    ensures told { IfOk result (λ text. HasTold state.now line.now text.items) }
    ensures err { IfErr result (NotTold line.now) }
{
    // rattle can't prove a `?` that passes a question on.
    match read_question(alloc, line) {
        Ok(question) => told_text(alloc, state, &question),
        Err(fault) => Err(Status::from(fault)),
    }
}

/// Writes that line into the front of a buffer, and its length to `told`.
///
/// # Errors
///
/// In order: those of [`told_line`]: then `told` stays. `Short` where the buffer is shorter than
/// the line.
fn ask_into(
    alloc: Global,
    state: &ClusterState,
    line: &[u8],
    buffer: &mut [u8],
    told: &mut usize,
) -> Result<(), Status>
    ensures { Asks state.now line.now buffer.old buffer.new told.old told.new (ending result) }
{
    let text = told_line(alloc, state, line)?;
    if tell(&text, buffer, told) {
        Ok(())
    } else {
        Err(Status::Short)
    }
}

/// Reads a line that asks, as `faultyard guard --questions` takes it, and writes the line of what is
/// told, with its line feed, into the front of a buffer; its length goes to `told`. Nothing of the
/// guard changes.
///
/// # Errors
///
/// In order: `LineTooLong`, `LineSyntax` and `Floor` for a line that is no question, where
/// `NoMemory` can take the place of any but the first; `Short` where the buffer is shorter than the
/// line of what is told, whose length goes to `told`. Nothing else changes, and after all but the
/// last `told` doesn't either.
#[unsafe(no_mangle)]
pub extern "C" fn fy_ask(
    alloc: Global,
    guard: &mut FyGuard,
    line: &[u8],
    buffer: &mut [u8],
    told: &mut usize,
) -> u32
    requires { guard.old.at ≢ null_ptr }
    ensures kept { guard.new.value ≡ guard.old.value }
    ensures place { guard.new.at ≡ guard.old.at }
    ensures asked { Answers result (Asks guard.old.value line.now
        buffer.old buffer.new told.old told.new) }
{
    let state = guard.cluster().asked_state();
    number_of(ask_into(alloc, state, line, buffer, told))
}
