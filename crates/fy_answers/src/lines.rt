//! A line of a script in, the line of its entry out.
ghost use Rattle.std.specs.Prelude.{IfErr, OnOk, vec_capacity};
ghost use Rattle.fy_answers.specs.Answers.{HasNoAnswer, IsAnswered};

use crate::enters::Enters;
use crate::fault::AnswerFault;
use fy_spelling::read_command;
use std::alloc::Global;

/// Makes the act that a line of a script asks for, and puts the line of its entry into a text, in
/// place of what that has.
///
/// # Errors
///
/// In this order: `Line` for a line that is no command, `JournalFull` where the journal is at its
/// limit; `NoMemory` can take the place of all but `TooLong`. Nothing changed then. `Unwritten`
/// where the act is made and an allocation for the line of its entry failed, which has more bytes
/// than the text has room for.
pub fn answer<C: Enters>(
    alloc: Global,
    cluster: &mut C,
    line: &[u8],
    text: &mut Vec<u8>,
) -> Result<(), AnswerFault>
    ensures answered { OnOk result
        (IsAnswered (C.cluster cluster.old) (C.cluster cluster.new) line.now text.new.items) }
    ensures err { IfErr result (HasNoAnswer (C.cluster cluster.old) (C.cluster cluster.new)
        line.now (vec_capacity text.old)) }
{
    let (by, act) = read_command(alloc, line)?.into_parts();
    cluster.enter_line(by, act, text)
}
