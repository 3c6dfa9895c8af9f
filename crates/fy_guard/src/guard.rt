//! The engine behind `faultyard guard`: a line in that is an act or, where questions are taken, a
//! question, and its answer out before the next line is asked for. What is out less the answers to
//! questions is what is out of the acts alone.
ghost use Rattle.std.specs.Prelude.{◌≡◌, ◌⊎◌, ℕ, List, true, false, Ok, Err, IfOk, IfErr, OnOk, OnErr, vec_capacity};
ghost use Rattle.std.specs.Io.KnownBytes.{Appends, IsAtEnd};
ghost use Rattle.fy_lines.specs.Prefixes.{AppendsProperPrefix};
ghost use Rattle.fy_lines.specs.Readings.{ReadsLine, ReadsWithinLine, ReadsInsideLine};
ghost use Rattle.fy_spelling.specs.declared.command.TheConstants.{MOST_LINE_BYTES};
ghost use Rattle.fy_acts.specs.declared.version.Version.TheVariants.{Second};
ghost use Rattle.fy_audit.specs.AuditText.{header};
ghost use Rattle.fy_audit.specs.declared.script.ScriptFault.TheVariants.{Line};
ghost use Rattle.fy_guard.specs.AskedTexts.{Answers, AnswersFrom, Ends, EndsFrom, IsAnswer, LacksAnswer, NoAnswer, number_behind};
ghost use Rattle.fy_guard.specs.GuardTexts.{AllAnswered, AnsweredBefore, FirstAnswered, AnsweredInTurn, AnsweredBeforeCut, ReadNothing, AppendsAtLeast, NoLine, answer_stop};
ghost use Rattle.fy_run.specs.RunTexts.{IfRunRefusal};
ghost use Rattle.fy_streams.specs.Stops.{IsRunStop};

use fy_answers::{AnswerFault, answer, handle};
use fy_audit::{LineFault, MOST_LINE_BYTES, ScriptFault, Version, header_text};
use fy_cluster::{ClusterState, Config};
use fy_lines::{OutputFault, next_line, write_bytes};
use fy_streams::{Stop, input_stop};
use std::alloc::Global;
use std::io::{BufRead, Write};

/// The stop for a faulty line.
fn line_stop(number: u32, fault: LineFault) -> Stop
    ensures { result ≡ Stop.Script (Line number fault) }
{
    Stop::Script {
        fault: ScriptFault::Line { number, fault },
    }
}

/// The stop for a line that has no answer.
fn answer_stop(number: u32, fault: AnswerFault) -> Stop
    ensures { result ≡ answer_stop number fault }
{
    match fault {
        AnswerFault::Line(fault) => line_stop(number, fault),
        AnswerFault::JournalFull => Stop::JournalFull,
        AnswerFault::NoMemory | AnswerFault::Unwritten => Stop::NoMemory,
    }
}

/// The number of a line behind so many others. Numbers end at the greatest of 32 bits.
fn number_behind(lines: u64) -> u32
    ensures { result ≡ number_behind lines }
{
    lines.saturating_add(1).min(u32::MAX as u64) as u32
}

/// Whether there is a next line, which has this number. It goes into the buffer, in place of what
/// that has.
fn read_line<R: BufRead>(reader: &mut R, line: &mut Vec<u8>, number: u32) -> Result<bool, Stop>
    ensures line { result ≡ Ok true →
        ReadsLine (R.remaining reader.old) (R.remaining reader.new) line.new.items }
    ensures end { result ≡ Ok false → IsAtEnd (R.remaining reader.old) }
    ensures err { IfErr result (NoLine (R.remaining reader.old) number) }
    ensures cut { IfErr result (λ stop. stop ≡ Stop.Read →
        ReadsInsideLine (R.remaining reader.old) (R.remaining reader.new) MOST_LINE_BYTES) }
    ensures no_further { ReadsWithinLine (R.remaining reader.old) (R.remaining reader.new) }
{
    match next_line(reader, line, MOST_LINE_BYTES) {
        Ok(read) => Ok(read),
        Err(fault) => Err(input_stop(fault, line_stop(number, LineFault::TooLong))),
    }
}

/// Answers a line, and puts the answer into a text, in place of what that has.
///
/// # Errors
///
/// Those of `handle` where questions are taken, else those of `answer`.
fn put_answer(
    alloc: Global,
    cluster: &mut ClusterState,
    questions: bool,
    line: &[u8],
    text: &mut Vec<u8>,
) -> Result<(), AnswerFault>
    ensures answered { OnOk result
        (IsAnswer questions cluster.old cluster.new line.now text.new.items) }
    ensures err { IfErr result (LacksAnswer questions cluster.old cluster.new line.now
        (vec_capacity text.old)) }
{
    if questions {
        handle(alloc, cluster, line, text)
    } else {
        answer(alloc, cluster, line, text)
    }
}

/// Answers a line, which has this number, and writes the answer with one call of `write` where the
/// writer takes it whole. The buffer is for the answer.
///
/// # Errors
///
/// `Script` for a line that is no command and, where questions are taken, no question;
/// `JournalFull` for a command where the journal has as many entries as it may have, and
/// `NoMemory`: nothing is written then. `Write` where the writer fails or takes no byte: a front of
/// the answer is out, and never all of it.
fn answer_line<W: Write>(
    alloc: Global,
    cluster: &mut ClusterState,
    questions: bool,
    line: &[u8],
    number: u32,
    text: &mut Vec<u8>,
    writer: &mut W,
) -> Result<(), Stop>
    ensures answered { OnOk result ((text : List ℕ)
        × IsAnswer questions cluster.old cluster.new line.now text
        × Appends (W.contents writer.old) (W.contents writer.new) text) }
    ensures err { IfErr result (NoAnswer questions cluster.old cluster.new line.now number
        (W.contents writer.old) (W.contents writer.new)) }
{
    // No `From` says the stop, since a fault doesn't have the line's number.
    match put_answer(alloc, cluster, questions, line, text) {
        Ok(()) => {}
        Err(fault) => return Err(answer_stop(number, fault)),
    }
    write_bytes(writer, text)?;
    Ok(())
}

/// Reads lines one by one, and answers each at once: its command is applied to the cluster, or its
/// question answered, and the answer is written before the next line is asked for. Each goes out
/// with one call of `write`, where the writer takes it whole.
///
/// # Errors
///
/// `Script` at the first line that is no command and, where questions are taken, no question;
/// `JournalFull` at the first command for which the journal has no place: what is out are then the
/// answers to the lines before. `Read` where the reader fails: they are then those to the lines
/// before the one that was being read. `NoMemory` where an allocation fails, or where 2^64 - 1
/// lines were answered, which takes questions: so are they then. `Write` where the writer fails or
/// takes no byte: a front of such answers is out, and never all of them.
pub(crate) fn answer_lines<R: BufRead, W: Write>(
    alloc: Global,
    mut cluster: ClusterState,
    questions: bool,
    reader: &mut R,
    writer: &mut W,
) -> Result<bool, Stop>
    ensures answered { IfOk result (λ done. (done ≡ true)
        × AllAnswered (AnswersFrom questions cluster) (R.remaining reader.old)
        (Appends (W.contents writer.old) (W.contents writer.new))) }
    ensures refused { IfErr result (λ stop. IfRunRefusal stop
        (AnsweredBefore (EndsFrom questions cluster) (R.remaining reader.old) stop
        (Appends (W.contents writer.old) (W.contents writer.new)))) }
    ensures in_turn { AnsweredInTurn (AnswersFrom questions cluster)
        (R.remaining reader.old) (R.remaining reader.new)
        (AppendsAtLeast (W.contents writer.old) (W.contents writer.new)) }
    ensures read_fault { result ≡ Err Stop.Read →
        AnsweredBeforeCut (AnswersFrom questions cluster)
        (R.remaining reader.old) (R.remaining reader.new)
        (Appends (W.contents writer.old) (W.contents writer.new)) }
    ensures no_memory { result ≡ Err Stop.NoMemory →
        AnsweredInTurn (AnswersFrom questions cluster)
        (R.remaining reader.old) (R.remaining reader.new)
        (Appends (W.contents writer.old) (W.contents writer.new)) }
    ensures front_out { result ≡ Err Stop.Write →
        FirstAnswered (AnswersFrom questions cluster) (R.remaining reader.old)
        (AppendsProperPrefix (W.contents writer.old) (W.contents writer.new)) }
    ensures no_other { IfErr result IsRunStop }
{
    cluster.survives();
    cluster.config().invariant();
    let (mut line, mut text) = (Vec::new(alloc), Vec::new(alloc));
    let mut answered = 0u64;
    'lines: loop {
        if answered == u64::MAX {
            return Err(Stop::NoMemory);
        }
        let number = number_behind(answered);
        if !read_line(reader, &mut line, number)? {
            return Ok(true);
        }
        answer_line(
            alloc,
            &mut cluster,
            questions,
            &line,
            number,
            &mut text,
            writer,
        )?;
        answered += 1;
    }
}

/// Writes the header of an audit.
///
/// # Errors
///
/// `OutputFault` where the writer fails or takes no byte: a front of it is out, and never all.
fn write_header<W: Write>(writer: &mut W) -> Result<(), OutputFault>
    ensures out { OnOk result
        (Appends (W.contents writer.old) (W.contents writer.new) (header Second)) }
    ensures short { OnErr result
        (AppendsProperPrefix (W.contents writer.old) (W.contents writer.new) (header Second)) }
{
    write_bytes(writer, header_text(Version::Second).as_bytes())
}

/// Answers the lines of a script as [`answer_lines`] does, on a new cluster of this configuration.
/// The header of the audit comes first, so that what is out, less what is told to questions, is an
/// audit at every moment.
///
/// # Errors
///
/// Those of `answer_lines`: the header stands before the answers then, and `NoMemory` and `Write`
/// may come before it is out.
pub fn run_guard<R: BufRead, W: Write>(
    alloc: Global,
    config: &Config,
    questions: bool,
    reader: &mut R,
    writer: &mut W,
) -> Result<bool, Stop>
    ensures answered { IfOk result (λ done. (done ≡ true)
        × AllAnswered (Answers questions config.now) (R.remaining reader.old)
        (Appends (W.contents writer.old) (W.contents writer.new))) }
    ensures refused { IfErr result (λ stop. IfRunRefusal stop
        (AnsweredBefore (Ends questions config.now) (R.remaining reader.old) stop
        (Appends (W.contents writer.old) (W.contents writer.new)))) }
    ensures in_turn { ReadNothing (R.remaining reader.old) (R.remaining reader.new)
        ⊎ AnsweredInTurn (Answers questions config.now)
        (R.remaining reader.old) (R.remaining reader.new)
        (AppendsAtLeast (W.contents writer.old) (W.contents writer.new)) }
    ensures read_fault { result ≡ Err Stop.Read →
        AnsweredBeforeCut (Answers questions config.now)
        (R.remaining reader.old) (R.remaining reader.new)
        (Appends (W.contents writer.old) (W.contents writer.new)) }
    ensures no_memory { result ≡ Err Stop.NoMemory →
        (W.contents writer.new ≡ W.contents writer.old)
        ⊎ AnsweredInTurn (Answers questions config.now)
        (R.remaining reader.old) (R.remaining reader.new)
        (Appends (W.contents writer.old) (W.contents writer.new)) }
    ensures front_out { result ≡ Err Stop.Write →
        FirstAnswered (Answers questions config.now) (R.remaining reader.old)
        (AppendsProperPrefix (W.contents writer.old) (W.contents writer.new)) }
    ensures no_other { IfErr result IsRunStop }
{
    let config = config.try_copy(alloc)?;
    let cluster = ClusterState::make(alloc, config)?;
    write_header(writer)?;
    answer_lines(alloc, cluster, questions, reader, writer)
}
