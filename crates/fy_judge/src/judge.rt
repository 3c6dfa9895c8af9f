//! The engine behind `faultyard judge`: bytes in, answers out.
ghost use Rattle.std.specs.Prelude.{◌≡◌, ◌≤◌, ◌≢◌, ◌+◌, ℕ, List, length, IfOk, IfErr, IfSome, true, ◌<◌};
ghost use Rattle.std.specs.Io.KnownBytes.{Appends};
ghost use Rattle.fy_lines.specs.Prefixes.{AppendsProperPrefix};
ghost use Rattle.fy_lines.specs.Readings.{ReadsAtMost};
ghost use Rattle.fy_judge.specs.JudgeTexts.{IsFaultless, Judges, IfJudgeRefusal, IfUnmet, unmet_stop};
ghost use Rattle.fy_judge.specs.JudgeViews.{line_stop_of};
ghost use Rattle.fy_judge.specs.declared.judge.TheConstants.{MOST_JUDGE_BYTES};

use crate::answer::answer_asks;
use crate::input::{Input, TakeFault};
use crate::stop::{JudgeFault, JudgeStop};
use fy_decide::{DeadBook, MakeFault};
use fy_lines::{first_line, read_limited, write_bytes};
use std::alloc::Global;
use std::io::{Read, Write};

/// The most bytes that an input of `judge` has.
pub const MOST_JUDGE_BYTES: usize = 1_048_576;

/// The stop for a line that is not taken.
fn line_stop(line: u32, fault: TakeFault) -> JudgeStop
    ensures stop { result ≡ line_stop_of line fault }
{
    match fault {
        TakeFault::Fault(fault) => JudgeStop::Line { line, fault },
        TakeFault::NoMemory => JudgeStop::NoMemory,
    }
}

/// What all lines say, or the first fault of the first faulty one.
fn read_lines(alloc: Global, bytes: &[u8]) -> Result<Input, JudgeStop>
    requires { length bytes.now ≤ MOST_JUDGE_BYTES }
    ensures read { IfOk result (IsFaultless bytes.now) }
    ensures refused { IfErr result (λ stop. IfJudgeRefusal stop (Judges bytes.now (Err stop))) }
    ensures no_other { IfErr result (λ stop. (stop ≢ JudgeStop.Read) × (stop ≢ JudgeStop.Write)) }
{
    let mut input = Input::new(alloc);
    let mut rest = bytes;
    let mut number = 0;
    while !rest.is_empty() {
        let (line, next) = first_line(rest);
        number += 1;
        // The stop has the line's number, which no `From` of the fault could know.
        if let Err(fault) = input.take_line(alloc, line) {
            return Err(line_stop(number, fault));
        }
        rest = next;
    }
    Ok(input)
}

/// The stop for policies and processes that make no book.
fn dead_book_stop(fault: MakeFault) -> JudgeStop
    requires { IfUnmet fault (λ k. k < 8) }
    ensures stop { result ≡ unmet_stop fault }
{
    match fault {
        MakeFault::Unmet { index } => JudgeStop::Line {
            line: index as u32 + 1,
            fault: JudgeFault::PolicyUnmet,
        },
        MakeFault::NoMemory => JudgeStop::NoMemory,
    }
}

/// The answers to what all lines say.
fn answers(alloc: Global, input: &Input) -> Result<Vec<u8>, JudgeStop>
    ensures answered { IfOk result
        (λ text. (bytes : List ℕ) → IsFaultless bytes input.now → Judges bytes (Ok text.items)) }
    ensures refused { IfErr result
        (λ stop. (bytes : List ℕ) → IsFaultless bytes input.now →
        IfJudgeRefusal stop (Judges bytes (Err stop))) }
    ensures no_other { IfErr result (λ stop. (stop ≢ JudgeStop.Read) × (stop ≢ JudgeStop.Write)) }
{
    // The line of a policy that isn't met fits its number because there are at most eight, which no
    // `From` of the fault could know.
    match DeadBook::make(alloc, input.map(), input.policies()) {
        Ok(mut dead) => Ok(answer_asks(alloc, input, &mut dead)?),
        Err(fault) => Err(dead_book_stop(fault)),
    }
}

/// The answers to the bytes of an input.
fn answer_bytes(alloc: Global, bytes: &[u8]) -> Result<Vec<u8>, JudgeStop>
    requires { length bytes.now ≤ MOST_JUDGE_BYTES }
    ensures answered { IfOk result (λ text. Judges bytes.now (Ok text.items)) }
    ensures refused { IfErr result (λ stop. IfJudgeRefusal stop (Judges bytes.now (Err stop))) }
    ensures no_other { IfErr result (λ stop. (stop ≢ JudgeStop.Read) × (stop ≢ JudgeStop.Write)) }
{
    let input = read_lines(alloc, bytes)?;
    answers(alloc, &input)
}

/// Reads policies, processes and asks from the reader to its end, and writes a line for each ask.
///
/// The whole input is read and judged before the first byte is written, and at most one byte past
/// its limit is read. An `Ok` is always `true`: the engines that check an audit say `false` of one
/// that isn't legal.
///
/// # Errors
///
/// `TooLong` over 1,048,576 bytes, and `Line` for the first faulty line: nothing is written then.
/// `Read` where the reader fails, `NoMemory` where an allocation failed: nothing is written then
/// either. `Write` where the writer fails or takes no byte: a front of the answers is out, and
/// never all of them.
#[tactic(auto, using(crate::proofs::LineLemmas::known_long))]
pub fn run_judge<R: Read, W: Write>(
    alloc: Global,
    reader: &mut R,
    writer: &mut W,
) -> Result<bool, JudgeStop>
    ensures done { IfOk result
        (λ done. (done ≡ true) × IfSome (R.remaining reader.old)
        (λ bytes. (text : List ℕ) × Judges bytes (Ok text)
        × Appends (W.contents writer.old) (W.contents writer.new) text)) }
    ensures refused { IfErr result
        (λ stop. IfJudgeRefusal stop (IfSome (R.remaining reader.old)
        (λ bytes. Judges bytes (Err stop)))) }
    ensures nothing_out { IfErr result
        (λ stop. stop ≢ JudgeStop.Write → W.contents writer.new ≡ W.contents writer.old) }
    ensures front_out { result ≡ Err JudgeStop.Write →
        IfSome (R.remaining reader.old)
        (λ bytes. (text : List ℕ) × Judges bytes (Ok text)
        × AppendsProperPrefix (W.contents writer.old) (W.contents writer.new) text) }
    ensures read_fault { result ≡ Err JudgeStop.Read →
        ReadsAtMost (R.remaining reader.old) (R.remaining reader.new) MOST_JUDGE_BYTES }
    ensures no_further { ReadsAtMost (R.remaining reader.old) (R.remaining reader.new)
        (MOST_JUDGE_BYTES + 1) }
{
    let bytes = read_limited(alloc, reader, MOST_JUDGE_BYTES)?;
    let text = answer_bytes(alloc, &bytes)?;
    write_bytes(writer, &text)?;
    Ok(true)
}
