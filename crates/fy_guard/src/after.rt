//! The engine behind `faultyard guard --after`: a guard goes on where an audit ends.
ghost use Rattle.std.specs.Prelude.{◌≡◌, ◌+◌, ◌⊎◌, Bool, Ok, Err, IfErr, IfSome, false, true};
ghost use Rattle.std.specs.Io.KnownBytes.{Appends};
ghost use Rattle.fy_lines.specs.Prefixes.{AppendsProperPrefix};
ghost use Rattle.fy_lines.specs.Readings.{ReadsAtMost};
ghost use Rattle.fy_audit.specs.declared.audit.TheConstants.{MOST_AUDIT_BYTES};
ghost use Rattle.fy_check.specs.CheckTexts.{HasVerdict};
ghost use Rattle.fy_streams.specs.Stops.{IfAuditFault, IsCheckStop, IsRunStop};
ghost use Rattle.fy_guard.specs.AfterTexts.{GoesOn, NoJournalOf};
ghost use Rattle.fy_guard.specs.AskedTexts.{AnswersFrom, EndsFrom};
ghost use Rattle.fy_guard.specs.GuardTexts.{AllAnswered, AnsweredBefore, AnsweredBeforeCut, AnsweredInTurn, AppendsAtLeast, FirstAnswered, ReadNothing};
ghost use Rattle.fy_run.specs.RunTexts.{IfRunRefusal};

use crate::going_on::cluster_after;
use crate::guard::answer_lines;
use fy_audit::MOST_AUDIT_BYTES;
use fy_check::{replay_audit, write_finding};
use fy_cluster::Config;
use fy_streams::Stop;
use std::alloc::Global;
use std::io::{BufRead, Read, Write};

/// Reads an audit to its end, checks it, and answers the lines of a script as a guard that goes on
/// from there: the answers to the lines are written, and no header. So the audit with all that is
/// written behind it, less what is told to questions, is one audit.
///
/// Where an entry of the audit isn't what the rules give, the line of `run_check` goes to another
/// writer, for what is written may stand behind the audit. The answer is whether the audit is
/// legal. No line is read before the audit is, to its end.
///
/// # Errors
///
/// `Audit` for an audit that is refused, and with the fault of a header for a legal one of the
/// first version; `Read` where its reader fails; `NoMemory`; `Write` where the other writer fails
/// or takes no byte: no line was read then, and nothing is out. Then those of `answer_lines`.
pub fn run_guard_after<A: Read, R: BufRead, W: Write, F: Write>(
    alloc: Global,
    config: &Config,
    questions: bool,
    audit: &mut A,
    reader: &mut R,
    writer: &mut W,
    found: &mut F,
) -> Result<bool, Stop>
    ensures answered { result ≡ Ok true → GoesOn config.now (A.remaining audit.old)
        (λ from. AllAnswered (AnswersFrom questions from) (R.remaining reader.old)
        (Appends (W.contents writer.old) (W.contents writer.new))) }
    ensures refuted { result ≡ Ok false → HasVerdict config.now (A.remaining audit.old) false
        (Appends (F.contents found.old) (F.contents found.new)) }
    ensures refused { IfErr result (λ stop. IfAuditFault stop (λ fault.
        IfSome (A.remaining audit.old) (λ bytes. NoJournalOf config.now bytes fault))) }
    ensures stopped { IfErr result (λ stop. IfRunRefusal stop
        (GoesOn config.now (A.remaining audit.old) (λ from.
        AnsweredBefore (EndsFrom questions from) (R.remaining reader.old) stop
        (Appends (W.contents writer.old) (W.contents writer.new))))) }
    ensures in_turn { (ReadNothing (R.remaining reader.old) (R.remaining reader.new)
        × W.contents writer.new ≡ W.contents writer.old)
        ⊎ GoesOn config.now (A.remaining audit.old) (λ from.
        AnsweredInTurn (AnswersFrom questions from)
        (R.remaining reader.old) (R.remaining reader.new)
        (AppendsAtLeast (W.contents writer.old) (W.contents writer.new))) }
    ensures read_fault { result ≡ Err Stop.Read →
        ReadsAtMost (A.remaining audit.old) (A.remaining audit.new) MOST_AUDIT_BYTES
        ⊎ GoesOn config.now (A.remaining audit.old) (λ from.
        AnsweredBeforeCut (AnswersFrom questions from)
        (R.remaining reader.old) (R.remaining reader.new)
        (Appends (W.contents writer.old) (W.contents writer.new))) }
    ensures no_memory { result ≡ Err Stop.NoMemory →
        (W.contents writer.new ≡ W.contents writer.old)
        ⊎ GoesOn config.now (A.remaining audit.old) (λ from.
        AnsweredInTurn (AnswersFrom questions from)
        (R.remaining reader.old) (R.remaining reader.new)
        (Appends (W.contents writer.old) (W.contents writer.new))) }
    ensures front_out { result ≡ Err Stop.Write →
        ((legal : Bool) × HasVerdict config.now (A.remaining audit.old) legal
        (AppendsProperPrefix (F.contents found.old) (F.contents found.new)))
        ⊎ GoesOn config.now (A.remaining audit.old) (λ from.
        FirstAnswered (AnswersFrom questions from) (R.remaining reader.old)
        (AppendsProperPrefix (W.contents writer.old) (W.contents writer.new))) }
    ensures no_other { IfErr result (λ stop. IsRunStop stop ⊎ IsCheckStop stop) }
    ensures audit_first { ReadNothing (R.remaining reader.old) (R.remaining reader.new)
        ⊎ F.contents found.new ≡ F.contents found.old }
    ensures no_further { ReadsAtMost (A.remaining audit.old) (A.remaining audit.new)
        (MOST_AUDIT_BYTES + 1) }
{
    let replayed = replay_audit(alloc, config, audit)?;
    let finding = replayed.finding();
    if finding.first_bad.is_some() {
        return write_finding(finding, found);
    }
    let cluster = cluster_after(replayed)?;
    answer_lines(alloc, cluster, questions, reader, writer)
}
