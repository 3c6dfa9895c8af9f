//! The engine behind `faultyard verdict`.
ghost use Rattle.std.specs.Prelude.{◌≡◌, ◌≢◌, ◌⊎◌, ◌+◌, ◌<◌, ◌^◌, ℕ, List, Option, Ok, Err, IfOk, IfErr, OnOk, OnErr, IfSome, is_some, false, true};
ghost use Rattle.std.specs.Io.KnownBytes.{Appends};
ghost use Rattle.fy_audit.specs.declared.audit.TheConstants.{MOST_AUDIT_BYTES};
ghost use Rattle.fy_check.specs.CheckTexts.{HasVerdict, IfFound};
ghost use Rattle.fy_cluster.specs.Setup.{Setup};
ghost use Rattle.fy_histories.specs.Stops.{TellsHistory, IsHistoryStop};
ghost use Rattle.fy_lines.specs.Prefixes.{AppendsProperPrefix};
ghost use Rattle.fy_lines.specs.Readings.{ReadsAtMost};
ghost use Rattle.fy_verdict.specs.Found.{known_of, worst_of};
ghost use Rattle.fy_verdict.specs.Told.{Tells, TellsBoth, TellsRefusal, IfAuditFails, IsVerdictStop};

use crate::findings::findings_of;
use crate::spelling::Spelling;
use crate::watched::{Watched, watch_audit};
use fy_audit::MOST_AUDIT_BYTES;
use fy_check::{Finding, write_finding};
use fy_cluster::Config;
use fy_histories::HistoriesStop;
use fy_history::{Known, read_history};
use fy_holders::Outages;
use fy_lines::write_bytes;
use fy_records::Counts;
use fy_streams::Stop;
use std::alloc::Global;
use std::io::{BufRead, Read, Write};

/// What a history comes to: the worst of its verdicts.
#[derive(Clone, Copy, PartialEq, Eq, Debug)]
pub enum Outcome {
    /// The audit isn't legal.
    NotLegal,
    /// A record is lost.
    Lost,
    /// A read told a value that nobody wrote.
    Wrong,
    /// A whole process lacks a record.
    Missing,
    /// A record is unreadable.
    Unreadable,
    /// A record was stale.
    Stale,
    /// None of these.
    Kept,
}

/// The worst of the verdicts that were counted.
fn worst_of(counts: &Counts) -> Outcome
    ensures { result ≡ worst_of counts.now }
{
    if counts.lost > 0 {
        Outcome::Lost
    } else if counts.wrong > 0 || counts.unwritten > 0 {
        Outcome::Wrong
    } else if counts.missing > 0 {
        Outcome::Missing
    } else if counts.unreadable > 0 {
        Outcome::Unreadable
    } else if counts.stale > 0 {
        Outcome::Stale
    } else {
        Outcome::Kept
    }
}

/// Writes the line of an audit that isn't legal.
fn refute<W: Write>(finding: Finding, writer: &mut W) -> Result<Outcome, HistoriesStop>
    requires { is_some finding.first_bad ≡ true }
    ensures outcome { IfOk result (λ outcome. outcome ≡ Outcome.NotLegal) }
    ensures stop { IfErr result (λ stop. stop ≡ HistoriesStop.Other Stop.Write) }
    ensures refuted { (setup : Setup) (known : Option (List ℕ)) → IfFound setup known finding →
        OnOk result (HasVerdict setup known false
        (Appends (W.contents writer.old) (W.contents writer.new))) }
    ensures front_out { (setup : Setup) (known : Option (List ℕ)) → IfFound setup known finding →
        OnErr result (HasVerdict setup known false
        (AppendsProperPrefix (W.contents writer.old) (W.contents writer.new))) }
{
    write_finding(finding, writer)?;
    Ok(Outcome::NotLegal)
}

/// Reads a history to its end, beside an audit of which all is noted, and writes what became of its
/// records.
fn tell<S: Spelling, R: BufRead, W: Write>(
    alloc: Global,
    outages: &mut Outages,
    known: Known,
    form: &S,
    reader: &mut R,
    writer: &mut W,
) -> Result<Outcome, HistoriesStop>
    requires { known.processes < 2 ^ 16 }
    ensures told { IfOk result (λ outcome.
        known ≡ known_of outages.old.setup outages.old.journal → IfSome (R.remaining reader.old)
        (λ bytes. Tells outages.old.setup outages.old.journal bytes (S.spells form.now) outcome
        (Appends (W.contents writer.old) (W.contents writer.new)))) }
    ensures legal { IfOk result (λ outcome. outcome ≢ Outcome.NotLegal) }
    ensures refused { IfErr result (λ stop. IfSome (R.remaining reader.old) (λ bytes.
        TellsHistory known bytes stop)) }
    ensures nothing_out { IfErr result (λ stop. stop ≢ HistoriesStop.Other Stop.Write →
        W.contents writer.new ≡ W.contents writer.old) }
    ensures front_out { result ≡ Err (HistoriesStop.Other Stop.Write) → (outcome : Outcome)
        × (known ≡ known_of outages.old.setup outages.old.journal → IfSome (R.remaining reader.old)
        (λ bytes. Tells outages.old.setup outages.old.journal bytes (S.spells form.now) outcome
        (AppendsProperPrefix (W.contents writer.old) (W.contents writer.new)))) }
    ensures no_other { IfErr result IsHistoryStop }
{
    let history = read_history(alloc, known, reader)?;
    let findings = findings_of(alloc, outages, &history, known)?;
    let text = form.spell(alloc, &history.names, &findings)?;
    write_bytes(writer, &text)?;
    Ok(worst_of(&findings.counts))
}

/// Reads an audit to its end and checks it, reads a history to its end, and writes what became of
/// its records. Where an entry isn't what the rules give, the line of `run_check` is written in
/// place of that, and the history isn't read.
///
/// All is read and judged before the first byte is written.
///
/// # Errors
///
/// The stops of `run_check` for the audit. `Line` for the first faulty line of the history, `Read`
/// where a reader fails, `NoMemory` where an allocation fails: nothing is written then. `Write`
/// where the writer fails or takes no byte: a front of the text is out, and never all of it.
pub fn run_verdict<S: Spelling, A: Read, R: BufRead, W: Write>(
    alloc: Global,
    config: &Config,
    form: &S,
    audit: &mut A,
    reader: &mut R,
    writer: &mut W,
) -> Result<Outcome, HistoriesStop>
    ensures told { IfOk result (λ outcome. outcome ≢ Outcome.NotLegal →
        TellsBoth config.now (A.remaining audit.old) (R.remaining reader.old) (S.spells form.now)
        outcome (Appends (W.contents writer.old) (W.contents writer.new))) }
    ensures refuted { result ≡ Ok Outcome.NotLegal →
        HasVerdict config.now (A.remaining audit.old) false
        (Appends (W.contents writer.old) (W.contents writer.new)) }
    ensures refused { IfErr result
        (TellsRefusal config.now (A.remaining audit.old) (R.remaining reader.old)) }
    ensures unread { IfAuditFails result (R.remaining reader.new ≡ R.remaining reader.old) }
    ensures nothing_out { IfErr result (λ stop. stop ≢ HistoriesStop.Other Stop.Write →
        W.contents writer.new ≡ W.contents writer.old) }
    ensures front_out { result ≡ Err (HistoriesStop.Other Stop.Write) →
        HasVerdict config.now (A.remaining audit.old) false
        (AppendsProperPrefix (W.contents writer.old) (W.contents writer.new))
        ⊎ ((outcome : Outcome) × TellsBoth config.now (A.remaining audit.old)
        (R.remaining reader.old) (S.spells form.now) outcome
        (AppendsProperPrefix (W.contents writer.old) (W.contents writer.new))) }
    ensures no_other { IfErr result IsVerdictStop }
    ensures no_further { ReadsAtMost (A.remaining audit.old) (A.remaining audit.new)
        (MOST_AUDIT_BYTES + 1) }
{
    let Watched { finding, outages } = watch_audit(alloc, config, audit)?;
    let Some(mut outages) = outages else {
        return refute(finding, writer);
    };
    let known = Known {
        processes: config.map().len(),
        entries: finding.count,
    };
    tell(alloc, &mut outages, known, form, reader, writer)
}
