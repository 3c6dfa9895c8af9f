//! The engine behind `faultyard check`: an audit in, a line out that confirms or refutes it.
ghost use Rattle.std.specs.Prelude.{◌≡◌, ◌≢◌, ◌+◌, ℕ, Bool, List, Option, IfOk, IfErr, IfSome, Err, codes, is_none};
ghost use Rattle.std.specs.Io.KnownBytes.{Appends};
ghost use Rattle.fy_lines.specs.Prefixes.{AppendsProperPrefix};
ghost use Rattle.fy_lines.specs.Readings.{ReadsAtMost};
ghost use Rattle.fy_audit.specs.declared.audit.TheConstants.{MOST_AUDIT_BYTES};
ghost use Rattle.fy_cluster.specs.Setup.{Setup};
ghost use Rattle.fy_check.specs.CheckTexts.{HasVerdict, IfFound, finding_line};
ghost use Rattle.fy_check.specs.Checked.{IsReplayed};
ghost use Rattle.fy_check.specs.Inputs.{IsInputStop, TellsFault};
ghost use Rattle.fy_streams.specs.Stops.{numbered, IsCheckStop};

use crate::input::AuditInput;
use fy_audit::MOST_AUDIT_BYTES;
use fy_cluster::Config;
use fy_replay::Replayer;
use fy_streams::{Stop, write_numbered};
use std::alloc::Global;
use std::io::{Read, Write};

/// What is found of an audit.
#[derive(Clone, Copy)]
pub struct Finding {
    /// How many entries it has.
    pub count: u32,
    /// The place of the first bad one; `None` where all are what the rules give.
    pub first_bad: Option<u32>,
}

/// An audit whose entries were checked one after another.
#[derive(Drop)]
pub struct ReplayedAudit {
    /// How many entries it has.
    pub count: u32,
    /// What has checked them. Where none is bad, its cluster has all of them.
    pub replayer: Replayer,
}

impl ReplayedAudit {
    /// What was found of the audit.
    pub fn finding(&self) -> Finding
        ensures count { result.count ≡ self.now.count }
        ensures first_bad { result.first_bad ≡ self.now.replayer.first_bad }
        ensures found { (setup : Setup) (known : Option (List ℕ)) →
            IfSome known (λ bytes. IsReplayed setup bytes self.now) →
            IfFound setup known result }
    {
        Finding {
            count: self.count,
            first_bad: self.replayer.first_bad(),
        }
    }
}

/// Reads an audit piece by piece, entry by entry, and has each checked as it is read. Behind a bad
/// entry the rest is read for its faults.
///
/// # Errors
///
/// The stops of `run_check`, but `Write`.
pub fn replay_audit<R: Read>(
    alloc: Global,
    config: &Config,
    reader: &mut R,
) -> Result<ReplayedAudit, Stop>
    ensures replayed { IfOk result (λ replayed. IfSome (R.remaining reader.old)
        (λ bytes. IsReplayed config.now bytes replayed)) }
    ensures refused { IfErr result (TellsFault (R.remaining reader.old)) }
    ensures own { IfErr result IsInputStop }
    ensures read_fault { result ≡ Err Stop.Read →
        ReadsAtMost (R.remaining reader.old) (R.remaining reader.new) MOST_AUDIT_BYTES }
    ensures no_further { ReadsAtMost (R.remaining reader.old) (R.remaining reader.new)
        (MOST_AUDIT_BYTES + 1) }
{
    let mut input = AuditInput::begin(alloc, reader)?;
    let config = config.try_copy(alloc)?;
    let mut replayer = Replayer::begin(alloc, config, input.version())?;
    let count = input.read_into(reader, &mut replayer)?;
    Ok(ReplayedAudit { count, replayer })
}

/// Writes the line that says whether an audit is legal: its head, and a number.
fn say<W: Write>(legal: bool, head: &str, number: u64, writer: &mut W) -> Result<bool, Stop>
    ensures said { IfOk result (λ done. (done ≡ legal)
        × Appends (W.contents writer.old) (W.contents writer.new)
        (numbered head.now number (codes "\n"))) }
    ensures short { IfErr result (λ stop. (stop ≡ Stop.Write)
        × AppendsProperPrefix (W.contents writer.old) (W.contents writer.new)
        (numbered head.now number (codes "\n"))) }
{
    write_numbered(writer, head, number, "\n")?;
    Ok(legal)
}

/// Writes the line for what was found of an audit: `legal N` where its N entries are what the rules
/// give, else `bad entry N` with the place of the first bad one. The answer is whether it is legal.
///
/// # Errors
///
/// `Write` where the writer fails or takes no byte: a front of the line is out, and never all of
/// it.
pub fn write_finding<W: Write>(finding: Finding, writer: &mut W) -> Result<bool, Stop>
    ensures told { IfOk result (λ legal. legal ≡ is_none finding.first_bad) }
    ensures line { IfOk result (λ _. Appends (W.contents writer.old) (W.contents writer.new)
        (finding_line finding)) }
    ensures short { IfErr result (λ _. AppendsProperPrefix (W.contents writer.old)
        (W.contents writer.new) (finding_line finding)) }
    ensures out { (setup : Setup) (known : Option (List ℕ)) → IfFound setup known finding →
        IfOk result (λ legal. HasVerdict setup known legal
        (Appends (W.contents writer.old) (W.contents writer.new))) }
    ensures front_out { (setup : Setup) (known : Option (List ℕ)) → IfFound setup known finding →
        result ≡ Err Stop.Write → (legal : Bool) × HasVerdict setup known legal
        (AppendsProperPrefix (W.contents writer.old) (W.contents writer.new)) }
    ensures no_other { IfErr result (λ stop. stop ≡ Stop.Write) }
{
    match finding.first_bad {
        None => say(true, "legal ", finding.count as u64, writer),
        Some(at) => say(false, "bad entry ", at as u64, writer),
    }
}

/// Reads an audit from the reader to its end, and writes one line: `legal N` where each of its N
/// entries has the reply that the rules give under this configuration, else `bad entry N` with the
/// place of the first that hasn't. The answer is whether it is legal.
///
/// The audit is read piece by piece, and all of it is read and checked before the first byte is
/// written. A faulty line is told in place of a bad entry, and a fault of the whole, as that it is
/// too long or that the reader fails, in place of both, wherever they stand: behind a faulty line
/// the rest is read for that. At most one byte past the audit's limit is read.
///
/// # Errors
///
/// `Audit` for an audit that is refused, `Read` where the reader fails, `NoMemory` where an
/// allocation fails: nothing is written then. `Write` where the writer fails or takes no byte: a
/// front of the line is out, and never all of it.
pub fn run_check<R: Read, W: Write>(
    alloc: Global,
    config: &Config,
    reader: &mut R,
    writer: &mut W,
) -> Result<bool, Stop>
    ensures done { IfOk result (λ legal. HasVerdict config.now (R.remaining reader.old) legal
        (Appends (W.contents writer.old) (W.contents writer.new))) }
    ensures refused { IfErr result (TellsFault (R.remaining reader.old)) }
    ensures nothing_out { IfErr result (λ stop. stop ≢ Stop.Write →
        W.contents writer.new ≡ W.contents writer.old) }
    ensures front_out { result ≡ Err Stop.Write → (legal : Bool)
        × HasVerdict config.now (R.remaining reader.old) legal
        (AppendsProperPrefix (W.contents writer.old) (W.contents writer.new)) }
    ensures no_other { IfErr result IsCheckStop }
    ensures read_fault { result ≡ Err Stop.Read →
        ReadsAtMost (R.remaining reader.old) (R.remaining reader.new) MOST_AUDIT_BYTES }
    ensures no_further { ReadsAtMost (R.remaining reader.old) (R.remaining reader.new)
        (MOST_AUDIT_BYTES + 1) }
{
    let audit = replay_audit(alloc, config, reader)?;
    write_finding(audit.finding(), writer)
}
