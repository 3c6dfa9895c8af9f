//! The engine behind `faultyard bears`: what a cluster bears, from its start or from the end of an
//! audit on.
ghost use Rattle.std.specs.Prelude.{◌≡◌, ◌≢◌, ◌+◌, ◌⊎◌, IfOk, IfErr, IfSome, OnOk, Ok, Err, false, true};
ghost use Rattle.std.specs.Io.KnownBytes.{Appends};
ghost use Rattle.fy_lines.specs.Prefixes.{AppendsProperPrefix};
ghost use Rattle.fy_lines.specs.Readings.{ReadsAtMost};
ghost use Rattle.fy_audit.specs.declared.audit.TheConstants.{MOST_AUDIT_BYTES};
ghost use Rattle.fy_check.specs.CheckTexts.{HasVerdict};
ghost use Rattle.fy_streams.specs.Outputs.{IsOutputStop};
ghost use Rattle.fy_check.specs.Checked.{IsChecked};
ghost use Rattle.fy_check.specs.Inputs.{TellsFault};
ghost use Rattle.fy_streams.specs.Stops.{IsCheckStop};
ghost use Rattle.fy_bears.specs.BearsTexts.{IsSpelledOut, IsToldAtStart, IsToldOf, Tells};

use crate::spelling::Spelling;
use crate::told::{Told, told_after, told_at_start};
use fy_audit::MOST_AUDIT_BYTES;
use fy_check::{replay_audit, write_finding};
use fy_cluster::Config;
use fy_lines::write_bytes;
use fy_policy::Policy;
use fy_streams::Stop;
use std::alloc::Global;
use std::io::{Read, Write};

/// Writes what is told of a configuration's cluster.
fn write_told<S: Spelling, W: Write>(
    alloc: Global,
    config: &Config,
    elections: &[Policy],
    told: &Told,
    form: &S,
    writer: &mut W,
) -> Result<(), Stop>
    ensures written { OnOk result
        (IsSpelledOut (S.spells form.now config.now elections.now told.now)
        (Appends (W.contents writer.old) (W.contents writer.new))) }
    ensures short { result ≡ Err Stop.Write →
        IsSpelledOut (S.spells form.now config.now elections.now told.now)
        (AppendsProperPrefix (W.contents writer.old) (W.contents writer.new)) }
    ensures nothing_out { IfErr result (λ stop. stop ≢ Stop.Write →
        W.contents writer.new ≡ W.contents writer.old) }
    ensures no_other { IfErr result IsOutputStop }
{
    let text = form.spell(alloc, config, elections, told)?;
    write_bytes(writer, text.as_bytes())?;
    Ok(())
}

/// Writes what a cluster bears from its start on, when nothing is lost yet, and by each policy of
/// elections what may forget. An `Ok` is always `true`: `run_bears_after` says `false` of an audit
/// that isn't legal.
///
/// # Errors
///
/// `NoMemory` where an allocation fails: nothing is written then. `Write` where the writer fails or
/// takes no byte: a front of the text is out, and never all of it.
pub fn run_bears<S: Spelling, W: Write>(
    alloc: Global,
    config: &Config,
    elections: &[Policy],
    form: &S,
    writer: &mut W,
) -> Result<bool, Stop>
    ensures done { IfOk result (λ done. done ≡ true) }
    ensures written { OnOk result
        (Tells (IsToldAtStart config.now elections.now)
        (S.spells form.now config.now elections.now)
        (Appends (W.contents writer.old) (W.contents writer.new))) }
    ensures short { result ≡ Err Stop.Write →
        Tells (IsToldAtStart config.now elections.now)
        (S.spells form.now config.now elections.now)
        (AppendsProperPrefix (W.contents writer.old) (W.contents writer.new)) }
    ensures nothing_out { IfErr result (λ stop. stop ≢ Stop.Write →
        W.contents writer.new ≡ W.contents writer.old) }
    ensures no_other { IfErr result IsOutputStop }
{
    let told = told_at_start(alloc, config, elections)?;
    write_told(alloc, config, elections, &told, form, writer)?;
    Ok(true)
}

/// Reads an audit from the reader to its end, checks it, and writes what the cluster bears from
/// its last entry on, and by each policy of elections what may forget. Where an entry isn't what
/// the rules give, the line of `run_check` is written in place of that. The answer is whether the
/// audit is legal.
///
/// All is read and checked before the first byte is written.
///
/// # Errors
///
/// The stops of `run_check`: nothing is written but after `Write`, when a front of the text is out,
/// and never all of it.
pub fn run_bears_after<S: Spelling, R: Read, W: Write>(
    alloc: Global,
    config: &Config,
    elections: &[Policy],
    form: &S,
    reader: &mut R,
    writer: &mut W,
) -> Result<bool, Stop>
    ensures done { IfOk result (λ legal. IfSome (R.remaining reader.old)
        (λ bytes. IsChecked config.now bytes legal)) }
    ensures written { result ≡ Ok true → IfSome (R.remaining reader.old)
        (λ bytes. Tells (IsToldOf config.now elections.now bytes)
        (S.spells form.now config.now elections.now)
        (Appends (W.contents writer.old) (W.contents writer.new))) }
    ensures refuted { result ≡ Ok false → HasVerdict config.now (R.remaining reader.old) false
        (Appends (W.contents writer.old) (W.contents writer.new)) }
    ensures refused { IfErr result (TellsFault (R.remaining reader.old)) }
    ensures nothing_out { IfErr result (λ stop. stop ≢ Stop.Write →
        W.contents writer.new ≡ W.contents writer.old) }
    ensures front_out { result ≡ Err Stop.Write →
        HasVerdict config.now (R.remaining reader.old) false
        (AppendsProperPrefix (W.contents writer.old) (W.contents writer.new))
        ⊎ IfSome (R.remaining reader.old)
        (λ bytes. Tells (IsToldOf config.now elections.now bytes)
        (S.spells form.now config.now elections.now)
        (AppendsProperPrefix (W.contents writer.old) (W.contents writer.new))) }
    ensures no_other { IfErr result IsCheckStop }
    ensures read_fault { result ≡ Err Stop.Read →
        ReadsAtMost (R.remaining reader.old) (R.remaining reader.new) MOST_AUDIT_BYTES }
    ensures no_further { ReadsAtMost (R.remaining reader.old) (R.remaining reader.new)
        (MOST_AUDIT_BYTES + 1) }
{
    let audit = replay_audit(alloc, config, reader)?;
    let finding = audit.finding();
    if finding.first_bad.is_some() {
        return write_finding(finding, writer);
    }
    let told = told_after(alloc, &audit, elections)?;
    write_told(alloc, config, elections, &told, form, writer)?;
    Ok(true)
}
