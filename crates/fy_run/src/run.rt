//! The engine behind `faultyard run`: a script in, the audit of its acts out.
ghost use Rattle.std.specs.Prelude.{◌≡◌, ◌≢◌, ◌≤◌, ◌+◌, ◌++◌, ◌⊎◌, length, map, true, IfOk, IfErr, OnOk, OnErr, IfSome, Ok, Err};
ghost use Rattle.std.specs.Io.KnownBytes.{Appends};
ghost use Rattle.fy_lines.specs.Prefixes.{AppendsProperPrefix};
ghost use Rattle.fy_lines.specs.Readings.{ReadsAtMost};
ghost use Rattle.fy_acts.specs.declared.version.Version.TheVariants.{Second};
ghost use Rattle.fy_audit.specs.AuditText.{audit_text};
ghost use Rattle.fy_audit.specs.Script.{ScriptOf};
ghost use Rattle.fy_audit.specs.declared.script.TheConstants.{MOST_SCRIPT_BYTES};
ghost use Rattle.fy_cluster.specs.Execution.{opened};
ghost use Rattle.fy_run.specs.RunTexts.{asked, made_by, lines_of_entries, HasAudit, Runs, IfScriptFault, IfRunRefusal};
ghost use Rattle.fy_streams.specs.Outputs.{FlushesFront, IsOutputStop};
ghost use Rattle.fy_streams.specs.Stops.{IsRunStop};

use fy_audit::{Command, MOST_SCRIPT_BYTES, ScriptFault, Version, read_script};
use fy_cluster::{ClusterState, Config};
use fy_lines::laws;
use fy_streams::{AuditBuffer, Stop, load_bytes};
use std::alloc::Global;
use std::io::{Read, Write};

/// Enters the commands one after another, and puts the line of each entry into the buffer.
///
/// Asks for a journal that has room for them.
///
/// # Errors
///
/// `NoMemory` at the first command for which an allocation fails, `Write` where the writer fails or
/// takes no byte: a front of what was gathered and of the lines is out then, and never all of it.
fn answer_all<W: Write>(
    cluster: &mut ClusterState,
    commands: Vec<Command>,
    buffer: &mut AuditBuffer,
    writer: &mut W,
) -> Result<(), Stop>
    requires { length cluster.old.journal + length commands.items ≤ cluster.old.setup.limit }
    ensures ok { OnOk result (FlushesFront (W.contents writer.old) (W.contents writer.new)
        (buffer.old ++ lines_of_entries (made_by cluster.old (map asked commands.items)))
        buffer.new) }
    ensures short { OnErr result
        (AppendsProperPrefix (W.contents writer.old) (W.contents writer.new)
        (buffer.old ++ lines_of_entries (made_by cluster.old (map asked commands.items)))) }
    ensures fault { IfErr result IsOutputStop }
{
    laws::short_after_whole();
    for command in commands {
        let (by, act) = command.into_parts();
        let entry = cluster.enter(by, act)?;
        buffer.push(writer, &entry)?;
    }
    Ok(())
}

/// Writes the audit of the commands of a script under a configuration.
///
/// Asks for no more commands than its journal may have entries.
///
/// # Errors
///
/// `NoMemory` where an allocation fails, `Write` where the writer fails or takes no byte: a front
/// of the audit is out then, and never all of it.
fn write_answers<W: Write>(
    alloc: Global,
    config: &Config,
    commands: Vec<Command>,
    writer: &mut W,
) -> Result<(), Stop>
    requires { length commands.items ≤ config.now.limit }
    ensures ok { OnOk result (Appends (W.contents writer.old) (W.contents writer.new)
        (audit_text Second (made_by (opened config.now) (map asked commands.items)))) }
    ensures short { OnErr result
        (AppendsProperPrefix (W.contents writer.old) (W.contents writer.new)
        (audit_text Second (made_by (opened config.now) (map asked commands.items)))) }
    ensures fault { IfErr result IsOutputStop }
{
    laws::short_after_whole();
    let config = config.try_copy(alloc)?;
    let mut cluster = ClusterState::make(alloc, config)?;
    let mut buffer = AuditBuffer::begin(alloc, Version::Second)?;
    answer_all(&mut cluster, commands, &mut buffer, writer)?;
    buffer.flush(writer)?;
    Ok(())
}

/// The commands of all that a reader gives.
fn load_script<R: Read>(alloc: Global, reader: &mut R) -> Result<Vec<Command>, Stop>
    ensures read { IfOk result (λ commands. IfSome (R.remaining reader.old)
        (λ bytes. ScriptOf bytes (Ok commands.items))) }
    ensures refused { IfErr result (λ stop. IfScriptFault stop
        (λ fault. IfSome (R.remaining reader.old) (λ bytes. ScriptOf bytes (Err fault)))) }
    ensures no_other { IfErr result (λ stop.
        (stop ≢ Stop.JournalFull) × (stop ≢ Stop.Write)) }
    ensures own { IfErr result IsRunStop }
    ensures read_fault { result ≡ Err Stop.Read →
        ReadsAtMost (R.remaining reader.old) (R.remaining reader.new) MOST_SCRIPT_BYTES }
    ensures no_further { ReadsAtMost (R.remaining reader.old) (R.remaining reader.new)
        (MOST_SCRIPT_BYTES + 1) }
{
    let too_long = Stop::Script {
        fault: ScriptFault::TooLong,
    };
    let bytes = load_bytes(alloc, reader, MOST_SCRIPT_BYTES, too_long)?;
    Ok(read_script(alloc, &bytes)?)
}

/// Reads a script from the reader to its end, applies its commands to a cluster of this
/// configuration, one after another, and writes the audit: each command with its reply.
///
/// The whole script is read and refused before the first command is applied. The audit is written
/// in pieces while the commands are applied, and no journal is kept. At most one byte past the
/// script's limit is read. An `Ok` is always `true`: the engines that check an audit say `false` of
/// one that isn't legal.
///
/// # Errors
///
/// `Script` for a script that is refused, `JournalFull` where it has more lines than the journal
/// may have entries, `Read` where the reader fails: nothing is written then. `Write` where the
/// writer fails or takes no byte: a front of the audit is out, and never all of it. `NoMemory`
/// where an allocation fails: nothing is out, or a front of the audit and never all of it.
pub fn run_script<R: Read, W: Write>(
    alloc: Global,
    config: &Config,
    reader: &mut R,
    writer: &mut W,
) -> Result<bool, Stop>
    ensures done { IfOk result (λ done. (done ≡ true)
        × HasAudit config.now (R.remaining reader.old)
        (Appends (W.contents writer.old) (W.contents writer.new))) }
    ensures refused { IfErr result (λ stop. IfRunRefusal stop
        (IfSome (R.remaining reader.old) (λ bytes. Runs config.now bytes (Err stop)))) }
    ensures nothing_out { IfErr result (λ stop. stop ≢ Stop.Write → stop ≢ Stop.NoMemory →
        W.contents writer.new ≡ W.contents writer.old) }
    ensures front_out { result ≡ Err Stop.Write → HasAudit config.now (R.remaining reader.old)
        (AppendsProperPrefix (W.contents writer.old) (W.contents writer.new)) }
    ensures no_other { IfErr result IsRunStop }
    ensures no_memory { result ≡ Err Stop.NoMemory →
        (W.contents writer.new ≡ W.contents writer.old)
        ⊎ HasAudit config.now (R.remaining reader.old)
        (AppendsProperPrefix (W.contents writer.old) (W.contents writer.new)) }
    ensures read_fault { result ≡ Err Stop.Read →
        ReadsAtMost (R.remaining reader.old) (R.remaining reader.new) MOST_SCRIPT_BYTES }
    ensures no_further { ReadsAtMost (R.remaining reader.old) (R.remaining reader.new)
        (MOST_SCRIPT_BYTES + 1) }
{
    fy_cluster::laws::one_entry_more();
    let commands = load_script(alloc, reader)?;
    if commands.len() > config.journal_limit() as usize {
        return Err(Stop::JournalFull);
    }
    write_answers(alloc, config, commands, writer)?;
    Ok(true)
}
