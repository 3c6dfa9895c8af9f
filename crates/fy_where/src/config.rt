//! The engine behind `faultyard config`: the counts of a cluster file, or why it isn't one.
ghost use Rattle.std.specs.Prelude.{◌≡◌, ◌≢◌, ◌+◌, ◌⊎◌, OnOk, IfOk, IfErr, IfSome, Ok, Err, string_bytes};
ghost use Rattle.std.specs.Io.KnownBytes.{Appends};
ghost use Rattle.fy_lines.specs.Prefixes.{AppendsProperPrefix};
ghost use Rattle.fy_lines.specs.Readings.{ReadsAtMost};
ghost use Rattle.fy_cluster.specs.Setup.{Setup};
ghost use Rattle.fy_config.specs.declared.limits.TheConstants.{MOST_FILE_BYTES};
ghost use Rattle.fy_config.specs.Config.{ConfigOf};
ghost use Rattle.fy_streams.specs.Outputs.{IsOutputStop};
ghost use Rattle.fy_streams.specs.Stops.{IfConfigFault, IsConfigStop};
ghost use Rattle.fy_where.specs.Lines.{ok_line, TellsOf};

use crate::explain::explain;
use fy_cluster::Config;
use fy_config::{ConfigFault, MOST_FILE_BYTES, read_config};
use fy_lines::write_bytes;
use fy_streams::{Stop, load_bytes};
use std::alloc::{AllocError, Global};
use std::io::{Read, Write};

/// Why a file isn't taken.
#[derive(Drop)]
pub struct Refusal {
    /// Why the command stops.
    pub stop: Stop,
    /// Lines that say where the fault lies and what was expected there; none where the stop isn't
    /// the file's, or an allocation for them failed.
    pub why: String,
}

impl Refusal {
    ghost use Rattle.std.specs.Prelude.{string_bytes, []};

    /// A stop with no line more.
    pub fn bare(alloc: Global, stop: Stop) -> Refusal
        ensures stop { result.stop ≡ stop }
        ensures why { string_bytes result.why ≡ [] }
    {
        Refusal {
            stop,
            why: String::new(alloc),
        }
    }

    /// A stop, explained by the bytes of the file where it is the file's.
    fn explained(alloc: Global, name: &str, bytes: &[u8], stop: Stop) -> Refusal
        ensures { result.stop ≡ stop }
    {
        let Stop::Config { fault } = stop else {
            return Refusal::bare(alloc, stop);
        };
        match explain(alloc, name, bytes, fault) {
            Ok(why) => Refusal { stop, why },
            Err(_) => Refusal::bare(alloc, stop),
        }
    }
}

/// The configuration of a cluster file, as `load_config` of `fy_streams` gives it.
fn load_explained<R: Read>(alloc: Global, name: &str, reader: &mut R) -> Result<Config, Refusal>
    ensures loaded { IfOk result (λ config. IfSome (R.remaining reader.old)
        (λ bytes. ConfigOf bytes (Ok config))) }
    ensures refused { IfErr result (λ refusal. IfConfigFault refusal.stop
        (λ fault. IfSome (R.remaining reader.old) (λ bytes. ConfigOf bytes (Err fault)))) }
    ensures no_other { IfErr result (λ refusal. IsConfigStop refusal.stop) }
    ensures read_fault { IfErr result (λ refusal. refusal.stop ≡ Stop.Read →
        ReadsAtMost (R.remaining reader.old) (R.remaining reader.new) MOST_FILE_BYTES) }
    ensures no_further { ReadsAtMost (R.remaining reader.old) (R.remaining reader.new)
        (MOST_FILE_BYTES + 1) }
{
    let too_long = Stop::Config {
        fault: ConfigFault::TooLong,
    };
    let bytes = match load_bytes(alloc, reader, MOST_FILE_BYTES, too_long) {
        Ok(bytes) => bytes,
        Err(stop) => return Err(Refusal::explained(alloc, name, &[], stop)),
    };
    match read_config(alloc, &bytes) {
        Ok(config) => Ok(config),
        Err(fault) => Err(Refusal::explained(alloc, name, &bytes, Stop::from(fault))),
    }
}

/// The line for a configuration.
fn counts_of(alloc: Global, config: &Config) -> Result<String, AllocError>
    ensures { IfOk result (λ text. string_bytes text ≡ ok_line config.now) }
{
    let (processes, policies) = (config.map().len(), config.policies().len());
    let (actors, grants) = (config.actors(), config.grants().len());
    let (protections, limit) = (config.protections().len(), config.journal_limit());
    format!(in alloc;
        "ok: processes {processes}, policies {policies}, actors {actors}, grants {grants}, \
        protections {protections}, journal limit {limit}\n"
    )
}

/// Writes that line.
fn write_counts<W: Write>(alloc: Global, config: &Config, writer: &mut W) -> Result<(), Stop>
    ensures written { OnOk result
        (Appends (W.contents writer.old) (W.contents writer.new) (ok_line config.now)) }
    ensures short { result ≡ Err Stop.Write →
        AppendsProperPrefix (W.contents writer.old) (W.contents writer.new) (ok_line config.now) }
    ensures nothing_out { IfErr result (λ stop. stop ≢ Stop.Write →
        W.contents writer.new ≡ W.contents writer.old) }
    ensures no_other { IfErr result IsOutputStop }
{
    let text = counts_of(alloc, config)?;
    write_bytes(writer, text.as_bytes())?;
    Ok(())
}

/// Reads a cluster file from the reader, at most one byte past its limit, and writes one line with
/// the counts of what it begins a cluster with. `name` is what the file is called in lines.
///
/// # Errors
///
/// The stops of `load_config`: nothing is written then. A stop that is the file's has lines that
/// say where its fault lies. `Write` where the writer fails or takes no byte: a front of the line
/// is out, and never all of it.
pub fn run_config<R: Read, W: Write>(
    alloc: Global,
    name: &str,
    reader: &mut R,
    writer: &mut W,
) -> Result<(), Refusal>
    ensures told { OnOk result (TellsOf (R.remaining reader.old)
        (Appends (W.contents writer.old) (W.contents writer.new))) }
    ensures refused { IfErr result (λ refusal. IfConfigFault refusal.stop
        (λ fault. IfSome (R.remaining reader.old) (λ bytes. ConfigOf bytes (Err fault)))) }
    ensures nothing_out { IfErr result (λ refusal. refusal.stop ≢ Stop.Write →
        W.contents writer.new ≡ W.contents writer.old) }
    ensures front_out { IfErr result (λ refusal. refusal.stop ≡ Stop.Write →
        TellsOf (R.remaining reader.old)
        (AppendsProperPrefix (W.contents writer.old) (W.contents writer.new))) }
    ensures no_other { IfErr result (λ refusal.
        (refusal.stop ≡ Stop.Write) ⊎ IsConfigStop refusal.stop) }
    ensures read_fault { IfErr result (λ refusal. refusal.stop ≡ Stop.Read →
        ReadsAtMost (R.remaining reader.old) (R.remaining reader.new) MOST_FILE_BYTES) }
    ensures no_further { ReadsAtMost (R.remaining reader.old) (R.remaining reader.new)
        (MOST_FILE_BYTES + 1) }
{
    let config = match load_explained(alloc, name, reader) {
        Ok(config) => config,
        Err(refusal) => return Err(refusal),
    };
    match write_counts(alloc, &config, writer) {
        Ok(()) => Ok(()),
        Err(stop) => Err(Refusal::bare(alloc, stop)),
    }
}
