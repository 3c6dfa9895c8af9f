//! Inputs that are read whole, and cluster files among them.
ghost use Rattle.std.specs.Prelude.{◌≡◌, ◌+◌, IfOk, IfErr, IfSome, Ok, Err};
ghost use Rattle.fy_lines.specs.Readings.{ReadsAtMost};
ghost use Rattle.fy_config.specs.declared.limits.TheConstants.{MOST_FILE_BYTES};
ghost use Rattle.fy_config.specs.Config.{ConfigOf};
ghost use Rattle.fy_streams.specs.Stops.{IfConfigFault, IsConfigStop, IsUnread, input_stop};

use crate::stop::Stop;
use fy_cluster::Config;
use fy_config::{ConfigFault, MOST_FILE_BYTES, read_config};
use fy_lines::{InputFault, read_limited};
use std::alloc::Global;
use std::io::Read;

/// The stop for an input of which not all can be read; `too_long` is that for one that has too many
/// bytes.
pub fn input_stop(fault: InputFault, too_long: Stop) -> Stop
    ensures { result ≡ input_stop too_long fault }
{
    match fault {
        InputFault::TooLong => too_long,
        InputFault::Reader => Stop::Read,
        InputFault::NoMemory => Stop::NoMemory,
    }
}

/// All bytes that a reader gives, so many at most. At most one byte more is read.
///
/// # Errors
///
/// `too_long` where the bytes are more; `Read` where the reader fails; `NoMemory` where an
/// allocation fails.
pub fn load_bytes<R: Read>(
    alloc: Global,
    reader: &mut R,
    most: usize,
    too_long: Stop,
) -> Result<Vec<u8>, Stop>
    ensures all { IfOk result (λ read. IfSome (R.remaining reader.old)
        (λ bytes. read.items ≡ bytes)) }
    ensures err { IfErr result
        (IsUnread (R.remaining reader.old) (R.remaining reader.new) most too_long) }
    ensures no_further { ReadsAtMost (R.remaining reader.old) (R.remaining reader.new) (most + 1) }
{
    match read_limited(alloc, reader, most) {
        Ok(bytes) => Ok(bytes),
        Err(fault) => Err(input_stop(fault, too_long)),
    }
}

/// The configuration of a cluster file. At most one byte past its limit is read.
///
/// # Errors
///
/// `Config` for a file that is refused, `TooLong` among them; `Read` where the reader fails;
/// `NoMemory` where an allocation fails.
pub fn load_config<R: Read>(alloc: Global, reader: &mut R) -> Result<Config, Stop>
    ensures loaded { IfOk result (λ config. IfSome (R.remaining reader.old)
        (λ bytes. ConfigOf bytes (Ok config))) }
    ensures refused { IfErr result (λ stop. IfConfigFault stop
        (λ fault. IfSome (R.remaining reader.old) (λ bytes. ConfigOf bytes (Err fault)))) }
    ensures no_other { IfErr result IsConfigStop }
    ensures read_fault { result ≡ Err Stop.Read →
        ReadsAtMost (R.remaining reader.old) (R.remaining reader.new) MOST_FILE_BYTES }
    ensures no_further { ReadsAtMost (R.remaining reader.old) (R.remaining reader.new)
        (MOST_FILE_BYTES + 1) }
{
    let too_long = Stop::Config {
        fault: ConfigFault::TooLong,
    };
    let bytes = load_bytes(alloc, reader, MOST_FILE_BYTES, too_long)?;
    Ok(read_config(alloc, &bytes)?)
}
