//! All that a reader gives, up to a limit.

ghost use Rattle.std.specs.Prelude.{◌≡◌, ◌≤◌, ◌<◌, ◌+◌, length, vec_len, OnOk, IfOk, IfSome, IsErrOf};
ghost use Rattle.std.specs.Io.KnownBytes.{IsAtEnd};
ghost use Rattle.fy_lines.specs.Readings.{ReadsExactly, ReadsAtMost};
ghost use Rattle.fy_lines.specs.declared.input.InputFault.TheVariants.{NoMemory};

use std::alloc::{AllocError, Global};
use std::io::Read;

/// Why an input is not taken.
#[derive(Clone, Copy, Debug, PartialEq, Eq)]
pub enum InputFault {
    /// The input has more bytes than the limit.
    TooLong,
    /// A call of `read` failed, by whatever error: none is tried again.
    Reader,
    /// An allocation for the bytes failed.
    NoMemory,
}

impl From<AllocError> for InputFault {
    ghost from_gives = { λ _ fault. fault ≡ NoMemory };

    fn from(_error: AllocError) -> InputFault {
        InputFault::NoMemory
    }
}

/// Bytes asked for by one call of `read`.
const CHUNK: usize = 16384;

/// All bytes of the reader, of which there are at most `limit`.
///
/// It reads on to the end, or to the first byte past the limit and no further, so it makes at most
/// `limit + 1` calls of `read`, whatever the reader does.
///
/// # Errors
///
/// `TooLong` exactly where the bytes are more than the limit, `Reader` where a call of `read`
/// fails (also where it was interrupted), and `NoMemory` where there is no room for the bytes;
/// whichever comes first. At `TooLong` the reader has given one byte past the limit, and at
/// `Reader` none past it.
pub fn read_limited<R: Read>(
    alloc: Global,
    reader: &mut R,
    limit: usize,
) -> Result<Vec<u8>, InputFault>
    ensures all { IfOk result (λ bytes. IfSome (R.remaining reader.old) (λ xs. bytes.items ≡ xs)) }
    ensures at_end { OnOk result (IsAtEnd (R.remaining reader.new)) }
    ensures within { IfOk result (λ bytes. vec_len bytes ≤ limit) }
    ensures too_long { IsErrOf result InputFault.TooLong →
        IfSome (R.remaining reader.old) (λ xs. limit < length xs) }
    ensures one_past { IsErrOf result InputFault.TooLong →
        ReadsExactly (R.remaining reader.old) (R.remaining reader.new) (limit + 1) }
    ensures reader_fault { IsErrOf result InputFault.Reader →
        ReadsAtMost (R.remaining reader.old) (R.remaining reader.new) limit }
    ensures no_further { ReadsAtMost (R.remaining reader.old) (R.remaining reader.new) (limit + 1) }
{
    let mut bytes = Vec::new(alloc);
    let mut chunk = [0u8; CHUNK];
    while bytes.len() <= limit {
        // One byte past the limit is asked for, which tells a long input from one that just fits.
        let most = (limit - bytes.len()).min(CHUNK - 1) + 1;
        let Ok(count) = reader.read(&mut chunk[..most]) else {
            return Err(InputFault::Reader);
        };
        if count == 0 {
            return Ok(bytes);
        }
        bytes.extend_from_slice(&chunk[..count])?;
    }
    Err(InputFault::TooLong)
}
