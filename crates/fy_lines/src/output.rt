//! Texts out, by a loop of our own over `write`: `write_all` says nothing of what went out before
//! an error.

ghost use Rattle.std.specs.Prelude.{OnOk, OnErr};
ghost use Rattle.std.specs.List.{flat_map};
ghost use Rattle.std.specs.Io.KnownBytes.{Appends};
ghost use Rattle.fy_lines.specs.Prefixes.{AppendsProperPrefix};

use std::io::Write;

/// A call of `write` failed, by whatever error, or took no byte.
#[derive(Clone, Copy, Debug, PartialEq, Eq)]
pub struct OutputFault;

/// Writes all the bytes. It doesn't allocate, buffers nothing and does not flush.
///
/// # Errors
///
/// At the first call of `write` that fails (also one that was interrupted: none is tried again) or
/// takes no byte. What went out then is a front of the bytes, and never all of them.
pub fn write_bytes<W: Write>(writer: &mut W, bytes: &[u8]) -> Result<(), OutputFault>
    ensures ok { OnOk result (Appends (W.contents writer.old) (W.contents writer.new) bytes.now) }
    ensures short { OnErr result
        (AppendsProperPrefix (W.contents writer.old) (W.contents writer.new) bytes.now) }
{
    let mut rest = bytes;
    while !rest.is_empty() {
        let Ok(count) = writer.write(rest) else {
            return Err(OutputFault);
        };
        if count == 0 {
            return Err(OutputFault);
        }
        rest = &rest[count..];
    }
    Ok(())
}

/// Writes each part in turn, as `write_bytes` does.
///
/// # Errors
///
/// The faults of `write_bytes`; what went out is a front of all the parts, and never all of it.
pub fn write_parts<W: Write>(writer: &mut W, parts: &[&[u8]]) -> Result<(), OutputFault>
    ensures ok { OnOk result
        (Appends (W.contents writer.old) (W.contents writer.new)
        (flat_map (λ part. part.now) parts.now)) }
    ensures short { OnErr result
        (AppendsProperPrefix (W.contents writer.old) (W.contents writer.new)
        (flat_map (λ part. part.now) parts.now)) }
{
    for part in parts {
        write_bytes(writer, part)?;
    }
    Ok(())
}
