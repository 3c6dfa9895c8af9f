//! Audits out: the text of a journal, by a buffer that is filled and handed on.
ghost use Rattle.std.specs.Prelude.{◌≡◌, ◌<◌, ◌+◌, ◌++◌, [], length, true, IfOk, IfErr, OnOk, OnErr};
ghost use Rattle.std.specs.Io.KnownBytes.{Appends};
ghost use Rattle.fy_lines.specs.Prefixes.{AppendsProperPrefix};
ghost use Rattle.fy_audit.specs.AuditText.{header, entry_line, audit_text};
ghost use Rattle.fy_streams.specs.declared.audit.TheConstants.{BUFFER_BYTES};
ghost use Rattle.fy_streams.specs.Outputs.{FlushesFront, IsOutputStop};

use crate::stop::Stop;
use fy_audit::{Entry, Journal, Version, header_text, push_entry_line};
use fy_lines::{OutputFault, laws, write_bytes};
use std::alloc::{AllocError, Global};
use std::io::Write;
use std::marker::Model;

/// How many bytes are gathered before they are handed on; the last line may go past them.
pub const BUFFER_BYTES: usize = 65_536;

/// Lines of an audit on their way out: they are gathered, and handed on when they fill the buffer.
#[derive(Drop)]
pub struct AuditBuffer {
    gathered: Vec<u8>,
}

impl Model for AuditBuffer {
    ghost use Rattle.std.specs.Prelude.{ℕ, List};

    ghost Value = { List ℕ };

    ghost view = { λ buffer. buffer.gathered.items };
}

impl AuditBuffer {
    /// A buffer with the header of a version.
    ///
    /// # Errors
    ///
    /// `AllocError` where an allocation fails.
    pub fn begin(alloc: Global, version: Version) -> Result<AuditBuffer, AllocError>
        ensures { IfOk result (λ buffer. buffer ≡ header version) }
    {
        let gathered = Vec::from_slice(alloc, header_text(version).as_bytes())?;
        Ok(AuditBuffer { gathered })
    }

    /// Writes all that is gathered, after which nothing is.
    ///
    /// # Errors
    ///
    /// `OutputFault` where the writer fails or takes no byte: a front of it is out then, and never
    /// all of it.
    pub fn flush<W: Write>(&mut self, writer: &mut W) -> Result<(), OutputFault>
        ensures ok { OnOk result
            (Appends (W.contents writer.old) (W.contents writer.new) self.old) }
        ensures emptied { OnOk result (self.new ≡ []) }
        ensures short { OnErr result
            (AppendsProperPrefix (W.contents writer.old) (W.contents writer.new) self.old) }
    {
        write_bytes(writer, &self.gathered)?;
        self.gathered.clear();
        Ok(())
    }

    /// Writes what is gathered, where it fills the buffer.
    fn flush_if_full<W: Write>(&mut self, writer: &mut W) -> Result<(), OutputFault>
        ensures ok { OnOk result (FlushesFront (W.contents writer.old) (W.contents writer.new)
            self.old self.new) }
        ensures few { OnOk result (length self.new < BUFFER_BYTES) }
        ensures short { OnErr result
            (AppendsProperPrefix (W.contents writer.old) (W.contents writer.new) self.old) }
    {
        if self.gathered.len() < BUFFER_BYTES {
            return Ok(());
        }
        self.flush(writer)
    }

    /// Puts an entry's line behind what is gathered, of which some may be written first: fewer than
    /// `BUFFER_BYTES` bytes are gathered then, beside the line.
    ///
    /// # Errors
    ///
    /// `Write` where the writer fails or takes no byte, `NoMemory` where an allocation fails for
    /// the line: a front of what was gathered and of the line is out then, and never all of both.
    pub fn push<W: Write>(&mut self, writer: &mut W, entry: &Entry) -> Result<(), Stop>
        ensures ok { OnOk result (FlushesFront (W.contents writer.old) (W.contents writer.new)
            (self.old ++ entry_line entry.now) self.new) }
        ensures few { OnOk result
            (length self.new < BUFFER_BYTES + length (entry_line entry.now)) }
        ensures short { OnErr result (AppendsProperPrefix (W.contents writer.old)
            (W.contents writer.new) (self.old ++ entry_line entry.now)) }
        ensures fault { IfErr result IsOutputStop }
    {
        laws::short_after_whole();
        self.flush_if_full(writer)?;
        push_entry_line(&mut self.gathered, entry)?;
        Ok(())
    }
}

/// Writes the audit of a journal: its header, and a line for each entry. It goes out in pieces of
/// 64 KiB and one line, from one buffer.
///
/// # Errors
///
/// `Write` where the writer fails or takes no byte, `NoMemory` where the buffer can't be had: a
/// front of the audit is out then, and never all of it.
pub fn write_audit<W: Write>(alloc: Global, journal: &Journal, writer: &mut W) -> Result<bool, Stop>
    ensures done { IfOk result (λ done. (done ≡ true)
        × Appends (W.contents writer.old) (W.contents writer.new)
        (audit_text journal.now.version journal.now.entries)) }
    ensures short { OnErr result
        (AppendsProperPrefix (W.contents writer.old) (W.contents writer.new)
        (audit_text journal.now.version journal.now.entries)) }
    ensures fault { IfErr result IsOutputStop }
{
    laws::short_after_whole();
    let mut buffer = AuditBuffer::begin(alloc, journal.version())?;
    for entry in journal.entries() {
        buffer.push(writer, entry)?;
    }
    buffer.flush(writer)?;
    Ok(true)
}
