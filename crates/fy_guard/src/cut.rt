//! Half a last line of an audit, as a crash leaves it.
ghost use Rattle.std.specs.Prelude.{◌≡◌, ◌≢◌, ◌+◌, ℕ, Ok, Err, None, IfOk, IfErr, IfSome, OnOk};
ghost use Rattle.std.specs.Io.KnownBytes.{Appends};
ghost use Rattle.fy_lines.specs.Prefixes.{AppendsProperPrefix};
ghost use Rattle.fy_lines.specs.Readings.{ReadsAtMost};
ghost use Rattle.fy_audit.specs.declared.audit.TheConstants.{MOST_AUDIT_BYTES};
ghost use Rattle.fy_check.specs.Inputs.{IsInputStop, TellsFault};
ghost use Rattle.fy_streams.specs.Stops.{IsCheckStop};
ghost use Rattle.fy_guard.specs.Cuts.{IsCutAt, IsCutLine, IsUncut, whole_text};

use fy_audit::{MOST_AUDIT_BYTES, MOST_LINE_BYTES};
use fy_check::input_stop;
use fy_lines::{NextLine, Window};
use fy_streams::{Stop, write_numbered};
use std::alloc::Global;
use std::io::{Read, Write};

/// A last line that lacks its line feed.
#[derive(Clone, Copy, Debug, PartialEq, Eq)]
pub struct Cut {
    /// Its number, from 1.
    pub line: u32,
    /// How many bytes stand before it, all of them whole lines.
    pub whole: u64,
}

/// Looks for a last line of an audit that is cut. `None` where there is none, or where a line has
/// more bytes than one may have. Memory doesn't grow with the audit.
///
/// # Errors
///
/// `Audit` where the audit is too long, `Read` where its reader fails, `NoMemory` where an
/// allocation fails.
pub fn cut_line<A: Read>(alloc: Global, audit: &mut A) -> Result<Option<Cut>, Stop>
    ensures found { IfOk result (λ cut. IfSome cut (λ cut. IfSome (A.remaining audit.old)
        (λ bytes. IsCutAt bytes cut.line cut.whole))) }
    ensures none { result ≡ Ok None → IfSome (A.remaining audit.old) IsUncut }
    ensures refused { IfErr result (TellsFault (A.remaining audit.old)) }
    ensures own { IfErr result IsInputStop }
    ensures read_fault { result ≡ Err Stop.Read →
        ReadsAtMost (A.remaining audit.old) (A.remaining audit.new) MOST_AUDIT_BYTES }
    ensures no_further { ReadsAtMost (A.remaining audit.old) (A.remaining audit.new)
        (MOST_AUDIT_BYTES + 1) }
{
    let mut window = Window::make(alloc)?;
    let mut line = 1;
    let mut whole = 0;
    loop {
        let next = match window.find_line(audit, MOST_LINE_BYTES, MOST_AUDIT_BYTES) {
            Ok(next) => next,
            Err(fault) => return Err(input_stop(fault)),
        };
        match next {
            NextLine::Whole(count) => {
                window.drop_front(count + 1);
                line += 1;
                whole += count as u64 + 1;
            }
            NextLine::Long => return Ok(None),
            NextLine::Last(0) => return Ok(None),
            NextLine::Last(_) => return Ok(Some(Cut { line, whole })),
        }
    }
}

/// Says of an audit that was refused for the line of this number how many bytes are whole lines, if
/// that line is the last and is cut: `audit: whole to BYTE`. Else it writes nothing.
///
/// # Errors
///
/// Those of `cut_line`: nothing is written then. `Write` where the writer fails or takes no byte: a
/// front of the line is out, and never all of it.
pub fn write_whole<A: Read, W: Write>(
    alloc: Global,
    number: u32,
    audit: &mut A,
    writer: &mut W,
) -> Result<(), Stop>
    ensures cut { OnOk result (IfSome (A.remaining audit.old) (λ bytes. (whole : ℕ) →
        IsCutAt bytes number whole →
        Appends (W.contents writer.old) (W.contents writer.new) (whole_text whole))) }
    ensures uncut { OnOk result (IfSome (A.remaining audit.old) (λ bytes.
        ¬ IsCutLine bytes number → W.contents writer.new ≡ W.contents writer.old)) }
    ensures nothing_out { IfErr result (λ stop. stop ≢ Stop.Write →
        W.contents writer.new ≡ W.contents writer.old) }
    ensures front_out { result ≡ Err Stop.Write → IfSome (A.remaining audit.old) (λ bytes.
        (whole : ℕ) × IsCutAt bytes number whole ×
        AppendsProperPrefix (W.contents writer.old) (W.contents writer.new) (whole_text whole)) }
    ensures refused { IfErr result (TellsFault (A.remaining audit.old)) }
    ensures no_other { IfErr result IsCheckStop }
    ensures read_fault { result ≡ Err Stop.Read →
        ReadsAtMost (A.remaining audit.old) (A.remaining audit.new) MOST_AUDIT_BYTES }
    ensures no_further { ReadsAtMost (A.remaining audit.old) (A.remaining audit.new)
        (MOST_AUDIT_BYTES + 1) }
{
    let Some(cut) = cut_line(alloc, audit)? else {
        return Ok(());
    };
    if cut.line != number {
        return Ok(());
    }
    write_numbered(writer, "audit: whole to ", cut.whole, "\n")?;
    Ok(())
}
