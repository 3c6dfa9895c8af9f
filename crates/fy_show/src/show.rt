//! The engine behind `faultyard show`: an audit in, a picture of it out.
ghost use Rattle.std.specs.Prelude.{◌≡◌, ◌≢◌, ◌+◌, Bool, None, IfOk, IfErr, IfSome, Err, string_bytes};
ghost use Rattle.std.specs.Io.KnownBytes.{Appends};
ghost use Rattle.fy_lines.specs.Prefixes.{AppendsProperPrefix};
ghost use Rattle.fy_lines.specs.Readings.{ReadsAtMost};
ghost use Rattle.fy_audit.specs.declared.audit.TheConstants.{MOST_AUDIT_BYTES};
ghost use Rattle.fy_streams.specs.Stops.{IsCheckStop};
ghost use Rattle.fy_check.specs.Checked.{IsChecked};
ghost use Rattle.fy_check.specs.Inputs.{IsInputStop, TellsFault};
ghost use Rattle.fy_picture.specs.Recording.{Recording};
ghost use Rattle.fy_svg.specs.Documents.{IsDocument};
ghost use Rattle.fy_show.specs.Shows.{HasDocument, IsDrawn, IsDrawnEvenly};

use crate::sketch::Sketch;
use fy_audit::MOST_AUDIT_BYTES;
use fy_check::AuditInput;
use fy_cluster::Config;
use fy_lines::write_bytes;
use fy_streams::Stop;
use fy_svg::Drawing;
use std::alloc::Global;
use std::io::{Read, Write};

/// An audit whose entries were checked one after another, and drawn up to the first bad one.
#[derive(Drop)]
pub(crate) struct Drawn {
    /// How many entries it has. No code reads it: the proof that the audit was checked does.
    pub count: u32,
    pub drawing: Drawing,
}

/// Reads an audit piece by piece, entry by entry, and has each checked and drawn as it is read.
/// Behind a bad entry the rest is read for its faults.
fn draw<R: Read>(alloc: Global, config: &Config, reader: &mut R) -> Result<Drawn, Stop>
    ensures drawn { IfOk result (λ drawn. IfSome (R.remaining reader.old)
        (λ bytes. IsDrawnEvenly config.now bytes drawn)) }
    ensures refused { IfErr result (TellsFault (R.remaining reader.old)) }
    ensures own { IfErr result IsInputStop }
    ensures read_fault { result ≡ Err Stop.Read →
        ReadsAtMost (R.remaining reader.old) (R.remaining reader.new) MOST_AUDIT_BYTES }
    ensures no_further { ReadsAtMost (R.remaining reader.old) (R.remaining reader.new)
        (MOST_AUDIT_BYTES + 1) }
{
    let mut input = AuditInput::begin(alloc, reader)?;
    let drawing = Drawing::begin(alloc, config, input.version())?;
    let mut sketch = Sketch(drawing);
    let count = input.read_into(reader, &mut sketch)?;
    let Sketch(drawing) = sketch;
    Ok(Drawn { count, drawing })
}

/// The document of an audit, and whether it is legal.
fn document<R: Read>(alloc: Global, config: &Config, reader: &mut R) -> Result<(bool, String), Stop>
    ensures done { IfOk result (λ document. (drawing : Recording)
        × IfSome (R.remaining reader.old) (λ bytes. IsChecked config.now bytes document.0
        × IsDrawn config.now bytes None drawing)
        × IsDocument drawing (string_bytes document.1)) }
    ensures refused { IfErr result (TellsFault (R.remaining reader.old)) }
    ensures own { IfErr result IsInputStop }
    ensures read_fault { result ≡ Err Stop.Read →
        ReadsAtMost (R.remaining reader.old) (R.remaining reader.new) MOST_AUDIT_BYTES }
    ensures no_further { ReadsAtMost (R.remaining reader.old) (R.remaining reader.new)
        (MOST_AUDIT_BYTES + 1) }
{
    let drawn = draw(alloc, config, reader)?;
    let Drawn { count: _, drawing } = drawn;
    let legal = drawing.first_bad().is_none();
    Ok((legal, drawing.finish(config)?))
}

/// Reads an audit from the reader to its end, checks it, and writes one SVG document that shows its
/// entries under this configuration; where one isn't what the rules give, those before it, and a
/// red mark in its place. The answer is whether the audit is legal.
///
/// The audit is read piece by piece, and all of it is read, checked and drawn before the first byte
/// is written. Beyond `MOST_COLUMNS` entries memory grows only with the records that are begun.
///
/// # Errors
///
/// The stops of `run_check`: nothing is written but after `Write`, when a front of the document is
/// out, and never all of it. The audit was read and checked then.
pub fn run_show<R: Read, W: Write>(
    alloc: Global,
    config: &Config,
    reader: &mut R,
    writer: &mut W,
) -> Result<bool, Stop>
    ensures done { IfOk result (λ legal. HasDocument config.now (R.remaining reader.old) legal
        (Appends (W.contents writer.old) (W.contents writer.new))) }
    ensures refused { IfErr result (TellsFault (R.remaining reader.old)) }
    ensures nothing_out { IfErr result (λ stop. stop ≢ Stop.Write →
        W.contents writer.new ≡ W.contents writer.old) }
    ensures front_out { result ≡ Err Stop.Write → (legal : Bool)
        × HasDocument config.now (R.remaining reader.old) legal
        (AppendsProperPrefix (W.contents writer.old) (W.contents writer.new)) }
    ensures no_other { IfErr result IsCheckStop }
    ensures read_fault { result ≡ Err Stop.Read →
        ReadsAtMost (R.remaining reader.old) (R.remaining reader.new) MOST_AUDIT_BYTES }
    ensures no_further { ReadsAtMost (R.remaining reader.old) (R.remaining reader.new)
        (MOST_AUDIT_BYTES + 1) }
{
    let (legal, text) = document(alloc, config, reader)?;
    write_bytes(writer, text.as_bytes())?;
    Ok(legal)
}
