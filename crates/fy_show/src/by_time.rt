//! An audit and the events of its run in, a picture by time out.
ghost use Rattle.std.specs.Prelude.{◌≡◌, ◌≢◌, ◌⊎◌, ◌+◌, ℕ, Bool, Some, None, IfOk, IfErr, IfSome, Ok, Err, is_none, string_bytes};
ghost use Rattle.std.specs.Io.KnownBytes.{Appends};
ghost use Rattle.fy_lines.specs.Prefixes.{AppendsProperPrefix};
ghost use Rattle.fy_lines.specs.Readings.{ReadsAtMost};
ghost use Rattle.fy_audit.specs.Audit.{audit_of};
ghost use Rattle.fy_audit.specs.declared.audit.TheConstants.{MOST_AUDIT_BYTES};
ghost use Rattle.fy_events.specs.Events.{EventsOf, Rises};
ghost use Rattle.fy_events.specs.declared.TheConstants.{MOST_EVENTS_BYTES};
ghost use Rattle.fy_streams.specs.Stops.{IfAuditFault, IfEventsFault, IsTimesStop};
ghost use Rattle.fy_check.specs.declared.check.Finding.{Finding};
ghost use Rattle.fy_check.specs.Inputs.{TellsFault};
ghost use Rattle.fy_picture.specs.Recording.{Recording};
ghost use Rattle.fy_replay.specs.Replayed.{HasFirstBad};
ghost use Rattle.fy_svg.specs.Documents.{IsDocument};
ghost use Rattle.fy_show.specs.Shows.{AreRefused, HasDrawn, HasDrawnByTime, HasTimedDocument};

use crate::held::{Held, hold};
use crate::laws::journals_have_findings;
use fy_audit::{Journal, MOST_AUDIT_BYTES};
use fy_check::Finding;
use fy_cluster::Config;
use fy_events::{
    Event, EventsFault, MOST_EVENTS_BYTES, TimeColumns, columns_by_time, events_before, read_events,
};
use fy_lines::write_bytes;
use fy_picture::MOST_COLUMNS;
use fy_streams::{Stop, load_bytes};
use fy_svg::Drawing;
use std::alloc::{AllocError, Global};
use std::io::{Read, Write};

/// The bytes of the file of events that a reader gives.
fn load_lines<R: Read>(alloc: Global, reader: &mut R) -> Result<Vec<u8>, Stop>
    ensures read { IfOk result (λ read. IfSome (R.remaining reader.old)
        (λ lines. read.items ≡ lines)) }
    ensures refused { IfErr result (λ stop. IfEventsFault stop (λ fault. (count : ℕ)
        → IfSome (R.remaining reader.old) (λ lines. EventsOf count lines (Err fault)))) }
    ensures no_audit { IfErr result (λ stop. IfAuditFault stop (λ _. ⊥)) }
    ensures own { IfErr result IsTimesStop }
    ensures no_write { IfErr result (λ stop. stop ≢ Stop.Write) }
    ensures read_fault { result ≡ Err Stop.Read →
        ReadsAtMost (R.remaining reader.old) (R.remaining reader.new) MOST_EVENTS_BYTES }
    ensures no_further { ReadsAtMost (R.remaining reader.old) (R.remaining reader.new)
        (MOST_EVENTS_BYTES + 1) }
{
    let too_long = Stop::Events {
        fault: EventsFault::TooLong,
    };
    load_bytes(alloc, reader, MOST_EVENTS_BYTES, too_long)
}

/// The events of a file, of so many entries.
fn events_of(alloc: Global, bytes: &[u8], count: u32) -> Result<Vec<Event>, Stop>
    ensures read { IfOk result (λ events. EventsOf count bytes.now (Ok events.items)) }
    ensures rise { IfOk result (λ events. Rises count None events.items) }
    ensures refused { IfErr result (λ stop. IfEventsFault stop
        (λ fault. EventsOf count bytes.now (Err fault))) }
    ensures no_audit { IfErr result (λ stop. IfAuditFault stop (λ _. ⊥)) }
    ensures own { IfErr result IsTimesStop }
    ensures no_output { IfErr result (λ stop. stop ≢ Stop.Read × stop ≢ Stop.Write) }
{
    match read_events(alloc, bytes, count) {
        Ok(events) => Ok(events),
        Err(EventsFault::NoMemory) => Err(Stop::NoMemory),
        Err(fault) => Err(Stop::Events { fault }),
    }
}

/// The events of so many entries that a reader gives.
fn load_events<R: Read>(alloc: Global, reader: &mut R, count: u32) -> Result<Vec<Event>, Stop>
    ensures read { IfOk result (λ events. IfSome (R.remaining reader.old)
        (λ lines. EventsOf count lines (Ok events.items))) }
    ensures rise { IfOk result (λ events. Rises count None events.items) }
    ensures refused { IfErr result (λ stop. IfEventsFault stop (λ fault.
        IfSome (R.remaining reader.old) (λ lines. EventsOf count lines (Err fault)))) }
    ensures no_audit { IfErr result (λ stop. IfAuditFault stop (λ _. ⊥)) }
    ensures own { IfErr result IsTimesStop }
    ensures no_write { IfErr result (λ stop. stop ≢ Stop.Write) }
    ensures read_fault { result ≡ Err Stop.Read →
        ReadsAtMost (R.remaining reader.old) (R.remaining reader.new) MOST_EVENTS_BYTES }
    ensures no_further { ReadsAtMost (R.remaining reader.old) (R.remaining reader.new)
        (MOST_EVENTS_BYTES + 1) }
{
    let lines = load_lines(alloc, reader)?;
    events_of(alloc, &lines, count)
}

/// Has each entry of a journal checked and drawn, in columns by the times of events.
fn draw_in(
    alloc: Global,
    config: &Config,
    journal: &Journal,
    columns: TimeColumns,
    events: Vec<Event>,
) -> Result<Drawing, AllocError>
    ensures { IfOk result (HasDrawn config.now (audit_of journal.now) (Some columns.ends.items)) }
{
    let version = journal.version();
    let mut drawing = Drawing::begin_by_time(alloc, config, version, columns, events)?;
    drawing.enter_all(journal)?;
    Ok(drawing)
}

/// Draws the entries of a journal up to the first bad one, in columns by the times of the events of
/// those that are good by this finding.
fn draw(
    alloc: Global,
    config: &Config,
    journal: &Journal,
    finding: Finding,
    events: &[Event],
) -> Result<Drawing, AllocError>
    requires { Rises finding.count None events.now }
    ensures { IfOk result (HasDrawnByTime config.now (audit_of journal.now) finding events.now) }
{
    let good = finding.first_bad.unwrap_or(finding.count);
    let drawn = events_before(events, good);
    let columns = columns_by_time(alloc, drawn, good, MOST_COLUMNS)?;
    draw_in(
        alloc,
        config,
        journal,
        columns,
        Vec::from_slice(alloc, events)?,
    )
}

/// What is found of an audit that is held, and its drawing in columns by time. Only a drawing tells
/// which entries are good, and where the columns end goes by these: so all are taken as good first,
/// and where one is bad the audit is drawn once more.
fn draw_found(
    alloc: Global,
    config: &Config,
    held: &Held,
    events: &[Event],
) -> Result<(Finding, Drawing), AllocError>
    requires { Rises held.now.count None events.now }
    ensures count { IfOk result (λ found. found.0.count ≡ held.now.count) }
    ensures first { IfOk result (λ found. HasFirstBad held.now.journal.version config.now
        held.now.journal.entries found.0.first_bad) }
    ensures drawn { IfOk result (λ found.
        HasDrawnByTime config.now (audit_of held.now.journal) found.0 events.now found.1) }
{
    let count = held.count;
    let all_good = Finding {
        count,
        first_bad: None,
    };
    let drawing = draw(alloc, config, &held.journal, all_good, events)?;
    let finding = Finding {
        count,
        first_bad: drawing.first_bad(),
    };
    if finding.first_bad.is_none() {
        return Ok((finding, drawing));
    }
    drop(drawing);
    let again = draw(alloc, config, &held.journal, finding, events)?;
    Ok((finding, again))
}

/// The document of an audit that is held and of its events, and whether the audit is legal.
fn document(
    alloc: Global,
    config: &Config,
    held: &Held,
    events: &[Event],
) -> Result<(bool, String), AllocError>
    requires { Rises held.now.count None events.now }
    ensures { IfOk result (λ document. (finding : Finding) × (finding.count ≡ held.now.count)
        × HasFirstBad held.now.journal.version config.now held.now.journal.entries finding.first_bad
        × (document.0 ≡ is_none finding.first_bad) × (drawing : Recording)
        × HasDrawnByTime config.now (audit_of held.now.journal) finding events.now drawing
        × IsDocument drawing (string_bytes document.1)) }
{
    let (finding, drawing) = draw_found(alloc, config, held, events)?;
    Ok((finding.first_bad.is_none(), drawing.finish(config)?))
}

/// Reads an audit and a file of events, each from its reader to its end, and writes one SVG
/// document as `run_show` does, whose columns are laid by the times of the events. The answer is
/// whether the audit is legal.
///
/// The audit is read first, for its faults, and its entries are held; then the events are read.
/// Then the entries are checked as they are drawn: once more where one is bad, since the columns go
/// by those before it. All is drawn before the first byte is written.
///
/// # Errors
///
/// `Audit` for an audit that is refused: no event is read then. `Events` for a file of events that
/// is refused, `Read` where one of the readers fails, `NoMemory` where an allocation fails. Nothing
/// is written but after `Write`, when a front of the document is out, and never all of it.
pub fn run_show_by_time<R: Read, E: Read, W: Write>(
    alloc: Global,
    config: &Config,
    reader: &mut R,
    events: &mut E,
    writer: &mut W,
) -> Result<bool, Stop>
    ensures done { IfOk result (λ legal.
        HasTimedDocument config.now (R.remaining reader.old) (E.remaining events.old) legal
        (Appends (W.contents writer.old) (W.contents writer.new))) }
    ensures audit_refused { IfErr result (TellsFault (R.remaining reader.old)) }
    ensures unread { IfErr result (λ stop. IfAuditFault stop
        (λ fault. E.remaining events.new ≡ E.remaining events.old)) }
    ensures events_refused { IfErr result (λ stop. IfEventsFault stop
        (AreRefused config.now (R.remaining reader.old) (E.remaining events.old))) }
    ensures nothing_out { IfErr result (λ stop. stop ≢ Stop.Write →
        W.contents writer.new ≡ W.contents writer.old) }
    ensures front_out { result ≡ Err Stop.Write → (legal : Bool)
        × HasTimedDocument config.now (R.remaining reader.old) (E.remaining events.old) legal
        (AppendsProperPrefix (W.contents writer.old) (W.contents writer.new)) }
    ensures no_other { IfErr result IsTimesStop }
    ensures read_fault { result ≡ Err Stop.Read →
        ReadsAtMost (R.remaining reader.old) (R.remaining reader.new) MOST_AUDIT_BYTES
        ⊎ ReadsAtMost (E.remaining events.old) (E.remaining events.new) MOST_EVENTS_BYTES }
    ensures no_further { ReadsAtMost (R.remaining reader.old) (R.remaining reader.new)
        (MOST_AUDIT_BYTES + 1) }
    ensures no_event_further { ReadsAtMost (E.remaining events.old) (E.remaining events.new)
        (MOST_EVENTS_BYTES + 1) }
{
    // Events may be refused before the audit is checked.
    journals_have_findings();
    let held = hold(alloc, reader)?;
    let told = load_events(alloc, events, held.count)?;
    let (legal, text) = document(alloc, config, &held, &told)?;
    write_bytes(writer, text.as_bytes())?;
    Ok(legal)
}
