//! An audit that is checked and watched while it is read.
ghost use Rattle.std.specs.Prelude.{◌+◌, IfOk, IfErr};
ghost use Rattle.fy_audit.specs.declared.audit.TheConstants.{MOST_AUDIT_BYTES};
ghost use Rattle.fy_check.specs.CheckTexts.{IfFound};
ghost use Rattle.fy_check.specs.Inputs.{IsInputStop, TellsFault};
ghost use Rattle.fy_lines.specs.Readings.{ReadsAtMost};
ghost use Rattle.fy_verdict.specs.Told.{IsNotedBy, IsWatched};

use fy_audit::{Entry, MOST_AUDIT_BYTES};
use fy_check::{AuditInput, Finding, Sink};
use fy_cluster::Config;
use fy_holders::{Outages, Watch};
use fy_streams::Stop;
use std::alloc::{AllocError, Global};
use std::io::Read;

/// What takes the entries of an audit and watches them.
#[derive(Drop)]
struct WatchSink {
    watch: Watch,
}

impl Sink for WatchSink {
    ghost use Rattle.std.specs.Prelude.{◌≡◌};
    ghost use Rattle.fy_replay.specs.Replayed.{HasReplayed};

    ghost has_taken = { λ begun entries now.
        HasReplayed begun.watch.replayed.execution.setup entries now.watch.replayed
        × (now.watch.replayed.version ≡ begun.watch.replayed.version) };

    fn enter(&mut self, entry: Entry) -> Result<(), AllocError> {
        self.watch.enter(entry)
    }
}

/// An audit that was read: what was found of it, and who was destroyed when, if it is legal.
#[derive(Drop)]
pub(crate) struct Watched {
    pub(crate) finding: Finding,
    pub(crate) outages: Option<Outages>,
}

/// What was noted of an audit that was watched, unless an entry is bad.
fn noted(watch: Watch) -> Result<Option<Outages>, AllocError>
    ensures { IfOk result (IsNotedBy watch.replayed) }
{
    match watch.first_bad() {
        None => Ok(Some(watch.finish()?)),
        Some(_) => Ok(None),
    }
}

/// Reads an audit to its end.
///
/// # Errors
///
/// Those of `fy_check::replay_audit`.
pub(crate) fn watch_audit<R: Read>(
    alloc: Global,
    config: &Config,
    reader: &mut R,
) -> Result<Watched, Stop>
    ensures found { IfOk result (λ watched.
        IfFound config.now (R.remaining reader.old) watched.finding) }
    ensures watched { IfOk result (λ watched.
        IsWatched config.now (R.remaining reader.old) watched.finding watched.outages) }
    ensures refused { IfErr result (TellsFault (R.remaining reader.old)) }
    ensures own { IfErr result IsInputStop }
    ensures no_further { ReadsAtMost (R.remaining reader.old) (R.remaining reader.new)
        (MOST_AUDIT_BYTES + 1) }
{
    let mut input = AuditInput::begin(alloc, reader)?;
    let config = config.try_copy(alloc)?;
    let watch = Watch::begin(alloc, config, input.version())?;
    let mut sink = WatchSink { watch };
    let count = input.read_into(reader, &mut sink)?;
    let WatchSink { watch } = sink;
    let first_bad = watch.first_bad();
    let outages = noted(watch)?;
    let finding = Finding { count, first_bad };
    Ok(Watched { finding, outages })
}
