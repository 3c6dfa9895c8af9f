//! The picture of a journal.
ghost use Rattle.std.specs.Prelude.{Err, IfErr, IfOk, OnOk, IsSomeAnd, length};
ghost use Rattle.fy_cluster.specs.Versions.{LegalUnder};
ghost use Rattle.fy_replay.specs.Check.{ChecksOrOom};
ghost use Rattle.fy_picture.specs.Layouts.{AreEven, IsWidth};
ghost use Rattle.fy_picture.specs.Pictures.{IsPicture};

use crate::{Column, Recorder};
use fy_acts::Journal;
use fy_cluster::Config;
use fy_locality::ProcId;
use fy_replay::CheckFault;
use std::alloc::{AllocError, Global};

/// A journal, drawn from left to right.
#[derive(Drop)]
pub struct Picture {
    /// How many entries a column stands for, where all stand for as many; the last may stand for
    /// fewer.
    pub width: Option<usize>,
    /// The cluster at the end of each column: at most `MOST_COLUMNS` where all are even, else one
    /// for each end that was given and reached.
    pub columns: Vec<Column>,
    /// Of each record that was begun, by its number and up to `MOST_KEPT` of them, which process
    /// keeps it at the end.
    pub keepers: Vec<Option<ProcId>>,
    /// Of each of these records at which entry it was acknowledged.
    pub acked_at: Vec<Option<u32>>,
}

/// The picture of a legal journal under this configuration.
///
/// # Errors
///
/// `BadEntry` at the first entry that isn't what the rules give, as `fy_replay::replay`; `NoMemory`
/// where an allocation fails.
pub fn draw(alloc: Global, config: &Config, journal: &Journal) -> Result<Picture, CheckFault>
    ensures picture { IfOk result (IsPicture config.now journal.now.entries) }
    ensures even { IfOk result (λ picture.
        AreEven (length journal.now.entries) picture.columns.items
        × IsSomeAnd picture.width (IsWidth (length journal.now.entries))) }
    ensures legal { OnOk result
        (LegalUnder journal.now.version config.now journal.now.entries) }
    ensures bad { IfErr result (λ fault.
        ChecksOrOom journal.now.version config.now journal.now.entries (Err fault)) }
{
    journal.invariant();
    let mut recorder = Recorder::begin(alloc, config.try_copy(alloc)?, journal.version())?;
    for entry in journal.entries() {
        recorder.enter(entry.try_copy(alloc)?)?;
        if let Some(at) = recorder.first_bad() {
            return Err(CheckFault::BadEntry { at });
        }
    }
    Ok(recorder.finish()?)
}
