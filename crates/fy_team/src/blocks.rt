//! For each block of records who has marked one of them, so that a heal passes over the blocks that
//! a process has no mark in.
ghost use Rattle.std.specs.Prelude.{◌≡◌, ◌<◌, ◌≤◌, ◌*◌, ◌+◌, ℕ, length, OnOk, OnErr};
ghost use Rattle.fy_team.specs.Index.{set_of_block};

use fy_locality::ProcSet;
use std::alloc::AllocError;

/// How many records are in a block.
pub(crate) const BLOCK: usize = 256;

/// Makes a set for the block of the next record, if it isn't there yet.
///
/// # Errors
///
/// `AllocError` only if the allocation fails. The sets then stay as they were.
pub(crate) fn open_block(marked: &mut Vec<ProcSet>, rec: usize) -> Result<(), AllocError>
    ensures room { OnOk result (rec ≤ BLOCK * length marked.old.items →
        rec < BLOCK * length marked.new.items) }
    ensures few { BLOCK * length marked.old.items ≤ rec + BLOCK →
        BLOCK * length marked.new.items ≤ rec + BLOCK }
    ensures err { OnErr result (marked.new.items ≡ marked.old.items) }
    ensures same { (block : ℕ) →
        set_of_block marked.new.items block ≡ set_of_block marked.old.items block }
{
    if rec / BLOCK >= marked.len() {
        marked.push(ProcSet::empty())?;
    }
    Ok(())
}
