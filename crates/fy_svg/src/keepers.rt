//! Which process keeps each record at the end.
use crate::lanes::Lane;
use crate::layout::{ROW, x_of, y_of};
use crate::words::write_list;
use fy_locality::ProcId;
use fy_picture::Picture;
use std::alloc::{AllocError, Global};

/// Of how many records a process's words tell; its title has all.
const MOST_TOLD: usize = 5;

/// The numbers of the records that a process keeps.
fn kept_by(
    alloc: Global,
    keepers: &[Option<ProcId>],
    process: u32,
) -> Result<Vec<u64>, AllocError> {
    let mut kept = Vec::new(alloc);
    for (rec, keeper) in keepers.iter().enumerate() {
        if let Some(p) = keeper
            && p.0 == process
        {
            kept.push(rec as u64)?;
        }
    }
    Ok(kept)
}

/// The records that a process keeps, at the right of its row.
fn write_kept(text: &mut String, kept: &[u64], x: u64, y: u64) -> Result<(), AllocError> {
    if kept.is_empty() {
        return Ok(());
    }
    let told = kept.len().min(MOST_TOLD);
    let others = kept.len().saturating_sub(told);
    write!(text, "<text class=\"keeps\" x=\"{x}\" y=\"{y}\">keeps ")?;
    write_list(text, &kept[..told])?;
    if others > 0 {
        write!(text, " and {others} more")?;
    }
    text.push_str("<title>keeps ")?;
    write_list(text, kept)?;
    text.push_str("</title></text>\n")
}

/// At the right of each process's row the records that it keeps at the end.
pub(crate) fn write_keepers(
    alloc: Global,
    text: &mut String,
    picture: &Picture,
    lanes: &[Lane],
) -> Result<(), AllocError> {
    let x = x_of(picture.columns.len()).saturating_add(6);
    for (row, lane) in lanes.iter().enumerate() {
        let kept = kept_by(alloc, &picture.keepers, lane.process)?;
        let y = y_of(row).saturating_add(ROW - 6);
        write_kept(text, &kept, x, y)?;
    }
    Ok(())
}
