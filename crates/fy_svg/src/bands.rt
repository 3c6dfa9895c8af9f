//! The bands of a row.
use crate::layout::{ROW, x_of};
use crate::pieces::push_text_and_number;
use fy_cluster::Status;
use fy_locality::{ProcId, ProcSet};
use fy_picture::{Column, States, symmetric_difference};
use std::alloc::{AllocError, Global};

/// The class of the broad part of a band.
fn class_of(state: Status) -> &'static str {
    if state.gone {
        "gone"
    } else if state.up {
        "up"
    } else {
        "down"
    }
}

/// A stripe of a band, so far below the row's upper end and so high.
fn write_stripe(
    text: &mut String,
    class: &str,
    from: usize,
    to: usize,
    y: u64,
    height: u64,
) -> Result<(), AllocError> {
    let x = x_of(from);
    let width = x_of(to).saturating_sub(x);
    text.push_str("<rect class=\"")?;
    text.push_str(class)?;
    push_text_and_number(text, "\" x=\"", x)?;
    push_text_and_number(text, "\" y=\"", y)?;
    push_text_and_number(text, "\" width=\"", width)?;
    push_text_and_number(text, "\" height=\"", height)?;
    push_text_and_number(text, "\" data-from=\"", from as u64)?;
    push_text_and_number(text, "\" data-to=\"", to as u64)?;
    text.push_str("\"/>\n")
}

/// What a process was like from one column up to another.
fn write_band(
    text: &mut String,
    state: Status,
    from: usize,
    to: usize,
    y: u64,
) -> Result<(), AllocError> {
    write_stripe(
        text,
        class_of(state),
        from,
        to,
        y.saturating_add(2),
        ROW - 8,
    )?;
    if state.destroyed && !state.gone {
        write_stripe(text, "emptied", from, to, y.saturating_add(ROW - 6), 3)?;
    }
    if state.clogged {
        write_stripe(text, "clogged", from, to, y, 3)?;
    }
    Ok(())
}

/// The processes whose state isn't the same at two columns.
fn changed(before: &States, after: &States) -> ProcSet {
    symmetric_difference(&before.up, &after.up)
        .union(&symmetric_difference(&before.clogged, &after.clogged))
        .union(&symmetric_difference(&before.destroyed, &after.destroyed))
        .union(&symmetric_difference(&before.left, &after.left))
}

/// For each of so many processes the columns at which its state isn't that of the column before,
/// rising. Whole sets are compared, so that rows cost what changes, and not each process at each
/// column.
pub(crate) fn changes_of(
    alloc: Global,
    columns: &[Column],
    processes: u32,
) -> Result<Vec<Vec<usize>>, AllocError> {
    let mut changes = Vec::new(alloc);
    for _process in 0..processes {
        changes.push(Vec::new(alloc))?;
    }
    for at in 1..columns.len() {
        for p in changed(&columns[at - 1].states, &columns[at].states).iter() {
            if let Some(own) = changes.get_mut(p.0 as usize) {
                own.push(at)?;
            }
        }
    }
    Ok(changes)
}

/// The band of a process from one column up to another, in the state of the first.
fn write_band_from(
    text: &mut String,
    columns: &[Column],
    process: u32,
    from: usize,
    to: usize,
    y: u64,
) -> Result<(), AllocError> {
    match columns.get(from) {
        Some(column) => write_band(text, column.states.status(ProcId(process)), from, to, y),
        None => Ok(()),
    }
}

/// The bands of a process's row: columns that follow one another in the same state are one. Its
/// state changes at those given.
pub(crate) fn write_bands(
    text: &mut String,
    columns: &[Column],
    changes: &[usize],
    process: u32,
    y: u64,
) -> Result<(), AllocError> {
    let mut from = 0;
    for at in changes {
        write_band_from(text, columns, process, from, *at, y)?;
        from = *at;
    }
    write_band_from(text, columns, process, from, columns.len(), y)
}
