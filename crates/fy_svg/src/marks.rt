//! The marks of columns in which records are acknowledged, and time passes.
use crate::drawing::Drawn;
use crate::layout::{ROW, middle_of, y_of};
use crate::words::write_list;
use fy_picture::{Column, Picture};
use std::alloc::{AllocError, Global};

/// An entry that acknowledged a record.
#[derive(Clone, Copy, PartialEq, Eq, PartialOrd, Ord)]
struct Ack {
    at: u32,
    rec: u64,
}

/// That time passed in a column.
#[derive(Clone, Copy)]
pub(crate) struct Ticks {
    column: usize,
    /// The last entry by which it passed, and the time then.
    at: u32,
    now: u64,
    /// How often it passed.
    count: u64,
}

/// Adds the mark of a column that isn't before the last one. Two of one column become one, with the
/// later entry and time and both counts.
fn add_ticks(ticks: &mut Vec<Ticks>, next: Ticks) -> Result<(), AllocError> {
    if let Some(last) = ticks.last_mut()
        && last.column == next.column
    {
        last.at = next.at;
        last.now = next.now;
        last.count = last.count.saturating_add(next.count);
        return Ok(());
    }
    ticks.push(next)?;
    Ok(())
}

/// Notes that time passed in a column, which is the last of all so far.
pub(crate) fn note_time(
    ticks: &mut Vec<Ticks>,
    column: usize,
    at: u32,
    now: u64,
) -> Result<(), AllocError> {
    add_ticks(
        ticks,
        Ticks {
            column,
            at,
            now,
            count: 1,
        },
    )
}

/// The marks where each two columns become one.
pub(crate) fn fold_ticks(alloc: Global, ticks: &[Ticks]) -> Result<Vec<Ticks>, AllocError> {
    let mut folded = Vec::new(alloc);
    for next in ticks.iter().copied() {
        add_ticks(
            &mut folded,
            Ticks {
                column: next.column / 2,
                at: next.at,
                now: next.now,
                count: next.count,
            },
        )?;
    }
    Ok(folded)
}

/// How many entries come before a column.
fn before(columns: &[Column], column: usize) -> u32 {
    match column.checked_sub(1) {
        Some(last) => match columns.get(last) {
            Some(last) => last.end,
            None => 0,
        },
        None => 0,
    }
}

/// The first column from this one on in which an entry is.
fn column_from(columns: &[Column], from: usize, at: u32) -> usize {
    let mut column = from;
    for shown in columns.iter().skip(from) {
        if shown.end > at {
            return column;
        }
        column = column.saturating_add(1);
    }
    column
}

/// The first and the last entry of a column.
fn write_span(text: &mut String, columns: &[Column], column: usize) -> Result<(), AllocError> {
    let first = before(columns, column);
    let last = before(columns, column.saturating_add(1)).saturating_sub(1);
    write!(text, "entries {first} to {last}: ")
}

/// The entries that acknowledged the records of which the picture tells, in order.
fn acks_of(alloc: Global, picture: &Picture) -> Result<Vec<Ack>, AllocError> {
    let mut acks = Vec::new(alloc);
    for (rec, place) in picture.acked_at.iter().enumerate() {
        if let Some(at) = place {
            acks.push(Ack {
                at: *at,
                rec: rec as u64,
            })?;
        }
    }
    acks.sort()?;
    Ok(acks)
}

/// One mark for the records that a column acknowledges, the last of them at this entry.
fn write_ack(
    text: &mut String,
    columns: &[Column],
    column: usize,
    at: u32,
    recs: &[u64],
    y: u64,
) -> Result<(), AllocError> {
    let x = middle_of(column);
    write!(
        text,
        "<path class=\"acked\" data-entry=\"{at}\" d=\"M{x} {y}m-4 0l3 4 6-8\"><title>"
    )?;
    if let [rec] = recs {
        write!(text, "entry {at}: record {rec} is acknowledged")?;
    } else {
        let count = recs.len();
        write_span(text, columns, column)?;
        write!(text, "{count} records are acknowledged: ")?;
        write_list(text, recs)?;
    }
    text.push_str("</title></path>\n")
}

/// The marks of acknowledged records: at most one a column.
fn write_acks(
    alloc: Global,
    text: &mut String,
    columns: &[Column],
    acks: &[Ack],
    y: u64,
) -> Result<(), AllocError> {
    let mut recs = Vec::new(alloc);
    let mut column = 0;
    for (place, ack) in acks.iter().enumerate() {
        recs.push(ack.rec)?;
        column = column_from(columns, column, ack.at);
        let ends = match acks.get(place + 1) {
            Some(next) => column_from(columns, column, next.at) != column,
            None => true,
        };
        if ends {
            write_ack(text, columns, column, ack.at, &recs, y)?;
            recs.clear();
        }
    }
    Ok(())
}

/// The mark of the time that passed in a column.
fn write_time(
    text: &mut String,
    columns: &[Column],
    ticks: Ticks,
    y: u64,
) -> Result<(), AllocError> {
    let Ticks {
        column,
        at,
        now,
        count,
    } = ticks;
    let x = middle_of(column);
    write!(
        text,
        "<path class=\"tick\" data-entry=\"{at}\" d=\"M{x} {y}v8\"><title>"
    )?;
    if count == 1 {
        write!(text, "entry {at}: the time is {now}")?;
    } else {
        write_span(text, columns, column)?;
        write!(
            text,
            "the time is {now} at the end; it passed {count} times"
        )?;
    }
    text.push_str("</title></path>\n")
}

/// A mark below the rows for each column in which records are acknowledged, and one at the head for
/// each in which time passes.
pub(crate) fn write_marks(
    alloc: Global,
    text: &mut String,
    drawn: &Drawn,
) -> Result<(), AllocError> {
    let columns = drawn.picture.columns.as_slice();
    let acks = acks_of(alloc, &drawn.picture)?;
    let below = y_of(drawn.lanes.len().saturating_add(1)).saturating_add(ROW / 2);
    write_acks(alloc, text, columns, &acks, below)?;
    let above = y_of(0).saturating_sub(12);
    for ticks in drawn.ticks.iter().copied() {
        write_time(text, columns, ticks, above)?;
    }
    Ok(())
}
