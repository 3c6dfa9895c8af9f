//! Rings round the orders for which something else was done than was answered.
use crate::layout::{ROW, middle_of, y_of};
use crate::words::{write_floor, write_order};
use fy_acts::Entry;
use fy_events::{Done, Event, differs};
use fy_locality::ProcSet;
use std::alloc::{AllocError, Global};

/// The outline of a ring round the current point: one circle within another.
pub(crate) const RING: &str =
    "m-7 0a7 7 0 1 0 14 0a7 7 0 1 0-14 0zm1.5 0a5.5 5.5 0 1 1 11 0a5.5 5.5 0 1 1-11 0z";

/// An order, and what was done for it.
#[derive(Drop)]
struct Deed {
    order: Entry,
    done: Done,
}

/// What a column has at a row.
#[derive(Clone, Copy)]
struct Ring {
    /// The place of the first deed among those of the column.
    place: usize,
    /// How many there are.
    count: u32,
}

const NO_RING: Ring = Ring { place: 0, count: 0 };

/// The events of the entries, and the rings round their orders, column by column: the first of a
/// column stands for all.
#[derive(Drop)]
pub(crate) struct Rings {
    events: Vec<Event>,
    /// How many events are of entries before the last order.
    passed: usize,
    /// At which row each process stands.
    rows: Vec<usize>,
    /// What the open column has of each process, and of nobody.
    open: Vec<Ring>,
    /// The deeds of the open column that are the first at a row.
    deeds: Vec<Deed>,
    /// The rings of the columns that have ended.
    text: String,
}

/// What was done, behind the words for the order.
fn write_done(text: &mut String, done: Done) -> Result<(), AllocError> {
    match done {
        Done::Untold => Ok(()),
        Done::Nothing => text.push_str("; nothing was done"),
        Done::Clog => text.push_str("; a clog was done"),
        Done::Kill(kind) => {
            let kind = kind.text();
            write!(text, "; {kind} was done")
        }
    }
}

/// A ring in a column and a row.
fn write_ring(
    text: &mut String,
    deed: &Deed,
    count: u32,
    column: usize,
    row: usize,
) -> Result<(), AllocError> {
    let x = middle_of(column);
    let y = y_of(row).saturating_add(ROW / 2 - 2);
    let at = deed.order.at;
    write!(
        text,
        "<path class=\"otherwise\" data-entry=\"{at}\" d=\"M{x} {y}{RING}\"><title>"
    )?;
    write_order(text, &deed.order)?;
    write_floor(text, &deed.order)?;
    write_done(text, deed.done)?;
    if count > 1 {
        write!(text, "; the first of {count} such orders here")?;
    }
    text.push_str("</title></path>\n")
}

/// The rings of one column. What it has is cleared after it.
fn write_column(
    text: &mut String,
    deeds: &[Deed],
    open: &mut [Ring],
    rows: &[usize],
    column: usize,
) -> Result<(), AllocError> {
    for place in 0..open.len() {
        let ring = open[place];
        open[place] = NO_RING;
        let row = match rows.get(place) {
            Some(row) => *row,
            None => rows.len(),
        };
        if ring.count > 0
            && let Some(deed) = deeds.get(ring.place)
        {
            write_ring(text, deed, ring.count, column, row)?;
        }
    }
    Ok(())
}

/// Notes a deed at a row. The answer is whether it is the first there.
fn note(open: &mut [Ring], row: usize, place: usize) -> bool {
    let Some(ring) = open.get_mut(row) else {
        return false;
    };
    ring.count = ring.count.saturating_add(1);
    if ring.count > 1 {
        return false;
    }
    ring.place = place;
    true
}

impl Rings {
    /// No deed yet, in the first column. The rows say where each process stands, and the events
    /// what was done.
    pub(crate) fn begin(
        alloc: Global,
        rows: Vec<usize>,
        events: Vec<Event>,
    ) -> Result<Rings, AllocError> {
        let open = vec![in alloc; NO_RING; rows.len().saturating_add(1)]?;
        Ok(Rings {
            events,
            passed: 0,
            rows,
            open,
            deeds: Vec::new(alloc),
            text: String::new(alloc),
        })
    }

    /// What the event of an entry says was done. Entries come in order.
    fn done_at(&mut self, at: u32) -> Done {
        while let Some(event) = self.events.get(self.passed) {
            if event.entry == at {
                return event.done;
            }
            if event.entry > at {
                return Done::Untold;
            }
            self.passed += 1;
        }
        Done::Untold
    }

    /// Notes an order in the open column, where something else was done than its reply says.
    pub(crate) fn note(
        &mut self,
        alloc: Global,
        named: &ProcSet,
        order: &Entry,
    ) -> Result<(), AllocError> {
        let done = self.done_at(order.at);
        if !differs(order, done) {
            return Ok(());
        }
        let place = self.deeds.len();
        let mut is_first = false;
        for p in named.iter() {
            if note(&mut self.open, p.0 as usize, place) {
                is_first = true;
            }
        }
        if named.is_empty() && note(&mut self.open, self.rows.len(), place) {
            is_first = true;
        }
        if is_first {
            let order = order.try_copy(alloc)?;
            self.deeds.push(Deed { order, done })?;
        }
        Ok(())
    }

    /// Writes the rings of the open column, which ends.
    pub(crate) fn end_column(&mut self, column: usize) -> Result<(), AllocError> {
        write_column(
            &mut self.text,
            &self.deeds,
            &mut self.open,
            &self.rows,
            column,
        )?;
        self.deeds.clear();
        Ok(())
    }

    /// The rings of all columns that have ended.
    pub(crate) fn into_text(self) -> String {
        self.text
    }
}
