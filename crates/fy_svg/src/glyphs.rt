//! The glyphs of orders, at the processes that they name.
ghost use Rattle.std.specs.Prelude.{◌≡◌, ◌+◌, ◌++◌, [], min, replicate, IfOk, OnErr, OnOk, length, slice_get, slice_set};
ghost use Rattle.std.specs.List.{filter};
ghost use Rattle.fy_locality.specs.declared.TheConstants.{MOST_PROCESSES};
ghost use Rattle.fy_svg.specs.Marks.{JoinsMark, is_mark, joined, marks_in, no_mark};

use crate::layout::{ROW, middle_of, y_of};
use crate::pieces::push_text_and_number;
use crate::words::{write_floor, write_order};
use fy_acts::{Act, Entry, Reply};
use fy_kinds::Kind;
use fy_locality::{MOST_PROCESSES, ProcId, ProcSet};
use fy_picture::struck_as_ordered;
use std::alloc::{AllocError, Global};
use std::marker::Model;
use std::mem::swap;

/// What a column has at a process, or at nobody, who has the number behind the last process.
#[derive(Clone, Copy)]
struct Mark {
    process: usize,
    /// The place of the hardest order there, among those that are kept of the column.
    order: usize,
    /// How hard it is; 0 where there is none.
    weight: u32,
    /// How many orders there are.
    count: u32,
}

const NO_MARK: Mark = Mark {
    process: 0,
    order: 0,
    weight: 0,
    count: 0,
};

/// The orders of a column, each of which is the hardest somewhere, and where.
#[derive(Drop)]
struct Marked {
    column: usize,
    /// In the order of processes.
    marks: Vec<Mark>,
    orders: Vec<Entry>,
}

/// How hard a kind is, from 5.
fn weight_of(kind: Kind) -> u32 {
    match kind {
        Kind::RebootProcess => 5,
        Kind::Reboot => 6,
        Kind::RebootAndDelete => 7,
        Kind::KillInstantly => 8,
    }
}

/// How hard an order is: a kill by the kind that struck, then a kill that struck nobody, a refused
/// kill, a clog, and the end of one; 0 for any other act.
fn hardness(entry: &Entry) -> u32 {
    match entry.act {
        Act::Kill { .. } => match entry.reply {
            Reply::Verdict(verdict) => match verdict.struck {
                Some(kind) => weight_of(kind),
                None => 4,
            },
            _ => 3,
        },
        Act::Clog { .. } => 2,
        Act::Unclog { .. } => 1,
        _ => 0,
    }
}

/// Whether the entry is an order.
pub(crate) fn is_order(entry: &Entry) -> bool {
    hardness(entry) > 0
}

/// The outline of an order's glyph, as an SVG path round the current point.
fn outline(entry: &Entry) -> &'static str {
    match entry.act {
        Act::Kill { order } => match order.kind() {
            Kind::RebootProcess => "m-3 0a3 3 0 1 0 6 0a3 3 0 1 0-6 0z",
            Kind::Reboot => "m-4 0a4 4 0 1 0 8 0a4 4 0 1 0-8 0z",
            Kind::RebootAndDelete => "m0-5l5 5-5 5-5-5z",
            Kind::KillInstantly => "m-4-4h8v8h-8z",
        },
        Act::Clog { .. } => "m0-4l4 8h-8z",
        _ => "m0 4l4-8h-8z",
    }
}

/// A glyph in a column and a row.
fn write_glyph(
    text: &mut String,
    entry: &Entry,
    count: u32,
    column: usize,
    row: usize,
) -> Result<(), AllocError> {
    let class = if struck_as_ordered(entry) {
        "filled"
    } else {
        "hollow"
    };
    let x = middle_of(column);
    let y = y_of(row).saturating_add(ROW / 2 - 2);
    text.push_str("<path class=\"order ")?;
    text.push_str(class)?;
    push_text_and_number(text, "\" data-entry=\"", u64::from(entry.at))?;
    push_text_and_number(text, "\" d=\"M", x)?;
    push_text_and_number(text, " ", y)?;
    text.push_str(outline(entry))?;
    text.push_str("\"><title>")?;
    write_order(text, entry)?;
    if count > 1 {
        write!(text, "; the hardest of {count} orders here")?;
    }
    write_floor(text, entry)?;
    text.push_str("</title></path>\n")
}

/// A place for each process, and one for nobody.
const MOST_PLACES: usize = MOST_PROCESSES as usize + 1;

/// What an open column has of each process, and of nobody.
#[derive(Drop)]
struct Open {
    marks: Vec<Mark>,
    /// The processes that have a mark. When the column ends no others are looked at.
    marked: ProcSet,
}

impl Model for Open {
    ghost use Rattle.std.specs.Prelude.{List};
    ghost use Rattle.fy_svg.specs.declared.glyphs.Mark.{Mark};
    ghost use Rattle.fy_svg.specs.Marks.{AreMarked};

    ghost Value = { List Mark };

    ghost view = { λ column. column.marks.items };

    ghost invariant = { λ column. AreMarked column.marks.items column.marked };
}

/// Two marks of a place as one: the harder order stands for both, of two equals the first, and
/// their counts add up.
fn joined(first: Mark, second: Mark) -> Mark
    ensures { result ≡ joined first second }
{
    let mut harder = if second.weight > first.weight {
        second
    } else {
        first
    };
    harder.count = first.count.saturating_add(second.count);
    harder
}

/// Takes the mark at a place, where there is one.
fn take_mark(marks: &mut Vec<Mark>, place: usize, taken: &mut Vec<Mark>) -> Result<(), AllocError>
    ensures marks { OnOk result (marks.new.items ≡ slice_set marks.old.items place no_mark) }
    ensures taken { OnOk result
        (taken.new.items ≡ taken.old.items ++ marks_in (slice_get marks.old.items place)) }
    ensures kept { OnErr result (marks.new.items ≡ marks.old.items) }
{
    if place >= marks.len() {
        return Ok(());
    }
    let mark = marks[place];
    if mark.weight > 0 {
        taken.push(mark)?;
    }
    marks[place] = NO_MARK;
    Ok(())
}

impl Open {
    /// A column without a mark at so many places, of which nobody has the last.
    fn begin(alloc: Global, places: usize) -> Result<Open, AllocError>
        ensures { IfOk result (λ column.
            column ≡ replicate (min places (MOST_PROCESSES + 1)) no_mark) }
    {
        Ok(Open {
            marks: vec![in alloc; NO_MARK; places.min(MOST_PLACES)]?,
            marked: ProcSet::empty(),
        })
    }

    /// How many places there are.
    fn places(&self) -> usize
        ensures { result ≡ length self.now }
    {
        self.marks.len()
    }

    /// Joins a mark with the one at its process, where that has a place. The answer is whether the
    /// new mark's order stands for both.
    fn join(&mut self, mark: Mark) -> bool
        ensures { JoinsMark mark self.old self.new result }
    {
        let place = mark.process;
        if place >= self.marks.len() {
            return false;
        }
        let there = self.marks[place];
        self.marks[place] = joined(there, mark);
        let is_harder = mark.weight > there.weight;
        if is_harder && place < MOST_PROCESSES as usize {
            self.marked.put(ProcId(place as u32));
        }
        is_harder
    }

    /// Takes all marks, in the order of processes, and nobody's at the end.
    fn take(&mut self, alloc: Global) -> Result<Vec<Mark>, AllocError>
        ensures taken { IfOk result (λ taken. taken.items ≡ filter is_mark self.old) }
        ensures none { OnOk result (filter is_mark self.new ≡ []) }
    {
        let mut taken = Vec::new(alloc);
        while let Some(p) = self.marked.least() {
            take_mark(&mut self.marks, p.0 as usize, &mut taken)?;
            self.marked.drop_one(p);
        }
        // Beside 1024 processes nobody's number is in no set.
        let nobody = self.marks.len().saturating_sub(1);
        take_mark(&mut self.marks, nobody, &mut taken)?;
        Ok(taken)
    }
}

/// The new place of each order that a mark names, in the same order; `None` for the others.
fn kept_places(
    alloc: Global,
    marks: &[Mark],
    orders: usize,
) -> Result<Vec<Option<usize>>, AllocError> {
    let mut places = vec![in alloc; None; orders]?;
    for mark in marks {
        if let Some(place) = places.get_mut(mark.order) {
            *place = Some(0);
        }
    }
    let mut kept: usize = 0;
    for place in 0..places.len() {
        if places[place].is_some() {
            places[place] = Some(kept);
            kept = kept.saturating_add(1);
        }
    }
    Ok(places)
}

/// The marks of a column that has ended, with the orders that they name and no others.
fn with_named(
    alloc: Global,
    column: usize,
    marks: Vec<Mark>,
    orders: Vec<Entry>,
) -> Result<Marked, AllocError> {
    let mut marks = marks;
    let places = kept_places(alloc, &marks, orders.len())?;
    for at in 0..marks.len() {
        if let Some(Some(place)) = places.get(marks[at].order) {
            marks[at].order = *place;
        }
    }
    let mut kept = Vec::new(alloc);
    for (at, order) in orders.into_iter().enumerate() {
        if let Some(Some(_)) = places.get(at) {
            kept.push(order)?;
        }
    }
    Ok(Marked {
        column,
        marks,
        orders: kept,
    })
}

/// Makes two columns one, of this number.
fn merge(
    alloc: Global,
    open: &mut Open,
    column: usize,
    first: Marked,
    second: Marked,
) -> Result<Marked, AllocError> {
    let Marked {
        column: _,
        marks: early,
        mut orders,
    } = first;
    let Marked {
        column: _,
        marks: late,
        orders: more,
    } = second;
    for mark in early.iter().copied() {
        open.join(mark);
    }
    let before = orders.len();
    for mark in late.iter().copied() {
        let mut mark = mark;
        mark.order = mark.order.saturating_add(before);
        open.join(mark);
    }
    for order in more.into_iter() {
        orders.push(order)?;
    }
    let marks = open.take(alloc)?;
    with_named(alloc, column, marks, orders)
}

/// The glyph of each order at each process that it names, column by column: the hardest of a column
/// stands for all. An order that names nobody stands below the rows.
#[derive(Drop)]
pub(crate) struct Glyphs {
    alloc: Global,
    /// At which row each process stands.
    rows: Vec<usize>,
    open: Open,
    /// The orders of the open column that are or were the hardest of a process: at most eight a
    /// process, whatever the column has.
    orders: Vec<Entry>,
    /// The columns that have ended, but those without an order.
    ended: Vec<Marked>,
}

impl Glyphs {
    /// No order yet, in the first column. The rows say where each process stands.
    pub(crate) fn begin(alloc: Global, rows: Vec<usize>) -> Result<Glyphs, AllocError> {
        let open = Open::begin(alloc, rows.len().saturating_add(1))?;
        Ok(Glyphs {
            alloc,
            rows,
            open,
            orders: Vec::new(alloc),
            ended: Vec::new(alloc),
        })
    }

    /// Notes an order in the open column.
    pub(crate) fn note(&mut self, named: &ProcSet, order: Entry) -> Result<(), AllocError> {
        let mut mark = Mark {
            process: self.rows.len(),
            order: self.orders.len(),
            weight: hardness(&order),
            count: 1,
        };
        let mut is_hardest = false;
        if named.is_empty() {
            is_hardest = self.open.join(mark);
        }
        for p in named.iter() {
            mark.process = p.0 as usize;
            if self.open.join(mark) {
                is_hardest = true;
            }
        }
        if is_hardest {
            self.orders.push(order)?;
        }
        Ok(())
    }

    /// Ends the open column, which has this number.
    pub(crate) fn end_column(&mut self, column: usize) -> Result<(), AllocError> {
        // Each mark is of an order.
        if self.orders.is_empty() {
            return Ok(());
        }
        let marks = self.open.take(self.alloc)?;
        if marks.is_empty() {
            return Ok(());
        }
        let mut orders = Vec::new(self.alloc);
        swap(&mut orders, &mut self.orders);
        self.ended
            .push(with_named(self.alloc, column, marks, orders)?)?;
        Ok(())
    }

    /// Makes each two columns that have ended one.
    pub(crate) fn fold(&mut self) -> Result<(), AllocError> {
        let mut open = Open::begin(self.alloc, self.open.places())?;
        let mut ended = Vec::new(self.alloc);
        swap(&mut ended, &mut self.ended);
        for next in ended.into_iter() {
            let folded = fold_next(self.alloc, &mut open, &mut self.ended, next)?;
            self.ended.push(folded)?;
        }
        Ok(())
    }

    /// Writes the glyphs of all columns that have ended.
    pub(crate) fn write(&self, text: &mut String) -> Result<(), AllocError> {
        for ended in &self.ended {
            for mark in &ended.marks {
                let row = match self.rows.get(mark.process) {
                    Some(row) => *row,
                    None => self.rows.len(),
                };
                if let Some(order) = ended.orders.get(mark.order) {
                    write_glyph(text, order, mark.count, ended.column, row)?;
                }
            }
        }
        Ok(())
    }
}

/// Folds the next column into the last folded one where the two are a pair, and else alone.
fn fold_next(
    alloc: Global,
    open: &mut Open,
    folded: &mut Vec<Marked>,
    next: Marked,
) -> Result<Marked, AllocError> {
    let column = next.column / 2;
    let is_second = match folded.last() {
        Some(last) => last.column == column,
        None => false,
    };
    if is_second && let Some(first) = folded.pop() {
        return merge(alloc, open, column, first, next);
    }
    let Marked {
        column: _,
        marks,
        orders,
    } = next;
    Ok(Marked {
        column,
        marks,
        orders,
    })
}
