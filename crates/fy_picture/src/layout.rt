//! Where the columns of a picture end.
ghost use Rattle.std.specs.Prelude.{◌≡◌, ◌+◌, ◌*◌, ◌≤◌, ◌<◌, ℕ, None, IfSome, IsTrue, IsFalse, length, slice_get};
ghost use Rattle.fy_picture.specs.Layouts.{HasRoom, IsDue, IsFull, IsLate, IsOpen, IsShut, width_in};

use crate::{Column, MOST_COLUMNS};

/// Where the columns of a picture end.
#[derive(Drop)]
pub(crate) enum Plan {
    /// Each behind so many entries: a power of two that grows with the entries.
    Even(usize),
    /// Each behind as many entries as are listed.
    Laid(Vec<u32>),
}

/// How many entries a column stands for, where all stand for as many.
pub(crate) fn width_of(plan: &Plan) -> Option<usize>
    ensures { result ≡ width_in plan.now }
{
    match plan {
        Plan::Even(width) => Some(*width),
        Plan::Laid(_) => None,
    }
}

/// Whether the next column ends before the next entry.
pub(crate) fn is_due(plan: &Plan, columns: usize, entries: u32) -> bool
    ensures due { IsTrue result → IsDue plan.now columns entries }
    ensures late { IsFalse result → IsLate plan.now columns entries }
{
    match plan {
        Plan::Even(width) => columns.saturating_add(1).saturating_mul(*width) <= entries as usize,
        Plan::Laid(ends) => match ends.get(columns) {
            Some(end) => *end <= entries,
            None => false,
        },
    }
}

/// Whether the last entries aren't in a column yet, where each column stands for as many.
pub(crate) fn is_open(plan: &Plan, columns: usize, entries: u32) -> bool
    ensures open { IsTrue result → IsOpen plan.now columns entries }
    ensures shut { IsFalse result → IsShut plan.now columns entries }
{
    match plan {
        Plan::Even(width) => columns.saturating_mul(*width) < entries as usize,
        Plan::Laid(_) => false,
    }
}

/// How many entries a column stands for, where there are as many columns as there may be and more
/// entries.
pub(crate) fn full_width(plan: &Plan, columns: usize, entries: u32) -> Option<usize>
    ensures full { IfSome result (IsFull plan.now columns entries) }
    ensures room { result ≡ None → HasRoom plan.now columns entries }
{
    match plan {
        Plan::Even(width) => {
            if columns < MOST_COLUMNS {
                return None;
            }
            if entries as usize <= MOST_COLUMNS.saturating_mul(*width) {
                return None;
            }
            Some(*width)
        }
        Plan::Laid(_) => None,
    }
}

/// Moves the second of each two columns to the front, in order. There are so many pairs.
fn move_seconds(columns: &mut [Column], pairs: usize)
    requires { 2 * pairs ≤ length columns.old }
    ensures count { length columns.new ≡ length columns.old }
    ensures each { (k : ℕ) → k < pairs
        → slice_get columns.new k ≡ slice_get columns.old (2 * k + 1) }
{
    for k in 0..pairs {
        columns.swap(k, 2 * k + 1);
    }
}

/// Makes each two columns one, which shows what the second did.
pub(crate) fn fold(columns: &mut Vec<Column>)
    ensures half { 2 * length columns.new.items ≤ length columns.old.items }
    ensures whole { length columns.old.items ≤ 2 * length columns.new.items + 1 }
    ensures each { (k : ℕ) → k < length columns.new.items
        → slice_get columns.new.items k ≡ slice_get columns.old.items (2 * k + 1) }
{
    let pairs = columns.len() / 2;
    move_seconds(columns, pairs);
    columns.truncate(pairs);
}
