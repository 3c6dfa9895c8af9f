//! Where things stand on the sheet, in pixels.
use fy_locality::MOST_PROCESSES;
use fy_picture::MOST_COLUMNS;
use fy_policy::MOST_POLICIES;

/// The left end of the first column.
pub(crate) const LEFT: u64 = 250;
/// How wide a column is.
pub(crate) const COLUMN: u64 = 12;
/// The upper end of the first row.
pub(crate) const TOP: u64 = 70;
/// How high a row is.
pub(crate) const ROW: u64 = 18;
/// How high a line of text is.
pub(crate) const LINE: u64 = 15;
/// How high the stepped line of a policy is where every process could be killed next.
pub(crate) const STEPS: u64 = 26;
/// How high a policy's line has to be for a number to fit below it.
pub(crate) const CLEAR: u64 = 12;
/// How wide the words at the right of the rows are.
pub(crate) const ASIDE: u64 = 260;
/// The most lines of text below the rows.
pub(crate) const MOST_LINES: usize = 100;

/// The left end of a column.
pub(crate) fn x_of(column: usize) -> u64 {
    LEFT + column.min(MOST_COLUMNS + 1) as u64 * COLUMN
}

/// The middle of a column.
pub(crate) fn middle_of(column: usize) -> u64 {
    LEFT + column.min(MOST_COLUMNS + 1) as u64 * COLUMN + COLUMN / 2
}

/// The upper end of a row. The two rows below those of the processes are for everything else.
pub(crate) fn y_of(row: usize) -> u64 {
    TOP + row.min(MOST_PROCESSES as usize + 2) as u64 * ROW
}

/// The foot of a stepped line, below so many rows of processes: those of the policies, and behind
/// them perhaps that of the processes that are up.
pub(crate) fn foot_of_steps(rows: usize, place: usize) -> u64 {
    let lines = place.min(MOST_POLICIES + 1) as u64;
    TOP + (rows.min(MOST_PROCESSES as usize) as u64 + 2 * lines + 4) * ROW
}

/// The foot of a line of text below so many rows of processes and stepped lines.
pub(crate) fn foot_of(rows: usize, stepped: usize, line: usize) -> u64 {
    let down = line.min(MOST_LINES + 2) as u64 * LINE;
    foot_of_steps(rows, stepped).saturating_add(down)
}
