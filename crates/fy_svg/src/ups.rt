//! Below the lines of the policies: how many processes are up.
use crate::layout::{STEPS, foot_of_steps};
use crate::policies::{Counted, write_line};
use fy_picture::Column;
use std::alloc::{AllocError, Global};

/// A stepped line of how many processes are up, in the manner of those of the policies, which are
/// so many.
pub(crate) fn write_ups(
    alloc: Global,
    text: &mut String,
    columns: &[Column],
    processes: u32,
    policies: usize,
) -> Result<(), AllocError> {
    let foot = foot_of_steps(processes as usize, policies);
    let above = foot.saturating_sub(STEPS / 2);
    writeln!(
        text,
        "<text x=\"6\" y=\"{above}\">{processes} processes</text>"
    )?;
    writeln!(text, "<text x=\"6\" y=\"{foot}\">how many are up</text>")?;
    write_line(alloc, text, columns, Counted::Up, processes, foot)
}
