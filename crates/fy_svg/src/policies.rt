//! Below the rows: how many processes each policy lets be killed next.
use crate::layout::{CLEAR, STEPS, foot_of_steps, x_of};
use fy_cluster::Config;
use fy_picture::{Column, States};
use fy_policy::{Policy, policy_text};
use std::alloc::{AllocError, Global};

/// How many bytes of a policy's text fit left of its line; a longer text is smaller.
const FITTING: usize = 38;

/// How high a policy's line is at a count.
fn height_of(count: u32, processes: u32) -> u64 {
    let most = u64::from(processes.max(1));
    u64::from(count).min(most) * STEPS / most
}

/// What a stepped line counts.
#[derive(Clone, Copy)]
pub(crate) enum Counted {
    /// How many processes a policy lets be killed next.
    Killable(usize),
    /// How many processes are up.
    Up,
}

/// How many processes are up.
fn count_up(states: &States) -> u32 {
    states.up.intersection(&states.left).len()
}

/// The count of a stepped line at a column.
fn count_at(columns: &[Column], column: usize, what: Counted) -> Option<u32> {
    let column = columns.get(column)?;
    match what {
        Counted::Killable(place) => column.counts.get(place).copied(),
        Counted::Up => Some(count_up(&column.states)),
    }
}

/// Columns that follow one another with the same count.
#[derive(Clone, Copy)]
struct Step {
    from: usize,
    to: usize,
    count: u32,
}

/// The steps of a line, from left to right.
fn steps_of(alloc: Global, columns: &[Column], what: Counted) -> Result<Vec<Step>, AllocError> {
    let mut steps = Vec::new(alloc);
    let mut from = 0;
    for at in 0..columns.len() {
        let to = at + 1;
        if let Some(count) = count_at(columns, at, what)
            && count_at(columns, to, what) != Some(count)
        {
            steps.push(Step { from, to, count })?;
            from = to;
        }
    }
    Ok(steps)
}

/// A stepped line: as high as all processes where each counts.
fn write_steps(
    text: &mut String,
    steps: &[Step],
    processes: u32,
    foot: u64,
) -> Result<(), AllocError> {
    for (place, step) in steps.iter().enumerate() {
        let x = x_of(step.from);
        let y = foot.saturating_sub(height_of(step.count, processes));
        if place == 0 {
            write!(text, "M{x} {y}")?;
        } else {
            write!(text, "H{x}V{y}")?;
        }
    }
    if let Some(last) = steps.last() {
        let end = x_of(last.to);
        write!(text, "H{end}")?;
    }
    Ok(())
}

/// How many columns the count at a step takes, at 7 pixels a digit, 3 in front and 1 behind.
fn columns_of(count: u32) -> usize {
    if count < 10 {
        1
    } else if count < 100 {
        2
    } else {
        3
    }
}

/// The count at a step, below a line that is high enough for it and else above.
fn write_count(
    text: &mut String,
    what: Counted,
    step: Step,
    foot: u64,
    height: u64,
) -> Result<(), AllocError> {
    let Step { from, to: _, count } = step;
    let x = x_of(from).saturating_add(3);
    let line = foot.saturating_sub(height);
    let y = if height < CLEAR {
        line.saturating_sub(3)
    } else {
        line.saturating_add(CLEAR - 1)
    };
    match what {
        Counted::Killable(place) => write!(
            text,
            "<text class=\"policy-number\" data-policy=\"{place}\" "
        )?,
        Counted::Up => text.push_str("<text class=\"ups-number\" ")?,
    }
    writeln!(
        text,
        "data-from=\"{from}\" x=\"{x}\" y=\"{y}\">{count}</text>"
    )
}

/// The counts of a stepped line, each at its step, unless its columns are too few for it.
fn write_counts(
    text: &mut String,
    steps: &[Step],
    what: Counted,
    processes: u32,
    foot: u64,
) -> Result<(), AllocError> {
    for step in steps.iter().copied() {
        if step.to.saturating_sub(step.from) >= columns_of(step.count) {
            write_count(text, what, step, foot, height_of(step.count, processes))?;
        }
    }
    Ok(())
}

/// A stepped line, with the counts that have room at their steps, and at its right the last one.
pub(crate) fn write_line(
    alloc: Global,
    text: &mut String,
    columns: &[Column],
    what: Counted,
    processes: u32,
    foot: u64,
) -> Result<(), AllocError> {
    let steps = steps_of(alloc, columns, what)?;
    match what {
        Counted::Killable(place) => {
            write!(text, "<path class=\"policy\" data-policy=\"{place}\" d=\"")?
        }
        Counted::Up => text.push_str("<path class=\"ups\" d=\"")?,
    }
    write_steps(text, &steps, processes, foot)?;
    text.push_str("\"/>\n")?;
    write_counts(text, &steps, what, processes, foot)?;
    if let Some(last) = steps.last() {
        let (x, count) = (x_of(last.to).saturating_add(6), last.count);
        writeln!(text, "<text x=\"{x}\" y=\"{foot}\">{count}</text>")?;
    }
    Ok(())
}

/// What stands left of a policy's line: the policy, and what the line says.
fn write_label(
    alloc: Global,
    text: &mut String,
    policy: &Policy,
    foot: u64,
) -> Result<(), AllocError> {
    let words = policy_text(alloc, policy)?;
    let words = words.as_str();
    let y = foot.saturating_sub(STEPS / 2);
    write!(text, "<text class=\"policy-text\" x=\"6\" y=\"{y}\"")?;
    if words.len() > FITTING {
        // not every viewer knows textLength
        let tenths = (FITTING * 110).checked_div(words.len()).unwrap_or(0);
        let (whole, tenth) = (tenths / 10, tenths % 10);
        write!(text, " style=\"font-size: {whole}.{tenth}px\"")?;
        text.push_str(" textLength=\"236\" lengthAdjust=\"spacingAndGlyphs\"")?;
    }
    writeln!(text, ">{words}</text>")?;
    writeln!(
        text,
        "<text x=\"6\" y=\"{foot}\">how many could each be killed next</text>"
    )
}

/// For each policy a stepped line: how many processes could each be killed for good next, as far as
/// that policy goes.
pub(crate) fn write_policies(
    alloc: Global,
    text: &mut String,
    config: &Config,
    columns: &[Column],
) -> Result<(), AllocError> {
    let processes = config.map().len();
    for (place, policy) in config.policies().iter().enumerate() {
        let foot = foot_of_steps(processes as usize, place);
        let what = Counted::Killable(place);
        write_label(alloc, text, policy, foot)?;
        write_line(alloc, text, columns, what, processes, foot)?;
    }
    Ok(())
}
