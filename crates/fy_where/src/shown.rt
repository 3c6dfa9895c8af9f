//! A place of a text, for people: its line and column, and the line with a mark below.
use fy_places::Span;
use std::alloc::{AllocError, Global};

/// How many characters of a line are shown.
const WIDE: usize = 100;

/// A text up to a byte, and from there on.
pub(crate) fn split(text: &str, at: usize) -> (&str, &str) {
    match text.split_at_checked(text.floor_char_boundary(at)) {
        Some(parts) => parts,
        None => (text, ""),
    }
}

/// The number of the line in which a text ends, from 1, and what of that line is there.
fn last_line(text: &str) -> (usize, &str) {
    let number = text
        .as_bytes()
        .iter()
        .filter(|byte| **byte == b'\n')
        .count();
    let line = match text.rsplit_once('\n') {
        Some((_, line)) => line,
        None => text,
    };
    (number.saturating_add(1), line)
}

/// The line with which a text begins, without its end.
fn first_line(text: &str) -> &str {
    let line = match text.split_once('\n') {
        Some((line, _)) => line,
        None => text,
    };
    match line.strip_suffix('\r') {
        Some(line) => line,
        None => line,
    }
}

/// Appends the part of a line that is shown, with a blank for what has no width of its own.
fn push_line(text: &mut String, front: &str, back: &str, skipped: usize) -> Result<(), AllocError> {
    text.push_str("    ")?;
    let mut place = 0usize;
    for sign in front.chars() {
        push_sign(text, sign, place, skipped)?;
        place = place.saturating_add(1);
    }
    for sign in back.chars() {
        push_sign(text, sign, place, skipped)?;
        place = place.saturating_add(1);
    }
    text.push_str("\n")
}

/// Appends a character of a line where it is in the part that is shown.
fn push_sign(
    text: &mut String,
    sign: char,
    place: usize,
    skipped: usize,
) -> Result<(), AllocError> {
    if place < skipped || place >= skipped.saturating_add(WIDE) {
        return Ok(());
    }
    text.push(if sign.is_control() { ' ' } else { sign })
}

/// Appends a sign so many times.
fn push_times(text: &mut String, sign: &str, times: usize) -> Result<(), AllocError> {
    for _ in 0..times {
        text.push_str(sign)?;
    }
    Ok(())
}

/// A text with blanks for what would steer a terminal.
pub(crate) fn plain(alloc: Global, text: &str) -> Result<String, AllocError> {
    let mut shown = String::new(alloc);
    for sign in text.chars() {
        shown.push(if sign.is_control() { ' ' } else { sign })?;
    }
    Ok(shown)
}

/// What is said of a place of a text in the file of this name.
pub(crate) fn shown(
    alloc: Global,
    name: &str,
    text: &str,
    span: Span,
    told: &str,
) -> Result<String, AllocError> {
    let (before, after) = split(text, span.start);
    let (number, front) = last_line(before);
    let back = first_line(after);
    let (marked, _) = split(back, span.end.saturating_sub(span.start));
    let place = front.chars().count();
    let column = place.saturating_add(1);
    let told = plain(alloc, told)?;
    let mut lines = format!(in alloc; "{name}:{number}:{column}: {told}\n")?;
    let is_long = place.saturating_add(back.chars().count()) > WIDE;
    let skipped = if is_long {
        place.saturating_sub(WIDE / 2)
    } else {
        0
    };
    push_line(&mut lines, front, back, skipped)?;
    let blanks = place.saturating_sub(skipped);
    push_times(&mut lines, " ", blanks.saturating_add(4))?;
    let room = WIDE.saturating_sub(blanks);
    push_times(&mut lines, "^", marked.chars().count().min(room).max(1))?;
    lines.push_str("\n")?;
    Ok(lines)
}
