//! Where a cluster file is at fault, and what was expected there.
use crate::fields::in_fields;
use crate::finding::{Finding, Found, Spot};
use crate::hints::cut;
use crate::limits::in_limits;
use crate::names::in_names;
use crate::policies::in_policy;
use crate::shown::{plain, shown, split};
use crate::unmet::in_unmet;
use fy_config::{ConfigFault, MOST_FILE_BYTES};
use fy_places::{PlaceFault, Span, Step, find_place};
use std::alloc::{AllocError, Global};
use toml::Table;

/// What is wrong with a document that has this fault.
fn in_document<'f>(alloc: Global, table: &'f Table, fault: ConfigFault) -> Found<'f> {
    match fault {
        ConfigFault::Field { part } => in_fields(alloc, table, part),
        ConfigFault::Limit { part } => in_limits(alloc, table, part),
        ConfigFault::Name { part, index } => in_names(alloc, table, part, index),
        ConfigFault::Policy { index } => in_policy(alloc, table, index),
        ConfigFault::PolicyUnmet { index } => in_unmet(alloc, table, index),
        ConfigFault::TooLong | ConfigFault::Toml | ConfigFault::NoMemory => Ok(None),
    }
}

/// The place of a part of a text's value; of all of it where not each of its characters stands for
/// itself.
fn part_of(file: &str, value: Span, text: &str, start: usize, end: usize) -> Span {
    let inside = value.start.saturating_add(1);
    let (_, from) = split(file, inside);
    let (written, _) = split(from, text.len());
    if written != text {
        return value;
    }
    let most = value.end;
    Span {
        start: inside.saturating_add(start).min(most),
        end: inside.saturating_add(end).min(most),
    }
}

/// The place of a spot, if the file has it.
fn span_of(
    alloc: Global,
    file: &str,
    way: &[Step<'_>],
    spot: Spot<'_>,
) -> Result<Option<Span>, AllocError> {
    if let Spot::File = spot {
        return Ok(None);
    }
    let place = match find_place(alloc, file, way) {
        Ok(place) => place,
        Err(PlaceFault::Nowhere) => return Ok(None),
        Err(PlaceFault::NoMemory) => return Err(AllocError),
    };
    Ok(Some(match spot {
        Spot::File | Spot::Value => place.value,
        Spot::Key => place.key,
        Spot::Part { text, start, end } => part_of(file, place.value, text, start, end),
    }))
}

/// What is said of what was found.
fn told(
    alloc: Global,
    name: &str,
    file: &str,
    finding: Option<Finding<'_>>,
) -> Result<String, AllocError> {
    let Some(finding) = finding else {
        return format!(in alloc; "{name}: no more can be told\n");
    };
    let text = finding.text.as_str();
    match span_of(alloc, file, &finding.way, finding.spot)? {
        Some(span) => shown(alloc, name, file, span, text),
        None => {
            let text = plain(alloc, text)?;
            format!(in alloc; "{name}: {text}\n")
        }
    }
}

/// What stands at a place where a document ends to be one, for people.
fn standing(alloc: Global, rest: &str) -> Result<String, AllocError> {
    let length = rest
        .as_bytes()
        .iter()
        .take_while(|byte| !matches!(
            **byte,
            b',' | b']' | b'}' | b'#' | b'\n' | b'\r' | b' ' | b'\t'
        ))
        .count();
    let (word, _) = split(rest, length.max(1));
    match rest.chars().next() {
        None => String::from_str(alloc, "the end of the file"),
        Some('\n' | '\r') => String::from_str(alloc, "the end of the line"),
        Some(_) => {
            let word = cut(word);
            format!(in alloc; "`{word}`")
        }
    }
}

/// Where a text is no document.
fn no_document(
    alloc: Global,
    name: &str,
    file: &str,
    error: &toml::de::Error,
) -> Result<String, AllocError> {
    let Some(range) = error.span() else {
        return Err(AllocError);
    };
    let (start, end) = (range.start, range.end);
    let (message, (_, rest)) = (error.message(), split(file, start));
    let here = standing(alloc, rest)?;
    let text = format!(in alloc; "{message}; {here} stands here")?;
    shown(alloc, name, file, Span { start, end }, text.as_str())
}

/// Where bytes are no text.
fn no_text(alloc: Global, name: &str, bytes: &[u8], at: usize) -> Result<String, AllocError> {
    let Some((front, rest)) = bytes.split_at_checked(at) else {
        return format!(in alloc; "{name}: no more can be told\n");
    };
    let (Ok(front), Some(byte)) = (str::from_utf8(front), rest.first()) else {
        return format!(in alloc; "{name}: no more can be told\n");
    };
    let span = Span { start: at, end: at };
    let text = format!(in alloc; "byte {byte:#04x} isn't UTF-8")?;
    shown(alloc, name, front, span, text.as_str())
}

/// Where a cluster file with this name and this fault is at fault, and what was expected there, in
/// lines. No clause says what the lines are: they are only tested.
///
/// # Errors
///
/// An allocation failed.
pub(crate) fn explain(
    alloc: Global,
    name: &str,
    bytes: &[u8],
    fault: ConfigFault,
) -> Result<String, AllocError> {
    if fault == ConfigFault::TooLong {
        return format!(in alloc; "{name}: the file has more than {MOST_FILE_BYTES} bytes\n");
    }
    let file = match str::from_utf8(bytes) {
        Ok(file) => file,
        Err(error) => return no_text(alloc, name, bytes, error.valid_up_to()),
    };
    match toml::table_from_str(alloc, file) {
        Ok(table) => told(alloc, name, file, in_document(alloc, &table, fault)?),
        Err(error) => no_document(alloc, name, file, &error),
    }
}
