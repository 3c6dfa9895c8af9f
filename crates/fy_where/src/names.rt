//! Where a text is no name, or names what is taken or isn't there.
use crate::finding::{Finding, Found, Spot, found};
use crate::hints::{cut, nearest};
use crate::limits::{grants_in, items_of};
use crate::shapes::PROCESS_KEYS;
use fy_config::Part;
use fy_locality::Name;
use fy_places::Step;
use std::alloc::{AllocError, Global};
use toml::{Table, Value};

/// The text at a key of a table.
pub(crate) fn text_in<'f>(value: &'f Value, key: &str) -> Option<&'f str> {
    match value.get(key) {
        Some(value) => value.as_str(),
        None => None,
    }
}

/// Whether a name may have a character.
fn is_of_names(character: char) -> bool {
    character.is_ascii_alphanumeric() || character == '_' || character == '-'
}

/// Why a text is no name.
fn in_text<'f>(alloc: Global, text: &'f str, way: &[Step<'f>], what: &str) -> Found<'f> {
    if text.is_empty() {
        let told = format!(in alloc; "{what} is empty")?;
        return found(alloc, way, Spot::Value, told);
    }
    for (start, character) in text.char_indices() {
        if !is_of_names(character) {
            let told = format!(in alloc;
                "{what} has the character `{character}`: a name has letters, digits, `_` and `-`"
            )?;
            let end = start.saturating_add(character.len_utf8());
            return found(alloc, way, Spot::Part { text, start, end }, told);
        }
    }
    if text.starts_with('-') {
        let told = format!(in alloc; "{what} begins with `-`")?;
        return found(
            alloc,
            way,
            Spot::Part {
                text,
                start: 0,
                end: 1,
            },
            told,
        );
    }
    if Name::make(text).is_ok() {
        return Ok(None);
    }
    let count = text.len();
    let told = format!(in alloc; "{what} has {count} characters: a name is shorter")?;
    found(alloc, way, Spot::Value, told)
}

/// A process before this one that has its name.
fn in_taken<'f>(alloc: Global, processes: &'f [Value], index: usize, own: &str) -> Found<'f> {
    for (number, earlier) in processes.iter().take(index).enumerate() {
        if text_in(earlier, "processid") == Some(own) {
            let shown = cut(own);
            let told = format!(in alloc;
                "process {index} is named `{shown}`, as is process {number}"
            )?;
            let way = [
                Step::Key("process"),
                Step::Index(index),
                Step::Key("processid"),
            ];
            return found(alloc, &way, Spot::Value, told);
        }
    }
    Ok(None)
}

/// Why the name of a process is none, or is taken.
fn in_process<'f>(alloc: Global, processes: &'f [Value], index: usize) -> Found<'f> {
    let Some(process) = processes.get(index) else {
        return Ok(None);
    };
    for key in &PROCESS_KEYS {
        let key = *key;
        if let Some(text) = text_in(process, key) {
            let way = [Step::Key("process"), Step::Index(index), Step::Key(key)];
            let what = format!(in alloc; "`{key}` of process {index}")?;
            let wrong = in_text(alloc, text, &way, what.as_str())?;
            if wrong.is_some() {
                return Ok(wrong);
            }
        }
    }
    match text_in(process, "processid") {
        Some(own) => in_taken(alloc, processes, index, own),
        None => Ok(None),
    }
}

/// Why a value of a grant of an actor is no name.
fn in_actor<'f>(alloc: Global, actors: &'f [Value], index: usize) -> Found<'f> {
    let Some(actor) = actors.get(index) else {
        return Ok(None);
    };
    for (place, grant) in grants_in(actor).iter().enumerate() {
        if let Some(text) = text_in(grant, "value") {
            let way = [
                Step::Key("actor"),
                Step::Index(index),
                Step::Key("grants"),
                Step::Index(place),
                Step::Key("value"),
            ];
            let what = format!(in alloc; "`value` of grant {place} of actor {index}")?;
            let wrong = in_text(alloc, text, &way, what.as_str())?;
            if wrong.is_some() {
                return Ok(wrong);
            }
        }
    }
    Ok(None)
}

/// The names of the processes.
fn names_of<'f>(alloc: Global, processes: &'f [Value]) -> Result<Vec<&'f str>, AllocError> {
    let mut names = Vec::new(alloc);
    for process in processes {
        if let Some(name) = text_in(process, "processid") {
            names.push(name)?;
        }
    }
    Ok(names)
}

/// Why no process can be protected by a name.
fn in_protected<'f>(alloc: Global, table: &'f Table, index: usize) -> Found<'f> {
    let Some(protection) = items_of(table, "protect").get(index) else {
        return Ok(None);
    };
    let Some(name) = text_in(protection, "process") else {
        return Ok(None);
    };
    let way = [
        Step::Key("protect"),
        Step::Index(index),
        Step::Key("process"),
    ];
    let names = names_of(alloc, items_of(table, "process"))?;
    let shown = cut(name);
    if names.iter().any(|one| *one == name) {
        let told = format!(in alloc; "`{shown}` is protected by an earlier table")?;
        return found(alloc, &way, Spot::Value, told);
    }
    let told = match nearest(alloc, name, &names, &[])? {
        Some(meant) => {
            format!(in alloc; "there is no process `{shown}`: did you mean `{meant}`?")?
        }
        None => format!(in alloc; "there is no process `{shown}`")?,
    };
    found(alloc, &way, Spot::Value, told)
}

/// Where a text of a part is no name, or names what is taken or isn't there.
pub(crate) fn in_names<'f>(
    alloc: Global,
    table: &'f Table,
    part: Part,
    index: usize,
) -> Result<Option<Finding<'f>>, AllocError> {
    match part {
        Part::Process => in_process(alloc, items_of(table, "process"), index),
        Part::Actor => in_actor(alloc, items_of(table, "actor"), index),
        Part::Protect => in_protected(alloc, table, index),
        _ => Ok(None),
    }
}
