//! Where a key is missing or unknown, a value of another type, or a word unknown.
use crate::finding::{Found, Spot, extended, found, mistyped};
use crate::hints::nearest;
use crate::limits::grants_in;
use crate::shapes::{OTHER_TOP_KEYS, Shape, TOP_KEYS};
use crate::tables::{in_table, unknown_key};
use fy_config::Part;
use fy_places::Step;
use std::alloc::Global;
use toml::{Table, Value};

/// The key of a part at the top of a file.
pub(crate) fn key_of(part: Part) -> &'static str {
    match part {
        Part::JournalLimit => "journal_limit",
        Part::Policies => "policies",
        Part::Process => "process",
        Part::Actor => "actor",
        Part::Protect | Part::Unknown => "protect",
    }
}

/// A part that isn't there: a key that was probably meant for it, else that there is none.
fn missing_part<'f>(alloc: Global, table: &'f Table, key: &str) -> Found<'f> {
    for (name, _) in table {
        let name = name.as_str();
        if TOP_KEYS.iter().any(|one| *one == name) {
            continue;
        }
        if nearest(alloc, name, &TOP_KEYS, &OTHER_TOP_KEYS)? == Some(key) {
            let text = format!(in alloc;
                "the file has an unknown key `{name}`: did you mean `{key}`?"
            )?;
            return found(alloc, &[Step::Key(name)], Spot::Key, text);
        }
    }
    let text = format!(in alloc; "the file has no `{key}`")?;
    found(alloc, &[], Spot::File, text)
}

/// What of the grants of an actor isn't as it has to be. The actor itself is.
fn in_grants<'f>(alloc: Global, actor: &'f Value, way: &[Step<'f>], what: &str) -> Found<'f> {
    let way = extended(alloc, way, Step::Key("grants"))?;
    for (place, grant) in grants_in(actor).iter().enumerate() {
        let way = extended(alloc, &way, Step::Index(place))?;
        let what = format!(in alloc; "grant {place} of {what}")?;
        let wrong = in_table(alloc, grant, Shape::Grant, &way, what.as_str())?;
        if wrong.is_some() {
            return Ok(wrong);
        }
    }
    Ok(None)
}

/// What of an actor isn't as it has to be.
fn in_actor<'f>(alloc: Global, value: &'f Value, way: &[Step<'f>], what: &str) -> Found<'f> {
    let wrong = in_table(alloc, value, Shape::Actor, way, what)?;
    if wrong.is_some() {
        return Ok(wrong);
    }
    in_grants(alloc, value, way, what)
}

/// What of an element of a part isn't as it has to be.
fn in_element<'f>(
    alloc: Global,
    value: &'f Value,
    part: Part,
    way: &[Step<'f>],
    index: usize,
) -> Found<'f> {
    let noun = match part {
        Part::Policies => "policy",
        Part::Protect => "protection",
        _ => key_of(part),
    };
    let what = format!(in alloc; "{noun} {index}")?;
    let what = what.as_str();
    match part {
        Part::Policies if value.as_str().is_none() => mistyped(alloc, value, way, what, "a text"),
        Part::Process => in_table(alloc, value, Shape::Process, way, what),
        Part::Actor => in_actor(alloc, value, way, what),
        Part::Protect => in_table(alloc, value, Shape::Protection, way, what),
        _ => Ok(None),
    }
}

/// What of an array at the top of a file isn't as it has to be.
fn in_array<'f>(alloc: Global, value: &'f Value, part: Part) -> Found<'f> {
    let key = key_of(part);
    let way = [Step::Key(key)];
    if value.as_table().is_some() {
        let text = format!(in alloc;
            "`{key}` is a table: an array of tables has headers `[[{key}]]`"
        )?;
        return found(alloc, &way, Spot::Value, text);
    }
    let Some(items) = value.as_array() else {
        let what = format!(in alloc; "`{key}`")?;
        return mistyped(alloc, value, &way, what.as_str(), "an array");
    };
    for (index, item) in items.iter().enumerate() {
        let way = [Step::Key(key), Step::Index(index)];
        let wrong = in_element(alloc, item, part, &way, index)?;
        if wrong.is_some() {
            return Ok(wrong);
        }
    }
    Ok(None)
}

/// Where a key of a part is missing or unknown, a value of another type, or a word unknown.
pub(crate) fn in_fields<'f>(alloc: Global, table: &'f Table, part: Part) -> Found<'f> {
    if part == Part::Unknown {
        return unknown_key(alloc, table, &TOP_KEYS, &OTHER_TOP_KEYS, &[], "the file");
    }
    let key = key_of(part);
    let Some(value) = table.get(key) else {
        return missing_part(alloc, table, key);
    };
    if part != Part::JournalLimit {
        return in_array(alloc, value, part);
    }
    if value.as_integer().is_some() {
        return Ok(None);
    }
    mistyped(
        alloc,
        value,
        &[Step::Key(key)],
        "`journal_limit`",
        "a whole number",
    )
}
