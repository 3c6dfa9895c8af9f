//! What of a table of a cluster file isn't as it has to be: its keys, the types of its members,
//! and their words.
use crate::finding::{Found, Spot, extended, found, mistyped};
use crate::hints::{cut, hint, nearest};
use crate::shapes::{Holds, KINDS, OTHER_KINDS, Shape, held_at};
use fy_places::Step;
use std::alloc::{AllocError, Global};
use toml::{Table, Value};

/// The key that was probably meant by another, where the table hasn't got it.
fn meant_key<'k>(
    alloc: Global,
    table: &Table,
    name: &str,
    known: &[&'k str],
    others: &[(&str, &'k str)],
) -> Result<Option<&'k str>, AllocError> {
    let Some(meant) = nearest(alloc, name, known, others)? else {
        return Ok(None);
    };
    if table.get(meant).is_some() {
        return Ok(None);
    }
    Ok(Some(meant))
}

/// A key that may not stand in a table.
pub(crate) fn unknown_key<'f>(
    alloc: Global,
    table: &'f Table,
    known: &[&str],
    others: &[(&str, &str)],
    way: &[Step<'f>],
    what: &str,
) -> Found<'f> {
    for (name, _) in table {
        let name = name.as_str();
        if known.iter().any(|one| *one == name) {
            continue;
        }
        let meant = meant_key(alloc, table, name, known, others)?;
        let told = hint(alloc, meant, "it may have", known)?;
        let shown = cut(name);
        let text = format!(in alloc; "{what} has an unknown key `{shown}`: {told}")?;
        let way = extended(alloc, way, Step::Key(name))?;
        return found(alloc, &way, Spot::Key, text);
    }
    Ok(None)
}

/// A key that has to stand in a table.
fn missing_key<'f>(
    alloc: Global,
    table: &Table,
    shape: Shape,
    way: &[Step<'f>],
    what: &str,
) -> Found<'f> {
    for key in shape.keys().iter().take(shape.needed()) {
        let key = *key;
        if table.get(key).is_none() {
            let text = format!(in alloc; "{what} has no `{key}`")?;
            return found(alloc, way, Spot::Value, text);
        }
    }
    Ok(None)
}

/// A key of a grant that stands without the other.
fn lone_key<'f>(alloc: Global, table: &Table, way: &[Step<'f>], what: &str) -> Found<'f> {
    let (has_key, has_value) = (table.get("key").is_some(), table.get("value").is_some());
    if has_key == has_value {
        return Ok(None);
    }
    let text = if has_key {
        format!(in alloc; "{what} has `key` and no `value`: it has both or neither")?
    } else {
        format!(in alloc; "{what} has `value` and no `key`: it has both or neither")?
    };
    found(alloc, way, Spot::Value, text)
}

/// A text that is none of the words that may stand there.
fn in_word<'f>(
    alloc: Global,
    value: &Value,
    words: (&str, &[&str], &[(&str, &str)]),
    way: &[Step<'f>],
    what: &str,
) -> Found<'f> {
    let Some(text) = value.as_str() else {
        return mistyped(alloc, value, way, what, "a text");
    };
    let (noun, known, others) = words;
    if known.iter().any(|one| *one == text) {
        return Ok(None);
    }
    let meant = nearest(alloc, text, known, others)?;
    let told = hint(alloc, meant, "it may be", known)?;
    let shown = cut(text);
    let text = format!(in alloc; "`{shown}` is no {noun}: {told}")?;
    found(alloc, way, Spot::Value, text)
}

/// What of an array of kinds isn't one.
fn in_kinds<'f>(alloc: Global, value: &Value, way: &[Step<'f>], what: &str) -> Found<'f> {
    let Some(items) = value.as_array() else {
        return mistyped(alloc, value, way, what, "an array");
    };
    for (index, item) in items.iter().enumerate() {
        let way = extended(alloc, way, Step::Index(index))?;
        let what = format!(in alloc; "a kind of {what}")?;
        let words: (&str, &[&str], &[(&str, &str)]) = ("kind", &KINDS, &OTHER_KINDS);
        if let Some(wrong) = in_word(alloc, item, words, &way, what.as_str())? {
            return Ok(Some(wrong));
        }
    }
    Ok(None)
}

/// What of a member isn't as it has to be.
fn in_member<'f>(
    alloc: Global,
    value: &Value,
    key: &'f str,
    way: &[Step<'f>],
    what: &str,
) -> Found<'f> {
    let way = extended(alloc, way, Step::Key(key))?;
    let what = format!(in alloc; "`{key}` of {what}")?;
    let what = what.as_str();
    match held_at(key) {
        Holds::Text if value.as_str().is_none() => mistyped(alloc, value, &way, what, "a text"),
        Holds::Array if value.as_array().is_none() => {
            mistyped(alloc, value, &way, what, "an array")
        }
        Holds::Text | Holds::Array => Ok(None),
        Holds::Word(noun, known, others) => {
            in_word(alloc, value, (noun, known, others), &way, what)
        }
        Holds::Kinds => in_kinds(alloc, value, &way, what),
    }
}

/// What of a table isn't as it has to be: keys first, and then what they hold.
pub(crate) fn in_table<'f>(
    alloc: Global,
    value: &'f Value,
    shape: Shape,
    way: &[Step<'f>],
    what: &str,
) -> Found<'f> {
    let Some(table) = value.as_table() else {
        return mistyped(alloc, value, way, what, "a table");
    };
    let unknown = unknown_key(alloc, table, shape.keys(), shape.others(), way, what)?;
    if unknown.is_some() {
        return Ok(unknown);
    }
    let missing = missing_key(alloc, table, shape, way, what)?;
    if missing.is_some() {
        return Ok(missing);
    }
    for key in shape.keys() {
        let key = *key;
        if let Some(value) = table.get(key) {
            let wrong = in_member(alloc, value, key, way, what)?;
            if wrong.is_some() {
                return Ok(wrong);
            }
        }
    }
    if shape == Shape::Grant {
        return lone_key(alloc, table, way, what);
    }
    Ok(None)
}
