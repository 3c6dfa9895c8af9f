//! Why all processes together don't satisfy a policy.
use crate::finding::{Found, Spot, found};
use crate::limits::items_of;
use crate::names::text_in;
use crate::policies::policy_at;
use fy_locality::{Key, Map, MapFault};
use fy_places::Step;
use fy_policy::{MOST_DEPTH, PolicyFault, read_policy, satisfied};
use std::alloc::{AllocError, Global};
use toml::{Table, Value};

/// How many values of a key are named.
const NAMED: u32 = 8;

/// The map of the processes of a file; none where they make none.
fn map_of(alloc: Global, processes: &[Value]) -> Result<Option<Map>, AllocError> {
    let mut map = Map::make(alloc);
    for process in processes {
        let (Some(id), Some(machine), Some(zone)) = (
            text_in(process, "processid"),
            text_in(process, "machineid"),
            text_in(process, "zoneid"),
        ) else {
            return Ok(None);
        };
        let (hall, data_center) = (text_in(process, "data_hall"), text_in(process, "dcid"));
        match map.add(id, machine, zone, hall, data_center) {
            Ok(_) => {}
            Err(MapFault::NoMemory) => return Err(AllocError),
            Err(_) => return Ok(None),
        }
    }
    Ok(Some(map))
}

/// Whether all processes together don't satisfy the policy of a text.
fn is_unmet(alloc: Global, map: &Map, text: &str) -> Result<bool, AllocError> {
    match read_policy(alloc, text) {
        Ok(policy) => Ok(!satisfied(&policy, map, &map.everyone())),
        Err(PolicyFault::NoMemory) => Err(AllocError),
        Err(_) => Ok(false),
    }
}

/// A part of a text, by its bytes.
fn between(text: &str, start: usize, end: usize) -> &str {
    let front = match text.split_at_checked(end) {
        Some((front, _)) => front,
        None => text,
    };
    match front.split_at_checked(start) {
        Some((_, part)) => part,
        None => "",
    }
}

/// The first part of an `And(..)` that isn't satisfied; none of another policy.
fn unmet_part<'t>(alloc: Global, map: &Map, text: &'t str) -> Result<Option<&'t str>, AllocError> {
    let Some(inside) = text.strip_prefix("And(") else {
        return Ok(None);
    };
    let (mut start, mut deep) = (0usize, 0usize);
    for (at, sign) in inside.char_indices() {
        if deep == 0 && (sign == ',' || sign == ')') {
            let part = between(inside, start, at);
            if is_unmet(alloc, map, part)? {
                return Ok(Some(part));
            }
            start = at.saturating_add(1);
        }
        deep = match sign {
            '(' => deep.saturating_add(1),
            ')' => deep.saturating_sub(1),
            _ => deep,
        };
    }
    Ok(None)
}

/// The innermost part of a policy's `And(..)`s that isn't satisfied.
fn unmet_in<'t>(alloc: Global, map: &Map, text: &'t str) -> Result<&'t str, AllocError> {
    let mut part = text;
    for _ in 0..MOST_DEPTH {
        match unmet_part(alloc, map, part)? {
            Some(inner) => part = inner,
            None => break,
        }
    }
    Ok(part)
}

/// Appends the value of a key at a place.
fn push_value(text: &mut String, map: &Map, key: Key, place: u32) -> Result<(), AllocError> {
    if let Some(name) = map.value_at(key, place) {
        text.push_str(if place == 0 { " (" } else { ", " })?;
        text.push_str(name.as_str())?;
    }
    Ok(())
}

/// Appends how many values of a key the processes have, and which if they are few.
fn push_values(text: &mut String, map: &Map, key: Key) -> Result<(), AllocError> {
    let count = map.value_count(key);
    let (noun, word) = (if count == 1 { "value" } else { "values" }, key.text());
    write!(text, "{count} {noun} of `{word}`")?;
    if count == 0 || count > NAMED {
        return Ok(());
    }
    for place in 0..count {
        push_value(text, map, key, place)?;
    }
    text.push_str(")")
}

/// How many processes have no value of a key.
fn count_without(map: &Map, key: Key) -> u32 {
    let mut count = 0u32;
    for process in map.everyone().iter() {
        if process.0 < map.len() && map.value(process, key).is_none() {
            count = count.saturating_add(1);
        }
    }
    count
}

/// The count, the key and the inner policy of an `Across(..)`.
fn across_of(text: &str) -> Option<(&str, Key, &str)> {
    let (count, rest) = text.strip_prefix("Across(")?.split_once(',')?;
    let (key, inner) = rest.split_once(',')?;
    Some((count, Key::named(key)?, inner.strip_suffix(')')?))
}

/// What a part asks for, and what the processes have.
fn told_of(alloc: Global, map: &Map, part: &str) -> Result<String, AllocError> {
    let Some((count, key, inner)) = across_of(part) else {
        return format!(in alloc; "all processes together don't satisfy `{part}`");
    };
    let mut text = format!(in alloc; "`{part}` asks for {count}, and the processes have ")?;
    push_values(&mut text, map, key)?;
    if inner != "One()" {
        write!(&mut text, "; not enough of them satisfy `{inner}`")?;
    }
    let without = count_without(map, key);
    if without > 0 {
        let word = key.text();
        write!(&mut text, "; {without} of them have no `{word}`")?;
    }
    Ok(text)
}

/// Why all processes together don't satisfy the policy at a place.
pub(crate) fn in_unmet<'f>(alloc: Global, table: &'f Table, index: usize) -> Found<'f> {
    let Some(text) = policy_at(table, index) else {
        return Ok(None);
    };
    let Some(map) = map_of(alloc, items_of(table, "process"))? else {
        return Ok(None);
    };
    let told = told_of(alloc, &map, unmet_in(alloc, &map, text)?)?;
    let way = [Step::Key("policies"), Step::Index(index)];
    found(alloc, &way, Spot::Value, told)
}
