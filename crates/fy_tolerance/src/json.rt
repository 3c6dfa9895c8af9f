//! Writes what a cluster bears, for programs, as one JSON object. The text is promised, and tested;
//! no contract says what it is. Names, keys and policies have no character that JSON would escape.
use crate::LossesSoFar;
use crate::borne::{Borne, Findings};
use crate::groups::Group;
use crate::reports::Case;
use crate::warnings::warnings_of;
use fy_decide::Loss;
use fy_locality::{Key, Map, ProcSet};
use fy_policy::policy_text;
use std::alloc::{AllocError, Global};

/// What a cluster bears, as one object.
pub(crate) fn write_json(
    alloc: Global,
    case: &Case<'_>,
    before: Option<&LossesSoFar>,
    findings: &Findings,
) -> Result<String, AllocError> {
    let mut text = String::new(alloc);
    let processes = case.map.len();
    write!(text, "{{\"processes\":{processes},")?;
    if let Some(losses) = before {
        write_members(&mut text, case.map, "\"destroyed\":", &losses.destroyed)?;
        write_members(&mut text, case.map, ",\"gone\":", &losses.gone)?;
        write_members(&mut text, case.map, ",\"down\":", &losses.down)?;
        text.push_str(",")?;
    }
    text.push_str("\"losses\":[")?;
    write_borne(alloc, &mut text, case, &findings.emptied)?;
    text.push_str(",")?;
    write_borne(alloc, &mut text, case, &findings.gone)?;
    text.push_str("],\"warnings\":[")?;
    let warnings = warnings_of(alloc, case, findings)?;
    for (place, warning) in warnings.iter().enumerate() {
        write_text(&mut text, place, warning.as_str())?;
    }
    text.push_str("]}\n")?;
    Ok(text)
}

/// A text at a place of a list.
fn write_text(text: &mut String, place: usize, words: &str) -> Result<(), AllocError> {
    if place > 0 {
        text.push_str(",")?;
    }
    write!(text, "\"{words}\"")
}

/// A list of the names of the processes of a set, behind its key.
fn write_members(
    text: &mut String,
    map: &Map,
    head: &str,
    set: &ProcSet,
) -> Result<(), AllocError> {
    text.push_str(head)?;
    text.push_str("[")?;
    let mut place = 0usize;
    for p in set.iter() {
        if p.0 < map.len() {
            if let Some(name) = map.value(p, Key::Process) {
                write_text(text, place, name.as_str())?;
                place = place.saturating_add(1);
            }
        }
    }
    text.push_str("]")
}

/// The object of a kind of loss.
fn write_borne(
    alloc: Global,
    text: &mut String,
    case: &Case<'_>,
    borne: &Borne,
) -> Result<(), AllocError> {
    match borne.loss {
        Loss::Emptied => text.push_str("{\"kind\":\"RebootAndDelete\",")?,
        Loss::Gone => text.push_str("{\"kind\":\"KillInstantly\",")?,
    }
    let any = borne.any;
    write!(text, "\"any\":{any},\"policies\":[")?;
    for (place, policy) in case.policies.iter().enumerate() {
        if let Some(found) = borne.tolerances.get(place) {
            if place > 0 {
                text.push_str(",")?;
            }
            let words = policy_text(alloc, policy)?;
            let words = words.as_str();
            let any = found.any;
            let exact = found.is_exact();
            write!(
                text,
                "{{\"policy\":\"{words}\",\"any\":{any},\"exact\":{exact}"
            )?;
            write_members(text, case.map, ",\"too_many\":", &found.too_many)?;
            text.push_str("}")?;
        }
    }
    text.push_str("],\"groups\":[")?;
    write_group(text, case.map, &borne.machines)?;
    text.push_str(",")?;
    write_group(text, case.map, &borne.zones)?;
    text.push_str(",")?;
    write_group(text, case.map, &borne.halls)?;
    text.push_str(",")?;
    write_group(text, case.map, &borne.data_centers)?;
    text.push_str("]}")
}

/// The object of a key.
fn write_group(text: &mut String, map: &Map, group: &Group) -> Result<(), AllocError> {
    let key = group.key.text();
    let values = group.alone.len();
    write!(text, "{{\"key\":\"{key}\",\"values\":{values},\"alone\":[")?;
    let mut place = 0usize;
    let mut value = 0u32;
    for may in &group.alone {
        if *may {
            if let Some(name) = map.value_at(group.key, value) {
                write_text(text, place, name.as_str())?;
                place = place.saturating_add(1);
            }
        }
        value = value.saturating_add(1);
    }
    text.push_str("],\"pairs\":[")?;
    let mut count = 0usize;
    let mut first = 0u32;
    for row in &group.pairs {
        let mut second = first;
        for may in row {
            second = second.saturating_add(1);
            if *may {
                write_pair(text, map, group.key, count, first, second)?;
                count = count.saturating_add(1);
            }
        }
        first = first.saturating_add(1);
    }
    text.push_str("]}")
}

/// A pair of values at a place of a list.
fn write_pair(
    text: &mut String,
    map: &Map,
    key: Key,
    place: usize,
    first: u32,
    second: u32,
) -> Result<(), AllocError> {
    if place > 0 {
        text.push_str(",")?;
    }
    text.push_str("[")?;
    if let Some(name) = map.value_at(key, first) {
        write_text(text, 0, name.as_str())?;
    }
    if let Some(name) = map.value_at(key, second) {
        write_text(text, 1, name.as_str())?;
    }
    text.push_str("]")
}
