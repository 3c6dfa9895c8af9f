//! Writes what a cluster bears, for people. The text is promised (docs/FORMATS.md), and tested by
//! `tests/cli/bears`; no contract says what it is.
use crate::LossesSoFar;
use crate::borne::{Borne, Findings};
use crate::groups::Group;
use crate::reports::Case;
use crate::tolerance::Tolerance;
use crate::warnings::warnings_of;
use fy_decide::Loss;
use fy_locality::{Key, Map, ProcSet};
use fy_policy::policy_text;
use std::alloc::{AllocError, Global};

/// What a cluster bears: who is lost already, a paragraph for each kind of loss, and what is warned
/// of.
pub(crate) fn write_text(
    alloc: Global,
    case: &Case<'_>,
    before: Option<&LossesSoFar>,
    findings: &Findings,
) -> Result<String, AllocError> {
    let mut text = String::new(alloc);
    let processes = case.map.len();
    writeln!(text, "processes: {processes}")?;
    if let Some(losses) = before {
        write_members(&mut text, case.map, "destroyed:", &losses.destroyed)?;
        write_members(&mut text, case.map, "gone:", &losses.gone)?;
        write_members(&mut text, case.map, "down:", &losses.down)?;
    }
    write_borne(alloc, &mut text, case, &findings.emptied)?;
    write_borne(alloc, &mut text, case, &findings.gone)?;
    let warnings = warnings_of(alloc, case, findings)?;
    if !warnings.is_empty() {
        text.push_str("\n")?;
    }
    for warning in &warnings {
        let words = warning.as_str();
        writeln!(text, "warning: {words}")?;
    }
    Ok(text)
}

/// A line with the names of the processes of a set.
fn write_members(
    text: &mut String,
    map: &Map,
    head: &str,
    set: &ProcSet,
) -> Result<(), AllocError> {
    text.push_str(head)?;
    if set.is_empty() {
        text.push_str(" none")?;
    }
    write_names(text, map, set)?;
    text.push_str("\n")
}

/// The names of the processes of a set, each behind a blank.
fn write_names(text: &mut String, map: &Map, set: &ProcSet) -> Result<(), AllocError> {
    for p in set.iter() {
        if p.0 < map.len() {
            if let Some(name) = map.value(p, Key::Process) {
                text.push_str(" ")?;
                text.push_str(name.as_str())?;
            }
        }
    }
    Ok(())
}

/// The paragraph for a kind of loss.
fn write_borne(
    alloc: Global,
    text: &mut String,
    case: &Case<'_>,
    borne: &Borne,
) -> Result<(), AllocError> {
    match borne.loss {
        Loss::Emptied => text.push_str("\nemptied (RebootAndDelete): ")?,
        Loss::Gone => text.push_str("\nkilled for good (KillInstantly): ")?,
    }
    let any = borne.any;
    match any {
        0 => text.push_str("some single process is too many\n")?,
        1 => text.push_str("any 1 process\n")?,
        _ => writeln!(text, "any {any} processes together")?,
    }
    for (place, policy) in case.policies.iter().enumerate() {
        if let Some(found) = borne.tolerances.get(place) {
            let words = policy_text(alloc, policy)?;
            let words = words.as_str();
            write!(text, "  policy {place} {words}: ")?;
            write_tolerance(text, case.map, found)?;
        }
    }
    write_group(text, case.map, &borne.machines)?;
    write_group(text, case.map, &borne.zones)?;
    write_group(text, case.map, &borne.halls)?;
    write_group(text, case.map, &borne.data_centers)
}

/// What a policy bears: the end of its line.
fn write_tolerance(text: &mut String, map: &Map, found: &Tolerance) -> Result<(), AllocError> {
    let any = found.any;
    let many = found.too_many.len();
    if found.is_exact() {
        write!(text, "exactly {any}; too many:")?;
    } else {
        write!(text, "at least {any}; these {many} are too many:")?;
    }
    write_names(text, map, &found.too_many)?;
    text.push_str("\n")
}

/// The plural of what the values of a key are.
fn plural(key: Key) -> &'static str {
    match key {
        Key::Process => "processes",
        Key::Machine => "machines",
        Key::Zone => "zones",
        Key::DataHall => "data halls",
        Key::DataCenter => "data centres",
    }
}

/// The line that says which values of a key may be lost whole.
fn write_group(text: &mut String, map: &Map, group: &Group) -> Result<(), AllocError> {
    let word = plural(group.key);
    let all = group.alone.len();
    if all == 0 {
        return Ok(());
    }
    write!(text, "  {word}: ")?;
    let mut borne = 0usize;
    for may in &group.alone {
        if *may {
            borne = borne.saturating_add(1);
        }
    }
    write_share(text, borne, all)?;
    if borne > 0 && borne < all {
        // The shorter list is told.
        let told = borne <= all / 2;
        text.push_str(if told { ":" } else { ", not" })?;
        let mut place = 0u32;
        for may in &group.alone {
            if *may == told {
                write_value(text, map, group.key, place, " ")?;
            }
            place = place.saturating_add(1);
        }
    }
    if all > 1 {
        write_pairs(text, map, group)?;
    }
    text.push_str("\n")
}

/// How many of all.
fn write_share(text: &mut String, borne: usize, all: usize) -> Result<(), AllocError> {
    if borne == all {
        write!(text, "each of {all}")
    } else if borne == 0 {
        write!(text, "none of {all}")
    } else {
        write!(text, "{borne} of {all}")
    }
}

/// A value of a key, behind a mark.
fn write_value(
    text: &mut String,
    map: &Map,
    key: Key,
    place: u32,
    mark: &str,
) -> Result<(), AllocError> {
    if let Some(name) = map.value_at(key, place) {
        text.push_str(mark)?;
        text.push_str(name.as_str())?;
    }
    Ok(())
}

/// Which pairs may be lost whole.
fn write_pairs(text: &mut String, map: &Map, group: &Group) -> Result<(), AllocError> {
    let mut all = 0usize;
    let mut borne = 0usize;
    for row in &group.pairs {
        for may in row {
            all = all.saturating_add(1);
            borne = borne.saturating_add(usize::from(*may));
        }
    }
    text.push_str("; pairs: ")?;
    write_share(text, borne, all)?;
    if borne == 0 || borne == all {
        return Ok(());
    }
    let told = borne <= all / 2;
    text.push_str(if told { ":" } else { ", not" })?;
    let mut first = 0u32;
    for row in &group.pairs {
        write_row(text, map, group.key, first, row, told)?;
        first = first.saturating_add(1);
    }
    Ok(())
}

/// The pairs of a value with those behind it that are told of.
fn write_row(
    text: &mut String,
    map: &Map,
    key: Key,
    first: u32,
    row: &[bool],
    told: bool,
) -> Result<(), AllocError> {
    let mut second = first;
    for may in row {
        second = second.saturating_add(1);
        if *may == told {
            write_value(text, map, key, first, " ")?;
            write_value(text, map, key, second, "+")?;
        }
    }
    Ok(())
}
