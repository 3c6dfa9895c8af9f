//! Where a number or a length is outside its range.
use crate::fields::key_of;
use crate::finding::{Found, Spot, found};
use fy_cluster::{MOST_ACTORS, MOST_JOURNAL_ENTRIES};
use fy_config::{MOST_PROTECTIONS, Part};
use fy_grants::MOST_GRANTS;
use fy_locality::MOST_PROCESSES;
use fy_places::Step;
use fy_policy::MOST_POLICIES;
use std::alloc::Global;
use toml::{Table, Value};

/// How many elements a part has to have at least and may have at most, and what they are called.
fn range_of(part: Part) -> (usize, usize, &'static str) {
    match part {
        Part::Policies => (1, MOST_POLICIES, "policies"),
        Part::Process => (1, MOST_PROCESSES as usize, "processes"),
        Part::Actor => (1, MOST_ACTORS, "actors"),
        _ => (0, MOST_PROTECTIONS, "protections"),
    }
}

/// The elements of a part; none where it isn't an array.
pub(crate) fn items_of<'f>(table: &'f Table, key: &str) -> &'f [Value] {
    match table.get(key) {
        Some(value) => items_in(value),
        None => &[],
    }
}

/// The elements of a value; none where it isn't an array.
pub(crate) fn items_in(value: &Value) -> &[Value] {
    match value.as_array() {
        Some(items) => items.as_slice(),
        None => &[],
    }
}

/// The grants of an actor.
pub(crate) fn grants_in(actor: &Value) -> &[Value] {
    match actor.get("grants") {
        Some(grants) => items_in(grants),
        None => &[],
    }
}

/// How many grants the actors have in all.
fn grant_count(actors: &[Value]) -> usize {
    let mut count = 0usize;
    for actor in actors {
        count = count.saturating_add(grants_in(actor).len());
    }
    count
}

/// Where a number or a length of a part is outside its range.
pub(crate) fn in_limits<'f>(alloc: Global, table: &'f Table, part: Part) -> Found<'f> {
    let key = key_of(part);
    let way = [Step::Key(key)];
    if part == Part::JournalLimit {
        let text = format!(in alloc; "`journal_limit` is outside 1 to {MOST_JOURNAL_ENTRIES}")?;
        return found(alloc, &way, Spot::Value, text);
    }
    let (items, (least, most, noun)) = (items_of(table, key), range_of(part));
    let count = items.len();
    if count < least || count > most {
        let text = format!(in alloc; "there are {count} {noun}: there may be {least} to {most}")?;
        if count > most {
            return found(
                alloc,
                &[Step::Key(key), Step::Index(most)],
                Spot::Value,
                text,
            );
        }
        return found(alloc, &way, Spot::Value, text);
    }
    let count = grant_count(items);
    let text = format!(in alloc;
        "the actors have {count} grants: they may have {MOST_GRANTS} in all"
    )?;
    found(alloc, &way, Spot::Key, text)
}
