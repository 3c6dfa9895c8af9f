//! Where the text of a policy is none.
use crate::finding::{Found, Spot, found};
use crate::limits::items_of;
use crate::scan::{Flaw, flaw_in};
use fy_places::Step;
use std::alloc::Global;
use toml::Table;

/// The text of the policy at a place.
pub(crate) fn policy_at(table: &Table, index: usize) -> Option<&str> {
    match items_of(table, "policies").get(index) {
        Some(value) => value.as_str(),
        None => None,
    }
}

/// Where the text of the policy at a place is none.
pub(crate) fn in_policy<'f>(alloc: Global, table: &'f Table, index: usize) -> Found<'f> {
    let Some(text) = policy_at(table, index) else {
        return Ok(None);
    };
    let Some(flaw) = flaw_in(alloc, text)? else {
        return Ok(None);
    };
    let Flaw {
        start,
        end,
        text: told,
    } = flaw;
    let way = [Step::Key("policies"), Step::Index(index)];
    found(alloc, &way, Spot::Part { text, start, end }, told)
}
