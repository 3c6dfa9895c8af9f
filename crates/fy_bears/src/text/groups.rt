//! Which machines, zones, halls and data centres may be lost whole, a line for each key.
ghost use Rattle.std.specs.Prelude.{◌≡◌, ◌≤◌, ◌<◌, ◌++◌, ◌+◌, OnOk, codes, false, length, slice_index_or, string_bytes};
ghost use Rattle.fy_locality.specs.Locality.{values_of};
ghost use Rattle.fy_policy.specs.Counted.{number_of};
ghost use Rattle.fy_bears.specs.Pieces.{each_below};
ghost use Rattle.fy_bears.specs.Texts.{alone_at, alone_text, group_text, is_mixed, is_told, pair_at, pair_text, pairs_before, pairs_of, pairs_text, plural, row_text, share_text, told_mark, value_text};

use crate::text::pieces::{put, put_decimal, put_marked, put_number};
use fy_locality::{Key, Map};
use fy_tolerance::Group;
use std::alloc::AllocError;

/// What the values of a key are.
fn plural(key: Key) -> &'static str
    ensures { result.now ≡ plural key }
{
    match key {
        Key::Process => "processes",
        Key::Machine => "machines",
        Key::Zone => "zones",
        Key::DataHall => "data halls",
        Key::DataCenter => "data centres",
    }
}

/// How many of all.
fn put_share(out: &mut String, some: u64, all: u64) -> Result<(), AllocError>
    ensures { OnOk result
        (string_bytes out.new ≡ string_bytes out.old ++ share_text some all) }
{
    if some == all {
        put_number(out, "each of ", all)
    } else if some == 0 {
        put_number(out, "none of ", all)
    } else {
        put_decimal(out, some)?;
        put_number(out, " of ", all)
    }
}

/// A mark in a row, false behind its end.
fn mark_at(marks: &[bool], i: u32) -> bool
    ensures { result ≡ slice_index_or marks.now i false }
{
    let i = i as usize;
    i < marks.len() && marks[i]
}

/// How many values may be lost.
fn alone_count(group: &Group, all: u32) -> u32
    ensures count { result ≡ number_of (alone_at group.now) all }
    ensures few { result ≤ all }
{
    let mut count = 0;
    for i in 0..all {
        if mark_at(&group.alone, i) {
            count += 1;
        }
    }
    count
}

/// Whether a value may be lost together with one so far behind the next.
fn pair_at(group: &Group, first: u32, behind: u32) -> bool
    ensures { result ≡ pair_at group.now first behind }
{
    let first = first as usize;
    first < group.pairs.len() && mark_at(&group.pairs[first], behind)
}

/// How many values that stand behind one may be lost with it.
fn row_count(group: &Group, first: u32, all: u32) -> u32
    ensures count { result ≡ number_of (pair_at group.now first) all }
    ensures few { result ≤ all }
{
    let mut count = 0;
    for behind in 0..all {
        if pair_at(group, first, behind) {
            count += 1;
        }
    }
    count
}

/// How many pairs may be lost.
fn pair_count(group: &Group, all: u32) -> u64
    ensures { result ≡ pairs_before group.now all all }
{
    let mut count = 0;
    for first in 0..all {
        count += row_count(group, first, all - (first + 1)) as u64;
    }
    count
}

/// Whether some are borne, and some aren't.
fn is_mixed(some: u64, all: u64) -> bool
    ensures { result ≡ is_mixed some all }
{
    some != all && some != 0
}

/// What stands before those that are borne, or before those that aren't.
fn told_mark(told: bool) -> &'static str
    ensures { result.now ≡ told_mark told }
{
    if told { ":" } else { ", not" }
}

/// Whether one is told of.
fn is_told(told: bool, borne: bool) -> bool
    ensures { result ≡ is_told told borne }
{
    if told { borne } else { !borne }
}

/// The value at a place, where it is told of.
fn put_value(
    out: &mut String,
    map: &Map,
    group: &Group,
    told: bool,
    i: u32,
) -> Result<(), AllocError>
    ensures { OnOk result (string_bytes out.new ≡ string_bytes out.old
        ++ value_text (values_of map.now group.now.key) group.now told i) }
{
    if is_told(told, mark_at(&group.alone, i)) {
        put_marked(out, " ", map.value_at(group.key, i))
    } else {
        Ok(())
    }
}

/// The values that are told of.
fn put_values(out: &mut String, map: &Map, group: &Group, told: bool) -> Result<(), AllocError>
    ensures { OnOk result (string_bytes out.new ≡ string_bytes out.old
        ++ (told_mark told ++ each_below (value_text (values_of map.now group.now.key) group.now told)
        (length (values_of map.now group.now.key)))) }
{
    put(out, told_mark(told))?;
    for i in 0..map.value_count(group.key) {
        put_value(out, map, group, told, i)?;
    }
    Ok(())
}

/// Which values may be lost.
fn put_alone(out: &mut String, map: &Map, group: &Group) -> Result<(), AllocError>
    ensures { OnOk result (string_bytes out.new ≡ string_bytes out.old
        ++ alone_text (values_of map.now group.now.key) group.now) }
{
    let all = map.value_count(group.key);
    let some = alone_count(group, all);
    put_share(out, some as u64, all as u64)?;
    if is_mixed(some as u64, all as u64) {
        put_values(out, map, group, some <= all / 2)
    } else {
        Ok(())
    }
}

/// A pair of values, where it is told of.
fn put_pair(
    out: &mut String,
    map: &Map,
    group: &Group,
    told: bool,
    first: u32,
    behind: u32,
) -> Result<(), AllocError>
    requires { first + 1 + behind < length (values_of map.now group.now.key) }
    ensures { OnOk result (string_bytes out.new ≡ string_bytes out.old
        ++ pair_text (values_of map.now group.now.key) group.now told first behind) }
{
    let _all = map.value_count(group.key);
    if is_told(told, pair_at(group, first, behind)) {
        put_marked(out, " ", map.value_at(group.key, first))?;
        put_marked(out, "+", map.value_at(group.key, first + 1 + behind))
    } else {
        Ok(())
    }
}

/// The pairs of a value with those behind it that are told of.
fn put_row(
    out: &mut String,
    map: &Map,
    group: &Group,
    told: bool,
    first: u32,
) -> Result<(), AllocError>
    requires { first < length (values_of map.now group.now.key) }
    ensures { OnOk result (string_bytes out.new ≡ string_bytes out.old
        ++ row_text (values_of map.now group.now.key) group.now told first) }
{
    for behind in 0..map.value_count(group.key) - (first + 1) {
        put_pair(out, map, group, told, first, behind)?;
    }
    Ok(())
}

/// The pairs of values that are told of.
fn put_rows(out: &mut String, map: &Map, group: &Group, told: bool) -> Result<(), AllocError>
    ensures { OnOk result (string_bytes out.new ≡ string_bytes out.old
        ++ (told_mark told ++ each_below (row_text (values_of map.now group.now.key) group.now told)
        (length (values_of map.now group.now.key)))) }
{
    put(out, told_mark(told))?;
    for first in 0..map.value_count(group.key) {
        put_row(out, map, group, told, first)?;
    }
    Ok(())
}

/// How many pairs there are of so many values.
fn pairs_of(values: u32) -> u64
    ensures { result ≡ pairs_of values }
{
    let mut pairs = 0;
    for value in 0..values {
        pairs += value as u64;
    }
    pairs
}

/// Which pairs of values may be lost, where there are two values.
fn put_pairs(out: &mut String, map: &Map, group: &Group) -> Result<(), AllocError>
    ensures { OnOk result (string_bytes out.new ≡ string_bytes out.old
        ++ pairs_text (values_of map.now group.now.key) group.now) }
{
    let values = map.value_count(group.key);
    if values <= 1 {
        return Ok(());
    }
    let all = pairs_of(values);
    let some = pair_count(group, values);
    put(out, "; pairs: ")?;
    put_share(out, some, all)?;
    if is_mixed(some, all) {
        put_rows(out, map, group, some <= all / 2)
    } else {
        Ok(())
    }
}

/// The line of a key that some process has.
pub(crate) fn put_group(out: &mut String, map: &Map, group: &Group) -> Result<(), AllocError>
    ensures { OnOk result
        (string_bytes out.new ≡ string_bytes out.old ++ group_text map.now group.now) }
{
    if map.value_count(group.key) == 0 {
        return Ok(());
    }
    put_group_head(out, group.key)?;
    put_alone(out, map, group)?;
    put_pairs(out, map, group)?;
    put(out, "\n")
}

/// What the values of a key are, between blanks.
fn put_group_head(out: &mut String, key: Key) -> Result<(), AllocError>
    ensures { OnOk result (string_bytes out.new ≡ string_bytes out.old
        ++ (codes "  " ++ (plural key ++ codes ": "))) }
{
    put(out, "  ")?;
    put(out, plural(key))?;
    put(out, ": ")
}
