//! The parts of questions in JSON values: members of objects, numbers, words and targets.
ghost use Rattle.std.specs.Prelude.{◌≡◌, option_map};
ghost use Rattle.serde_json.specs.View.{view, members_view};
ghost use Rattle.serde_json.specs.Find.{as_object};
ghost use Rattle.fy_asking.specs.Asks.{is_empty_object};
ghost use Rattle.fy_spelling.specs.Candidate.{next_at, sole, one, two, three, five, u64_from, u32_from, process_from, kind_from, key_from, name_from, target_from, target_in};

use fy_kinds::{Kind, Target};
use fy_locality::{Key, Name, ProcId};
use serde_json::Value;
use std::collections::btree_map::Iter;

/// The value of the next member, where it has this key.
fn next_at<'v>(fields: &mut Iter<'v, String, Value>, key: &str) -> Option<&'v Value>
    ensures { option_map (λ v. (view v.now, members_view fields.new)) result
        ≡ next_at key.now (members_view fields.old) }
{
    let (name, value) = fields.next()?;
    if name.as_str() == key {
        Some(value)
    } else {
        None
    }
}

/// The value of an object's one member, which has this key.
pub(crate) fn one<'v>(value: &'v Value, key: &str) -> Option<&'v Value>
    ensures { option_map (λ v. view v.now) result ≡ one key.now (view value.now) }
{
    let mut fields = value.as_object()?.iter();
    let found = next_at(&mut fields, key)?;
    match fields.next() {
        Some(_) => None,
        None => Some(found),
    }
}

/// The values of an object's two members, which have these keys.
pub(crate) fn two<'v>(value: &'v Value, first: &str, second: &str) -> Option<(&'v Value, &'v Value)>
    ensures { option_map (λ p. (view p.0.now, view p.1.now)) result
        ≡ two first.now second.now (view value.now) }
{
    let mut fields = value.as_object()?.iter();
    let a = next_at(&mut fields, first)?;
    let b = next_at(&mut fields, second)?;
    match fields.next() {
        Some(_) => None,
        None => Some((a, b)),
    }
}

/// The values of an object's three members, which have these keys.
pub(crate) fn three<'v>(
    value: &'v Value,
    first: &str,
    second: &str,
    third: &str,
) -> Option<(&'v Value, &'v Value, &'v Value)>
    ensures { option_map (λ p. (view p.0.now, view p.1.now, view p.2.now)) result
        ≡ three first.now second.now third.now (view value.now) }
{
    let mut fields = value.as_object()?.iter();
    let a = next_at(&mut fields, first)?;
    let b = next_at(&mut fields, second)?;
    let c = next_at(&mut fields, third)?;
    match fields.next() {
        Some(_) => None,
        None => Some((a, b, c)),
    }
}

/// The values of an object's five members, which have these keys.
pub(crate) fn five<'v>(
    value: &'v Value,
    first: &str,
    second: &str,
    third: &str,
    fourth: &str,
    fifth: &str,
) -> Option<(&'v Value, &'v Value, &'v Value, &'v Value, &'v Value)>
    ensures { option_map (λ p.
        (view p.0.now, view p.1.now, view p.2.now, view p.3.now, view p.4.now)) result
        ≡ five first.now second.now third.now fourth.now fifth.now (view value.now) }
{
    let mut fields = value.as_object()?.iter();
    let a = next_at(&mut fields, first)?;
    let b = next_at(&mut fields, second)?;
    let c = next_at(&mut fields, third)?;
    let d = next_at(&mut fields, fourth)?;
    let e = next_at(&mut fields, fifth)?;
    match fields.next() {
        Some(_) => None,
        None => Some((a, b, c, d, e)),
    }
}

/// The one member of an object.
pub(crate) fn sole(value: &Value) -> Option<(&str, &Value)>
    ensures { option_map (λ p. (p.0.now, view p.1.now)) result ≡ sole (view value.now) }
{
    let mut fields = value.as_object()?.iter();
    let (name, found) = fields.next()?;
    match fields.next() {
        Some(_) => None,
        None => Some((name.as_str(), found)),
    }
}

/// Whether a value is an object without members.
pub(crate) fn is_empty(value: &Value) -> bool
    ensures { result ≡ is_empty_object (as_object (view value.now)) }
{
    let Some(fields) = value.as_object() else {
        return false;
    };
    match fields.iter().next() {
        Some(_) => false,
        None => true,
    }
}

// ---- numbers

/// A number of 64 bits.
pub(crate) fn u64_of(value: &Value) -> Option<u64>
    ensures { result ≡ u64_from (view value.now) }
{
    value.as_u64()
}

/// A number of 32 bits.
pub(crate) fn u32_of(value: &Value) -> Option<u32>
    ensures { result ≡ u32_from (view value.now) }
{
    u32::try_from(u64_of(value)?).ok()
}

/// The number of a process.
pub(crate) fn process_of(value: &Value) -> Option<ProcId>
    ensures { result ≡ process_from (view value.now) }
{
    Some(ProcId(u32_of(value)?))
}

// ---- words

/// The kind that a JSON value names by its word.
pub(crate) fn kind_of(value: &Value) -> Option<Kind>
    ensures { result ≡ kind_from (view value.now) }
{
    Kind::named(value.as_str()?)
}

/// A key by its word.
fn key_of(value: &Value) -> Option<Key>
    ensures { result ≡ key_from (view value.now) }
{
    Key::named(value.as_str()?)
}

/// A name.
fn name_of(value: &Value) -> Option<Name>
    ensures { result ≡ name_from (view value.now) }
{
    Name::make(value.as_str()?).ok()
}

/// The target that two JSON values spell: its key and its value.
pub(crate) fn target_of(key: &Value, value: &Value) -> Option<Target>
    ensures { result ≡ target_from (view key.now) (view value.now) }
{
    let key = key_of(key)?;
    let value = name_of(value)?;
    Some(Target { key, value })
}

/// The target that a JSON object spells, with its key and its value as members.
pub(crate) fn target_in(value: &Value) -> Option<Target>
    ensures { result ≡ target_in (view value.now) }
{
    let (key, value) = two(value, "key", "value")?;
    target_of(key, value)
}
