//! The parts of acts in JSON values: members of objects, numbers, words and lists.
ghost use Rattle.std.specs.Prelude.{◌≡◌, Some, None, if◌then◌else◌, IfOk, option_map};
ghost use Rattle.serde_json.specs.View.{view, items_view, members_view};
ghost use Rattle.fy_team.specs.Members.{are_members};
ghost use Rattle.fy_spelling.specs.Candidate.{next_at, sole, one, two, three, five, u64_from, u32_from, process_from, processes_from, members_from, kind_from, key_from, name_from, target_from, kinds_from, payload_from, deeds_from, deed_from, scope_from, target_in};
ghost use Rattle.fy_spelling.specs.Replied.{four};
ghost use Rattle.fy_kinds.specs.Kinds.{only};
ghost use Rattle.fy_spelling.specs.Command.{gathered};

use fy_disk::Payload;
use fy_grants::Scope;
use fy_kinds::{Kind, KindSet, Target};
use fy_locality::{Key, Name, ProcId};
use fy_team::Members;
use hex::FromHexError;
use serde_json::Value;
use std::alloc::{AllocError, Global};
use std::collections::btree_map::Iter;

/// The members of an object that are left, in the order of their keys.
type Fields<'v> = Iter<'v, String, Value>;

/// The value of the next member, where it has this key.
fn next_at<'v>(fields: &mut Iter<'v, String, Value>, key: &str) -> Option<&'v Value>
    ensures { option_map (λ v. (view v.now, members_view fields.new)) result
        ≡ next_at key.now (members_view fields.old) }
{
    let (name, value) = fields.next()?;
    if name.as_str() == key {
        Some(value)
    } else {
        None
    }
}

/// The value of an object's one member, which has this key.
pub(crate) fn one<'v>(value: &'v Value, key: &str) -> Option<&'v Value>
    ensures { option_map (λ v. view v.now) result ≡ one key.now (view value.now) }
{
    let mut fields = value.as_object()?.iter();
    let found = next_at(&mut fields, key)?;
    match fields.next() {
        Some(_) => None,
        None => Some(found),
    }
}

/// The values of an object's two members, which have these keys.
pub(crate) fn two<'v>(value: &'v Value, first: &str, second: &str) -> Option<(&'v Value, &'v Value)>
    ensures { option_map (λ p. (view p.0.now, view p.1.now)) result
        ≡ two first.now second.now (view value.now) }
{
    let mut fields = value.as_object()?.iter();
    let a = next_at(&mut fields, first)?;
    let b = next_at(&mut fields, second)?;
    match fields.next() {
        Some(_) => None,
        None => Some((a, b)),
    }
}

/// The values of an object's three members, which have these keys.
pub(crate) fn three<'v>(
    value: &'v Value,
    first: &str,
    second: &str,
    third: &str,
) -> Option<(&'v Value, &'v Value, &'v Value)>
    ensures { option_map (λ p. (view p.0.now, view p.1.now, view p.2.now)) result
        ≡ three first.now second.now third.now (view value.now) }
{
    let mut fields = value.as_object()?.iter();
    let a = next_at(&mut fields, first)?;
    let b = next_at(&mut fields, second)?;
    let c = next_at(&mut fields, third)?;
    match fields.next() {
        Some(_) => None,
        None => Some((a, b, c)),
    }
}

/// The values of an object's four members, which have these keys.
pub(crate) fn four<'v>(
    value: &'v Value,
    first: &str,
    second: &str,
    third: &str,
    fourth: &str,
) -> Option<(&'v Value, &'v Value, &'v Value, &'v Value)>
    ensures { option_map (λ p. (view p.0.now, view p.1.now, view p.2.now, view p.3.now)) result
        ≡ four first.now second.now third.now fourth.now (view value.now) }
{
    let mut fields = value.as_object()?.iter();
    let a = next_at(&mut fields, first)?;
    let b = next_at(&mut fields, second)?;
    let c = next_at(&mut fields, third)?;
    let d = next_at(&mut fields, fourth)?;
    match fields.next() {
        Some(_) => None,
        None => Some((a, b, c, d)),
    }
}

/// The values of an object's five members, which have these keys.
pub(crate) fn five<'v>(
    value: &'v Value,
    first: &str,
    second: &str,
    third: &str,
    fourth: &str,
    fifth: &str,
) -> Option<(&'v Value, &'v Value, &'v Value, &'v Value, &'v Value)>
    ensures { option_map (λ p.
        (view p.0.now, view p.1.now, view p.2.now, view p.3.now, view p.4.now)) result
        ≡ five first.now second.now third.now fourth.now fifth.now (view value.now) }
{
    let mut fields = value.as_object()?.iter();
    let a = next_at(&mut fields, first)?;
    let b = next_at(&mut fields, second)?;
    let c = next_at(&mut fields, third)?;
    let d = next_at(&mut fields, fourth)?;
    let e = next_at(&mut fields, fifth)?;
    match fields.next() {
        Some(_) => None,
        None => Some((a, b, c, d, e)),
    }
}

/// The one member of an object.
pub(crate) fn sole(value: &Value) -> Option<(&str, &Value)>
    ensures { option_map (λ p. (p.0.now, view p.1.now)) result ≡ sole (view value.now) }
{
    let mut fields = value.as_object()?.iter();
    let (name, found) = fields.next()?;
    match fields.next() {
        Some(_) => None,
        None => Some((name.as_str(), found)),
    }
}

// ---- numbers

/// A number of 64 bits.
pub(crate) fn u64_of(value: &Value) -> Option<u64>
    ensures { result ≡ u64_from (view value.now) }
{
    value.as_u64()
}

/// A number of 32 bits.
pub(crate) fn u32_of(value: &Value) -> Option<u32>
    ensures { result ≡ u32_from (view value.now) }
{
    u32::try_from(u64_of(value)?).ok()
}

/// The number of a process.
pub(crate) fn process_of(value: &Value) -> Option<ProcId>
    ensures { result ≡ process_from (view value.now) }
{
    Some(ProcId(u32_of(value)?))
}

/// The numbers of processes.
fn processes_of(alloc: Global, values: &[Value]) -> Result<Option<Vec<ProcId>>, AllocError>
    ensures { IfOk result (λ found. option_map (λ ps. ps.items) found
        ≡ processes_from (items_view values.now)) }
{
    let mut found = Vec::new(alloc);
    for value in values {
        let Some(process) = process_of(value) else {
            return Ok(None);
        };
        found.push(process)?;
    }
    Ok(Some(found))
}

/// The members that these processes are, where they are members.
fn as_members(processes: Vec<ProcId>) -> Option<Members>
    ensures { result ≡ (if are_members processes.items then Some processes.items else None) }
{
    fy_team::laws::members_are_tested();
    match Members::from_vec(processes) {
        Ok(members) => Some(members),
        Err(_) => None,
    }
}

/// The members of a team.
pub(crate) fn member_list_of(alloc: Global, value: &Value) -> Result<Option<Members>, AllocError>
    ensures { IfOk result (λ found. found ≡ members_from (view value.now)) }
{
    let Some(values) = value.as_array() else {
        return Ok(None);
    };
    let Some(processes) = processes_of(alloc, values)? else {
        return Ok(None);
    };
    Ok(as_members(processes))
}

// ---- words

/// The kind that a JSON value names by its word.
pub(crate) fn kind_of(value: &Value) -> Option<Kind>
    ensures { result ≡ kind_from (view value.now) }
{
    Kind::named(value.as_str()?)
}

/// A key by its word.
fn key_of(value: &Value) -> Option<Key>
    ensures { result ≡ key_from (view value.now) }
{
    Key::named(value.as_str()?)
}

/// A name.
fn name_of(value: &Value) -> Option<Name>
    ensures { result ≡ name_from (view value.now) }
{
    Name::make(value.as_str()?).ok()
}

/// The target that two JSON values spell: its key and its value.
pub(crate) fn target_of(key: &Value, value: &Value) -> Option<Target>
    ensures { result ≡ target_from (view key.now) (view value.now) }
{
    let key = key_of(key)?;
    let value = name_of(value)?;
    Some(Target { key, value })
}

/// The target that a JSON object spells, with its key and its value as members.
pub(crate) fn target_in(value: &Value) -> Option<Target>
    ensures { result ≡ target_in (view value.now) }
{
    let (key, value) = two(value, "key", "value")?;
    target_of(key, value)
}

/// Every process by a word, or those of a target.
pub(crate) fn scope_of(value: &Value) -> Option<Scope>
    ensures { result ≡ scope_from (view value.now) }
{
    match value.as_str() {
        Some(word) => {
            if word == "all" {
                Some(Scope::All)
            } else {
                None
            }
        }
        None => Some(Scope::Where(target_in(value)?)),
    }
}

/// The set of the kind that a word names.
fn deed_of(value: &Value) -> Option<KindSet>
    ensures { result ≡ option_map only (deed_from (view value.now)) }
{
    KindSet::named(value.as_str()?)
}

/// The kinds that words name, in any order and as often as they like.
fn deeds_of(values: &[Value]) -> Option<KindSet>
    ensures { result ≡ option_map gathered (deeds_from (items_view values.now)) }
{
    let mut kinds = KindSet::empty();
    for value in values {
        kinds.insert(deed_of(value)?);
    }
    Some(kinds)
}

/// The kinds that an array of words names.
pub(crate) fn kinds_of(value: &Value) -> Option<KindSet>
    ensures { result ≡ kinds_from (view value.now) }
{
    deeds_of(value.as_array()?)
}

/// The bytes of a text of two lower-case digits each.
pub(crate) fn payload_of(alloc: Global, value: &Value) -> Result<Option<Payload>, AllocError>
    ensures { IfOk result (λ found. found ≡ payload_from (view value.now)) }
{
    let Some(text) = value.as_str() else {
        return Ok(None);
    };
    let bytes = match hex::decode(alloc, text) {
        Ok(bytes) => bytes,
        Err(FromHexError::OutOfMemory) => return Err(AllocError),
        Err(_) => return Ok(None),
    };
    let again = hex::encode(alloc, bytes.as_slice())?;
    if again.as_str() == text {
        Ok(Some(Payload::from_vec(bytes)))
    } else {
        Ok(None)
    }
}
