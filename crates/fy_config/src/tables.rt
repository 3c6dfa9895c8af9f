//! What each table of a cluster file spells.
ghost use Rattle.std.specs.Prelude.{◌≡◌, map, option_map, bytes_eq, IfOk, OnOk, [], ◌∷◌, ◌++◌};
ghost use Rattle.std.specs.List.{list_any};
ghost use Rattle.std.specs.Option.{option_copied};
ghost use Rattle.toml.specs.Data.{get_member};
ghost use Rattle.toml.specs.View.{view, table_view, items_view};
ghost use Rattle.fy_locality.specs.Locality.{locality_of};
ghost use Rattle.fy_grants.specs.declared.grant.Scope.TheVariants.{Where};
ghost use Rattle.fy_config.specs.Given.{name_given, process_given, scope_given, grant_given, actor_given, actor_kept, protection_given};
ghost use Rattle.fy_config.specs.Tables.{has_only, integer_at, list_if_any, text_at, text_if_any, all_of, kind_set_of, union_of, kinds_at, scope_where, scope_of, role_named, role_at, process_in, process_of, grant_in, grant_of, actor_of, protection_of};

use crate::given::{GivenActor, GivenGrant, GivenProtection};
use fy_cluster::Role;
use fy_grants::Scope;
use fy_kinds::{KindSet, Target};
use fy_locality::{BadName, Key, Locality, Name};
use std::alloc::{AllocError, Global};
use toml::{Table, Value};

/// The keys of a process.
const PROCESS_KEYS: [&str; 5] = ["processid", "machineid", "zoneid", "data_hall", "dcid"];
/// The keys of a grant.
const GRANT_KEYS: [&str; 3] = ["kinds", "key", "value"];
/// The keys of an actor.
const ACTOR_KEYS: [&str; 2] = ["role", "grants"];
/// The keys of a protection.
const PROTECTION_KEYS: [&str; 2] = ["process", "kinds"];

/// Whether a key is one of these.
fn is_among(key: &str, keys: &[&str]) -> bool
    ensures { result ≡ list_any (bytes_eq key.now) (map (λ known. known.now) keys.now) }
{
    for known in keys {
        if key == *known {
            return true;
        }
    }
    false
}

/// Whether every key is one of these.
pub(crate) fn has_only(table: &Table, keys: &[&str]) -> bool
    ensures { result ≡ has_only (map (λ key. key.now) keys.now) (table_view table.now) }
{
    for (key, _) in table {
        if !is_among(key.as_str(), keys) {
            return false;
        }
    }
    true
}

/// The value at a key.
pub(crate) fn find<'t>(table: &'t Table, key: &str) -> Option<&'t Value>
    ensures { option_map (λ v. view v.now) result ≡ get_member key.now (table_view table.now) }
{
    table.get(key)
}

/// The text at a key.
pub(crate) fn text_at<'t>(table: &'t Table, key: &str) -> Option<&'t str>
    ensures { option_copied result ≡ text_at key.now (table_view table.now) }
{
    find(table, key)?.as_str()
}

/// The whole number at a key.
pub(crate) fn integer_at(table: &Table, key: &str) -> Option<i64>
    ensures { result ≡ integer_at key.now (table_view table.now) }
{
    find(table, key)?.as_integer()
}

/// The role that is written so.
fn role_named(word: &str) -> Option<Role>
    ensures { result ≡ role_named word.now }
{
    match word {
        "fault" => Some(Role::Fault),
        "storage" => Some(Role::Storage),
        "operator" => Some(Role::Operator),
        _ => None,
    }
}

/// The name that a text is.
fn name_given(text: &str) -> Option<Name>
    ensures { result ≡ name_given text.now }
{
    Name::make(text).ok()
}

/// The set of the one kind that a word of the file names.
fn kind_set_of(value: &Value) -> Option<KindSet>
    ensures { result ≡ kind_set_of (view value.now) }
{
    KindSet::named(value.as_str()?)
}

/// The set of the kinds that words of the file name.
fn kinds_of(values: &[Value]) -> Option<KindSet>
    ensures { result ≡ option_map union_of (all_of kind_set_of (items_view values.now)) }
{
    let mut kinds = KindSet::empty();
    for value in values {
        kinds.insert(kind_set_of(value)?);
    }
    Some(kinds)
}

/// The set of the kinds that an array of words names at a key.
fn kinds_at(table: &Table, key: &str) -> Option<KindSet>
    ensures { result ≡ kinds_at key.now (table_view table.now) }
{
    kinds_of(find(table, key)?.as_array()?)
}

/// The text, if there is a value; none where it is another value than a text.
fn text_if_any(value: Option<&Value>) -> Option<Option<&str>>
    ensures { option_map (λ text. option_copied text) result
        ≡ text_if_any (option_map (λ v. view v.now) value.entry) }
{
    match value {
        Some(value) => Some(Some(value.as_str()?)),
        None => Some(None),
    }
}

/// The process of five texts; none where one of them is no name.
fn process_given(
    process: &str,
    machine: &str,
    zone: &str,
    hall: Option<&str>,
    data_center: Option<&str>,
) -> Option<Locality>
    ensures { result ≡ process_given (locality_of process.now machine.now zone.now
        (option_copied hall.entry) (option_copied data_center.entry)) }
{
    match Locality::make(process, machine, zone, hall, data_center) {
        Ok(locality) => Some(locality),
        Err(BadName) => None,
    }
}

/// The process of a table with texts at its keys, and within it none where one of them is no name.
fn process_in(table: &Table) -> Option<Option<Locality>>
    ensures { result ≡ option_map process_given (process_in (table_view table.now)) }
{
    let process = text_at(table, "processid")?;
    let machine = text_at(table, "machineid")?;
    let zone = text_at(table, "zoneid")?;
    let hall = text_if_any(find(table, "data_hall"))?;
    let data_center = text_if_any(find(table, "dcid"))?;
    Some(process_given(process, machine, zone, hall, data_center))
}

/// The process of a value, and within it none where one of its texts is no name.
pub(crate) fn process_of(value: &Value) -> Option<Option<Locality>>
    ensures { result ≡ option_map process_given (process_of (view value.now)) }
{
    let table = value.as_table()?;
    if !has_only(table, &PROCESS_KEYS) {
        return None;
    }
    process_in(table)
}

/// The processes with one value of a key; none where the value is no name.
fn scope_given(key: Key, text: &str) -> Option<Scope>
    ensures { result ≡ scope_given (Where (record { key = key; value = text.now })) }
{
    let value = name_given(text)?;
    Some(Scope::Where(Target { key, value }))
}

/// The scope of a key and a value, and within it none where the value is no name.
fn scope_where(key: &Value, value: &Value) -> Option<Option<Scope>>
    ensures { result ≡ option_map scope_given (scope_where (view key.now) (view value.now)) }
{
    let key = Key::named(key.as_str()?)?;
    let text = value.as_str()?;
    Some(scope_given(key, text))
}

/// The scope of both a key and a value, or of neither; within it none where the value is no name.
fn scope_of(key: Option<&Value>, value: Option<&Value>) -> Option<Option<Scope>>
    ensures { result ≡ option_map scope_given (scope_of
        (option_map (λ v. view v.now) key.entry) (option_map (λ v. view v.now) value.entry)) }
{
    match (key, value) {
        (None, None) => Some(Some(Scope::All)),
        (Some(key), Some(value)) => scope_where(key, value),
        (Some(_), None) | (None, Some(_)) => None,
    }
}

/// The grant of a table of kinds and a scope.
fn grant_in(table: &Table) -> Option<GivenGrant>
    ensures { result ≡ option_map grant_given (grant_in (table_view table.now)) }
{
    let kinds = kinds_at(table, "kinds")?;
    let scope = scope_of(find(table, "key"), find(table, "value"))?;
    Some(GivenGrant { kinds, scope })
}

/// The grant of a value.
fn grant_of(value: &Value) -> Option<GivenGrant>
    ensures { result ≡ option_map grant_given (grant_of (view value.now)) }
{
    let table = value.as_table()?;
    if !has_only(table, &GRANT_KEYS) {
        return None;
    }
    grant_in(table)
}

/// Puts a grant last.
fn push_last(given: &mut Vec<GivenGrant>, grant: GivenGrant) -> Result<(), AllocError>
    ensures { OnOk result (given.new.items ≡ given.old.items ++ grant ∷ []) }
{
    given.extend_from_slice(&[grant])?;
    Ok(())
}

/// The grants of all values.
fn grants_of(alloc: Global, values: &[Value]) -> Result<Option<Vec<GivenGrant>>, AllocError>
    ensures { IfOk result (λ given. option_map (λ grants. grants.items) given
        ≡ option_map (map grant_given) (all_of grant_of (items_view values.now))) }
{
    let mut given = Vec::new(alloc);
    for value in values {
        let Some(grant) = grant_of(value) else {
            return Ok(None);
        };
        push_last(&mut given, grant)?;
    }
    Ok(Some(given))
}

/// The grants, of which there are none where there is no value.
fn grants_if_any(
    alloc: Global,
    value: Option<&Value>,
) -> Result<Option<Vec<GivenGrant>>, AllocError>
    ensures { IfOk result (λ given. option_map (λ grants. grants.items) given
        ≡ option_map (map grant_given)
        (list_if_any grant_of (option_map (λ v. view v.now) value.entry))) }
{
    let Some(value) = value else {
        return Ok(Some(Vec::new(alloc)));
    };
    match value.as_array() {
        Some(values) => grants_of(alloc, values),
        None => Ok(None),
    }
}

/// The role at the key of a role.
fn role_at(table: &Table) -> Option<Role>
    ensures { result ≡ role_at (table_view table.now) }
{
    role_named(text_at(table, "role")?)
}

/// The actor of a value.
pub(crate) fn actor_of(alloc: Global, value: &Value) -> Result<Option<GivenActor>, AllocError>
    ensures { IfOk result (λ actor. option_map actor_kept actor
        ≡ option_map actor_given (actor_of (view value.now))) }
{
    let Some(table) = value.as_table() else {
        return Ok(None);
    };
    if !has_only(table, &ACTOR_KEYS) {
        return Ok(None);
    }
    let Some(role) = role_at(table) else {
        return Ok(None);
    };
    match grants_if_any(alloc, find(table, "grants"))? {
        Some(grants) => Ok(Some(GivenActor { role, grants })),
        None => Ok(None),
    }
}

/// The protection of a value.
pub(crate) fn protection_of(value: &Value) -> Option<GivenProtection>
    ensures { result ≡ option_map protection_given (protection_of (view value.now)) }
{
    let table = value.as_table()?;
    if !has_only(table, &PROTECTION_KEYS) {
        return None;
    }
    let text = text_at(table, "process")?;
    let kinds = kinds_at(table, "kinds")?;
    Some(GivenProtection {
        process: name_given(text),
        kinds,
    })
}
