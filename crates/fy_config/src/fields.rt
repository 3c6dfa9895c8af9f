//! The parts of a cluster file, where their keys and types are right.
ghost use Rattle.std.specs.Prelude.{◌≡◌, map, option_map, option_and_then, codes, IfOk, OnOk, [], ◌∷◌, ◌++◌};
ghost use Rattle.std.specs.Option.{option_copied};
ghost use Rattle.toml.specs.Data.{as_array, as_str, get_member};
ghost use Rattle.fy_config.specs.Config.{array_at, limit_given, fields_of};
ghost use Rattle.fy_config.specs.Kept.{FieldsOrOom};
ghost use Rattle.toml.specs.View.{view, table_view, items_view};
ghost use Rattle.fy_config.specs.Given.{process_given, actor_given, actor_kept, protection_given};
ghost use Rattle.fy_config.specs.Tables.{integer_at, list_if_any, all_of, process_of, actor_of, protection_of};

use crate::given::{GivenActor, GivenProtection};
use crate::tables::{actor_of, find, has_only, integer_at, process_of, protection_of};
use crate::{ConfigFault, Part};
use fy_cluster::MOST_JOURNAL_ENTRIES;
use fy_locality::Locality;
use std::alloc::{AllocError, Global};
use toml::{Table, Value};

/// The keys at the top of a file.
const TOP_KEYS: [&str; 5] = ["journal_limit", "policies", "process", "actor", "protect"];

/// What the parts of a file spell, before any limit; none for a limit out of range and for what is
/// no name.
#[derive(Drop)]
pub(crate) struct GivenFields<'t> {
    pub(crate) journal_limit: Option<u32>,
    pub(crate) policies: Vec<&'t str>,
    pub(crate) processes: Vec<Option<Locality>>,
    pub(crate) actors: Vec<GivenActor>,
    pub(crate) protections: Vec<GivenProtection>,
}

/// The text of a value.
fn text_of(value: &Value) -> Option<&str>
    ensures { option_copied result ≡ as_str (view value.now) }
{
    value.as_str()
}

/// The texts of all values.
fn texts_of(alloc: Global, values: &[Value]) -> Result<Option<Vec<&str>>, AllocError>
    ensures { IfOk result (λ given. option_map (λ texts. map (λ text. text.now) texts.items) given
        ≡ all_of as_str (items_view values.now)) }
{
    let mut texts = Vec::new(alloc);
    for value in values {
        let Some(text) = text_of(value) else {
            return Ok(None);
        };
        texts.push(text)?;
    }
    Ok(Some(texts))
}

/// Puts a process last.
fn push_process(
    processes: &mut Vec<Option<Locality>>,
    process: Option<Locality>,
) -> Result<(), AllocError>
    ensures { OnOk result (processes.new.items ≡ processes.old.items ++ process ∷ []) }
{
    processes.extend_from_slice(&[process])?;
    Ok(())
}

/// The processes of all values.
fn processes_of(
    alloc: Global,
    values: &[Value],
) -> Result<Option<Vec<Option<Locality>>>, AllocError>
    ensures { IfOk result (λ given. option_map (λ processes. processes.items) given
        ≡ option_map (map process_given) (all_of process_of (items_view values.now))) }
{
    let mut processes = Vec::new(alloc);
    for value in values {
        let Some(process) = process_of(value) else {
            return Ok(None);
        };
        push_process(&mut processes, process)?;
    }
    Ok(Some(processes))
}

/// The actors of all values.
fn actors_of(alloc: Global, values: &[Value]) -> Result<Option<Vec<GivenActor>>, AllocError>
    ensures { IfOk result (λ given. option_map (λ actors. map actor_kept actors.items) given
        ≡ option_map (map actor_given) (all_of actor_of (items_view values.now))) }
{
    let mut actors = Vec::new(alloc);
    for value in values {
        let Some(actor) = actor_of(alloc, value)? else {
            return Ok(None);
        };
        actors.push(actor)?;
    }
    Ok(Some(actors))
}

/// Puts a protection last.
fn push_protection(
    protections: &mut Vec<GivenProtection>,
    protection: GivenProtection,
) -> Result<(), AllocError>
    ensures { OnOk result (protections.new.items ≡ protections.old.items ++ protection ∷ []) }
{
    protections.extend_from_slice(&[protection])?;
    Ok(())
}

/// The protections of all values.
fn protections_of(
    alloc: Global,
    values: &[Value],
) -> Result<Option<Vec<GivenProtection>>, AllocError>
    ensures { IfOk result (λ given. option_map (λ protections. protections.items) given
        ≡ option_map (map protection_given) (all_of protection_of (items_view values.now))) }
{
    let mut protections = Vec::new(alloc);
    for value in values {
        let Some(protection) = protection_of(value) else {
            return Ok(None);
        };
        push_protection(&mut protections, protection)?;
    }
    Ok(Some(protections))
}

/// The array at a key of the file.
fn array_at<'t>(table: &'t Table, key: &str) -> Option<&'t [Value]>
    ensures { option_map (λ values. items_view values.now) result
        ≡ option_and_then as_array (get_member key.now (table_view table.now)) }
{
    match find(table, key)?.as_array() {
        Some(values) => Some(values.as_slice()),
        None => None,
    }
}

/// The texts of the policies of a file.
fn policies_at<'t>(alloc: Global, table: &'t Table) -> Result<Option<Vec<&'t str>>, AllocError>
    ensures { IfOk result (λ given. option_map (λ texts. map (λ text. text.now) texts.items) given
        ≡ array_at as_str (codes "policies") (table_view table.now)) }
{
    match array_at(table, "policies") {
        Some(values) => texts_of(alloc, values),
        None => Ok(None),
    }
}

/// The processes of a file.
fn processes_at(alloc: Global, table: &Table) -> Result<Option<Vec<Option<Locality>>>, AllocError>
    ensures { IfOk result (λ given. option_map (λ processes. processes.items) given
        ≡ option_map (map process_given)
        (array_at process_of (codes "process") (table_view table.now))) }
{
    match array_at(table, "process") {
        Some(values) => processes_of(alloc, values),
        None => Ok(None),
    }
}

/// The actors of a file.
fn actors_at(alloc: Global, table: &Table) -> Result<Option<Vec<GivenActor>>, AllocError>
    ensures { IfOk result (λ given. option_map (λ actors. map actor_kept actors.items) given
        ≡ option_map (map actor_given)
        (array_at actor_of (codes "actor") (table_view table.now))) }
{
    match array_at(table, "actor") {
        Some(values) => actors_of(alloc, values),
        None => Ok(None),
    }
}

/// The protections of a file, of which there are none where it has no such part.
fn protections_at(alloc: Global, table: &Table) -> Result<Option<Vec<GivenProtection>>, AllocError>
    ensures { IfOk result (λ given. option_map (λ protections. protections.items) given
        ≡ option_map (map protection_given)
        (list_if_any protection_of (get_member (codes "protect") (table_view table.now)))) }
{
    let Some(value) = find(table, "protect") else {
        return Ok(Some(Vec::new(alloc)));
    };
    match value.as_array() {
        Some(values) => protections_of(alloc, values),
        None => Ok(None),
    }
}

/// A whole number from 1 to the most entries of a journal; none for another number.
fn limit_given(number: i64) -> Option<u32>
    ensures { result ≡ limit_given number }
{
    if number < 1 || number > i64::from(MOST_JOURNAL_ENTRIES) {
        return None;
    }
    Some(number as u32)
}

/// The journal limit of a file; within it none for a number out of range.
fn journal_limit_at(table: &Table) -> Option<Option<u32>>
    ensures { result
        ≡ option_map limit_given (integer_at (codes "journal_limit") (table_view table.now)) }
{
    let number = integer_at(table, "journal_limit")?;
    Some(limit_given(number))
}

/// What the parts of a file spell.
///
/// # Errors
///
/// `Field` with the first part at fault, in the order of parts; `NoMemory`.
pub(crate) fn fields_of<'t>(alloc: Global, table: &'t Table) -> Result<GivenFields<'t>, ConfigFault>
    ensures { FieldsOrOom result (fields_of (table_view table.now)) }
{
    let Some(journal_limit) = journal_limit_at(table) else {
        return Err(ConfigFault::Field {
            part: Part::JournalLimit,
        });
    };
    let Some(policies) = policies_at(alloc, table)? else {
        return Err(ConfigFault::Field {
            part: Part::Policies,
        });
    };
    let Some(processes) = processes_at(alloc, table)? else {
        return Err(ConfigFault::Field {
            part: Part::Process,
        });
    };
    let Some(actors) = actors_at(alloc, table)? else {
        return Err(ConfigFault::Field { part: Part::Actor });
    };
    let Some(protections) = protections_at(alloc, table)? else {
        return Err(ConfigFault::Field {
            part: Part::Protect,
        });
    };
    if !has_only(table, &TOP_KEYS) {
        return Err(ConfigFault::Field {
            part: Part::Unknown,
        });
    }
    Ok(GivenFields {
        journal_limit,
        policies,
        processes,
        actors,
        protections,
    })
}
