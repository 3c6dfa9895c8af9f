//! Cluster files read from their bytes.
ghost use Rattle.std.specs.Prelude.{◌≡◌, ◌<◌, ◌≤◌, true, nat_le, length, None, Err, IsUtf8};
ghost use Rattle.toml.specs.View.{table_view};
ghost use Rattle.fy_cluster.specs.Setup.{setup_of, is_in_range};
ghost use Rattle.fy_config.specs.Config.{Fields, Answers, DocumentIs, UnlessOom};
ghost use Rattle.fy_config.specs.Kept.{HoldsFields, are_actors_within, first_given_outside, grant_count};
ghost use Rattle.fy_config.specs.Named.{AreNumbered, IsMade};
ghost use Rattle.fy_config.specs.declared.limits.TheConstants.{MOST_FILE_BYTES};
ghost use Rattle.fy_config.specs.declared.fault.ConfigFault.TheVariants.{TooLong, Toml};

use crate::fields::{GivenFields, fields_of};
use crate::given::GivenActor;
use crate::limits::{MOST_FILE_BYTES, MOST_PROTECTIONS};
use crate::names::{grants_of, map_of, policies_of, protections_of, roles_of};
use crate::{ConfigFault, Part};
use fy_cluster::{Config, MOST_ACTORS, MakeFault, Protection, Role};
use fy_grants::{Grant, MOST_GRANTS};
use fy_locality::{MOST_PROCESSES, Map};
use fy_policy::{MOST_POLICIES, Policy};
use std::alloc::Global;
use toml::Table;

/// Whether the actors have at most so many grants in all.
fn have_at_most(actors: &[GivenActor], most: usize) -> bool
    ensures { result ≡ nat_le (grant_count actors.now) most }
{
    let mut left = most;
    for actor in actors {
        if actor.grants.len() > left {
            return false;
        }
        left -= actor.grants.len();
    }
    true
}

/// Whether there are as many actors as there may be, with as many grants in all.
fn are_actors_within(actors: &[GivenActor]) -> bool
    ensures { result ≡ are_actors_within actors.now }
{
    (1..=MOST_ACTORS).contains(&actors.len()) && have_at_most(actors, MOST_GRANTS)
}

/// The first part with a number or a length outside its range.
fn first_outside(fields: &GivenFields) -> Option<Part>
    ensures { result ≡ first_given_outside fields.now }
{
    if fields.journal_limit.is_none() {
        return Some(Part::JournalLimit);
    }
    if !(1..=MOST_POLICIES).contains(&fields.policies.len()) {
        return Some(Part::Policies);
    }
    if !(1..=MOST_PROCESSES as usize).contains(&fields.processes.len()) {
        return Some(Part::Process);
    }
    if !are_actors_within(&fields.actors) {
        return Some(Part::Actor);
    }
    if fields.protections.len() > MOST_PROTECTIONS {
        return Some(Part::Protect);
    }
    None
}

/// The parts of a file that name something, by the numbers of what they name.
#[derive(Drop)]
struct Numbered {
    map: Map,
    roles: Vec<Role>,
    grants: Vec<Grant>,
    protections: Vec<Protection>,
}

/// The parts of a file by the numbers of what they name.
///
/// # Errors
///
/// `Name` at the first bad name; `NoMemory`.
fn number_parts(alloc: Global, fields: &GivenFields) -> Result<Numbered, ConfigFault>
    requires inside { first_given_outside fields.now ≡ None }
    requires spelt { (f : Fields) × HoldsFields fields.now f }
    ensures { (f : Fields) → HoldsFields fields.now f → UnlessOom (AreNumbered f) result }
{
    let map = map_of(alloc, &fields.processes)?;
    let roles = roles_of(alloc, &fields.actors)?;
    let grants = grants_of(alloc, &fields.actors)?;
    let protections = protections_of(alloc, &fields.protections, &map)?;
    Ok(Numbered {
        map,
        roles,
        grants,
        protections,
    })
}

/// The configuration of parts that are in their ranges.
///
/// # Errors
///
/// `PolicyUnmet` for the first policy that all processes together don't satisfy.
fn config_made(
    map: Map,
    policies: Vec<Policy>,
    roles: Vec<Role>,
    grants: Vec<Grant>,
    protections: Vec<Protection>,
    limit: u32,
) -> Result<Config, ConfigFault>
    requires { is_in_range (setup_of map policies.items roles.items grants.items protections.items
        limit) ≡ true }
    ensures { IsMade (setup_of map policies.items roles.items grants.items protections.items limit)
        result }
{
    match Config::make(map, policies, roles, grants, protections, limit) {
        Ok(config) => Ok(config),
        Err(MakeFault::PolicyUnmet { index }) => Err(ConfigFault::PolicyUnmet { index }),
        Err(MakeFault::Limit) => unreachable!(),
    }
}

/// The configuration of a document.
fn config_of(alloc: Global, table: &Table) -> Result<Config, ConfigFault>
    ensures { UnlessOom (DocumentIs (table_view table.now)) result }
{
    let fields = fields_of(alloc, table)?;
    if let Some(part) = first_outside(&fields) {
        return Err(ConfigFault::Limit { part });
    }
    let Numbered {
        map,
        roles,
        grants,
        protections,
    } = number_parts(alloc, &fields)?;
    let policies = policies_of(alloc, &fields.policies)?;
    let Some(limit) = fields.journal_limit else {
        unreachable!();
    };
    config_made(map, policies, roles, grants, protections, limit)
}

/// What a cluster file begins a cluster with.
///
/// # Errors
///
/// The first that holds, in this order; of one kind the first part, and of one part the least
/// place:
/// - `TooLong` over 1,048,576 bytes;
/// - `Toml` for bytes that are no TOML document in UTF-8;
/// - `Field` where a key is missing or unknown, a value of another type, or a word none of those
///   that may stand there;
/// - `Limit` where a number or length is outside its range;
/// - `Name` where a text is no name, is the name of an earlier process, or protects a process that
///   isn't there or was named before;
/// - `Policy` for a text that is no policy;
/// - `PolicyUnmet` for a policy that all processes together don't satisfy.
///
/// `NoMemory` can take the place of any answer but `TooLong`, and `Toml` for bytes that aren't
/// UTF-8.
pub fn read_config(alloc: Global, bytes: &[u8]) -> Result<Config, ConfigFault>
    ensures answers { Answers bytes.now result }
    ensures too_long { MOST_FILE_BYTES < length bytes.now → result ≡ Err TooLong }
    ensures not_text { length bytes.now ≤ MOST_FILE_BYTES → (IsUtf8 bytes.now → ⊥)
        → result ≡ Err Toml }
{
    if bytes.len() > MOST_FILE_BYTES {
        return Err(ConfigFault::TooLong);
    }
    let Ok(text) = str::from_utf8(bytes) else {
        return Err(ConfigFault::Toml);
    };
    match toml::table_from_str(alloc, text) {
        Ok(table) => config_of(alloc, &table),
        Err(error) => Err(if error.is_memory() {
            ConfigFault::NoMemory
        } else {
            ConfigFault::Toml
        }),
    }
}
