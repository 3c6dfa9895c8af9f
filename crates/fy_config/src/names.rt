//! What the texts of a cluster file name: processes, grants, protections and policies.
ghost use Rattle.std.specs.Prelude.{◌≡◌, ◌<◌, ◌≤◌, List, ℕ, map as map_list, length, IsTrue, IfOk, IfSome, OnOk, MatchOption, MatchResult, Some, None, Ok, not, [], ◌∷◌, ◌++◌, option_map, option_and_then};
ghost use Rattle.std.specs.List.{filter_map, flat_map, enumerate_from, position};
ghost use Rattle.fy_cluster.specs.declared.config.TheConstants.{MOST_ACTORS};
ghost use Rattle.fy_cluster.specs.declared.role.Role.{Role};
ghost use Rattle.fy_grants.specs.declared.grant.Scope.{Scope};
ghost use Rattle.fy_kinds.specs.Members.{Members};
ghost use Rattle.fy_locality.specs.declared.TheConstants.{MOST_PROCESSES};
ghost use Rattle.fy_locality.specs.declared.locality.Locality.{Locality};
ghost use Rattle.fy_policy.specs.Reading.{Reads};
ghost use Rattle.fy_config.specs.declared.fault.Part.TheVariants.{Process, Actor, Protect};
ghost use Rattle.fy_config.specs.Given.{process_given, actor_given, actor_kept, protection_given};
ghost use Rattle.fy_config.specs.Config.{first_index, is_bad_process, is_bad_actor, is_bad_protection, grants_of, index_of, protection_in, AreRead, IsRefused};
ghost use Rattle.fy_config.specs.Named.{NamesAre, is_bad_given, grant_by, have_scopes, IsPolicyFault};

use crate::given::{GivenActor, GivenProtection};
use crate::{ConfigFault, Part};
use fy_cluster::{Protection, Role};
use fy_grants::Grant;
use fy_locality::{Locality, Map, MapFault, Name, ProcId, ProcSet};
use fy_policy::{Policy, PolicyFault, read_policy};
use std::alloc::{AllocError, Global};

/// Puts a process last, and says whether it did: it has to be known, and no process before may have
/// its name.
///
/// # Errors
///
/// An allocation failed.
fn push_process(map: &mut Map, process: Option<Locality>) -> Result<bool, AllocError>
    requires { length map.old < MOST_PROCESSES }
    ensures good { IfOk result (λ pushed. pushed ≡ not (is_bad_given map.old process)) }
    ensures last { IfOk result (λ pushed. IsTrue pushed
        → IfSome process (λ p. map.new ≡ map.old ++ p ∷ [])) }
{
    fy_locality::laws::values_occur();
    let Some(process) = process else {
        return Ok(false);
    };
    match map.push(process) {
        Ok(_) => Ok(true),
        Err(MapFault::Twice) => Ok(false),
        Err(MapFault::NoMemory) => Err(AllocError),
        Err(MapFault::Name | MapFault::TooMany) => unreachable!(),
    }
}

/// The processes by number.
///
/// # Errors
///
/// `Name` at the first whose texts aren't names or that has the name of an earlier one; `NoMemory`.
pub(crate) fn map_of(alloc: Global, given: &[Option<Locality>]) -> Result<Map, ConfigFault>
    requires { length given.now ≤ MOST_PROCESSES }
    ensures { (texts : List Locality) → given.now ≡ map_list process_given texts
        → NamesAre Process (first_index is_bad_process texts) (λ map. map ≡ texts) result }
{
    let mut map = Map::make(alloc);
    for (index, process) in given.iter().enumerate() {
        if !push_process(&mut map, *process)? {
            return Err(ConfigFault::Name {
                part: Part::Process,
                index,
            });
        }
    }
    Ok(map)
}

/// The roles of the actors.
///
/// # Errors
///
/// An allocation failed.
pub(crate) fn roles_of(alloc: Global, actors: &[GivenActor]) -> Result<Vec<Role>, AllocError>
    ensures { IfOk result (λ roles. roles.items ≡ map_list (λ actor. actor.role) actors.now) }
{
    actors.iter().map(|actor| actor.role).collect(alloc)
}

/// Puts a grant last.
fn push_grant(grants: &mut Vec<Grant>, grant: Grant) -> Result<(), AllocError>
    ensures { OnOk result (grants.new.items ≡ grants.old.items ++ grant ∷ []) }
{
    grants.extend_from_slice(&[grant])?;
    Ok(())
}

/// Puts the grants of the actor with this number last, and says whether all their scopes are known:
/// where one isn't, only those before it were put.
///
/// # Errors
///
/// An allocation failed.
fn push_grants(grants: &mut Vec<Grant>, number: u32, actor: &GivenActor) -> Result<bool, AllocError>
    ensures good { IfOk result (λ pushed. pushed ≡ have_scopes actor.now.grants.items) }
    ensures last { IfOk result (λ pushed. IsTrue pushed → grants.new.items
        ≡ grants.old.items ++ filter_map (grant_by number) actor.now.grants.items) }
{
    for given in &actor.grants {
        let Some(scope) = given.scope else {
            return Ok(false);
        };
        let grant = Grant {
            actor: number,
            kinds: given.kinds,
            scope,
        };
        push_grant(grants, grant)?;
    }
    Ok(true)
}

/// The grants of all actors in order.
///
/// # Errors
///
/// `Name` at the first actor with a value that is no name; `NoMemory`.
pub(crate) fn grants_of(alloc: Global, actors: &[GivenActor]) -> Result<Vec<Grant>, ConfigFault>
    requires { length actors.now ≤ MOST_ACTORS }
    ensures { (spelt : List (Role × List (Members × Scope)))
        → map_list actor_kept actors.now ≡ map_list actor_given spelt
        → NamesAre Actor (position is_bad_actor spelt)
        (λ grants. grants.items ≡ flat_map grants_of (enumerate_from 0 spelt)) result }
{
    let mut grants = Vec::new(alloc);
    for (index, actor) in actors.iter().enumerate() {
        if !push_grants(&mut grants, index as u32, actor)? {
            return Err(ConfigFault::Name {
                part: Part::Actor,
                index,
            });
        }
    }
    Ok(grants)
}

/// The process with a name, where the name is known.
fn process_named(map: &Map, name: Option<Name>) -> Option<ProcId>
    ensures place { option_map (λ p. p.0) result ≡ option_and_then (index_of map.now) name }
    ensures small { IfSome result (λ p. p.0 < MOST_PROCESSES) }
{
    map.names_differ();
    // A map has no more processes than a set has room for.
    let _count = map.len();
    let name = name?;
    map.find(&name)
}

/// Puts a protection last.
fn push_protection(
    protections: &mut Vec<Protection>,
    protection: Protection,
) -> Result<(), AllocError>
    ensures { OnOk result (protections.new.items ≡ protections.old.items ++ protection ∷ []) }
{
    protections.extend_from_slice(&[protection])?;
    Ok(())
}

/// The protections by the numbers of their processes.
///
/// # Errors
///
/// `Name` at the first whose process isn't there or was named before; `NoMemory`.
pub(crate) fn protections_of(
    alloc: Global,
    given: &[GivenProtection],
    map: &Map,
) -> Result<Vec<Protection>, ConfigFault>
    requires { first_index is_bad_process map.now ≡ None }
    ensures { (texts : List (List ℕ × Members)) → given.now ≡ map_list protection_given texts
        → NamesAre Protect (first_index (is_bad_protection map.now) texts)
        (λ protections. protections.items ≡ map_list (protection_in map.now) texts) result }
{
    map.names_differ();
    let mut protections = Vec::new(alloc);
    let mut named = ProcSet::empty();
    for (index, protection) in given.iter().enumerate() {
        let fault = ConfigFault::Name {
            part: Part::Protect,
            index,
        };
        let Some(process) = process_named(map, protection.process) else {
            return Err(fault);
        };
        if named.contains(process) {
            return Err(fault);
        }
        named.put(process);
        let kinds = protection.kinds;
        push_protection(&mut protections, Protection { process, kinds })?;
    }
    Ok(protections)
}

/// The policy of a text, where it is of one.
///
/// # Errors
///
/// An allocation failed.
fn policy_of(alloc: Global, text: &str) -> Result<Option<Policy>, AllocError>
    ensures { IfOk result (λ found. MatchOption found (IsRefused text.now)
        (λ policy. Reads text.now (Ok policy))) }
{
    fy_policy::text_laws::reading_is_settled();
    match read_policy(alloc, text) {
        Ok(policy) => Ok(Some(policy)),
        Err(PolicyFault::NoMemory) => Err(AllocError),
        Err(_) => Ok(None),
    }
}

/// The policies that texts spell.
///
/// # Errors
///
/// `Policy` at the first text that is of none; `NoMemory`.
pub(crate) fn policies_of(alloc: Global, texts: &[&str]) -> Result<Vec<Policy>, ConfigFault>
    ensures { let spelt = map_list (λ text. text.now) texts.now in
        MatchResult result (λ policies. AreRead spelt policies.items) (IsPolicyFault spelt) }
{
    let mut policies = Vec::new(alloc);
    for (index, text) in texts.iter().enumerate() {
        let Some(policy) = policy_of(alloc, text)? else {
            return Err(ConfigFault::Policy { index });
        };
        policies.push(policy)?;
    }
    Ok(policies)
}
