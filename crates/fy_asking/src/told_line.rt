//! What is told, as one line.
ghost use Rattle.std.specs.Prelude.{◌≡◌, ◌<◌, ◌++◌, ◌∷◌, ℕ, List, [], IfOk, IfSome, OnOk, Option, codes, decimal, false, length, option_map, slice_get};
ghost use Rattle.fy_lines.specs.Lines.{IsLine};
ghost use Rattle.fy_policy.specs.Text.{text};
ghost use Rattle.fy_asking.specs.ToldPieces.{counted_text, listed_text, quoted_text};
ghost use Rattle.fy_asking.specs.ToldTexts.{IsToldLine, Spells, actor_text, cluster_front_text, cluster_text, grant_text, grants_text, hardest_text, missing_refusal, needed_text, one_state_text, policies_text, process_text, record_text, refusal_text, role_word, scope_text, sight_text, state_text, states_text, status_text};

use crate::writing::kinds::put_kinds;
use crate::writing::replies::{put_refusal, put_reply};
use crate::writing::{
    put, put_between, put_comma, put_decimal, put_members, put_number, put_optional,
    put_optional_name, put_quoted, put_truth, put_word,
};
use fy_acts::Refusal;
use fy_cluster::{Config, Role, Sight};
use fy_grants::{Grant, Scope};
use fy_kinds::Kind;
use fy_lines::split_at_newline;
use fy_locality::{Key, Map, ProcId};
use fy_policy::{Policy, policy_text};
use fy_questions::{Bearing, ClusterNow, Missing, ProcessState, RecordState, Told};
use fy_tolerance::{Form, write_findings};
use std::alloc::{AllocError, Global};

/// Writes what isn't there, as the refusal of an act that names it.
fn put_missing(out: &mut Vec<u8>, missing: Missing) -> Result<(), AllocError>
    ensures { OnOk result
        (out.new.items ≡ out.old.items ++ refusal_text (missing_refusal missing)) }
{
    match missing {
        Missing::Actor => put_refusal(out, Refusal::NoActor),
        Missing::Process => put_refusal(out, Refusal::NoProcess),
        Missing::Record => put_refusal(out, Refusal::NoRecord),
    }
}

/// Writes the hardest kind of a process, or `null` for none.
fn put_hardest(out: &mut Vec<u8>, kind: Option<Kind>) -> Result<(), AllocError>
    ensures { OnOk result (out.new.items ≡ out.old.items ++ hardest_text kind) }
{
    match kind {
        Some(kind) => {
            put_word(out, "\"", kind.text())?;
            put(out, "\"")
        }
        None => put(out, "null"),
    }
}

/// Writes the hardest kind of each process, with commas between.
fn put_killable(out: &mut Vec<u8>, kinds: &[Option<Kind>]) -> Result<(), AllocError>
    ensures { OnOk result
        (out.new.items ≡ out.old.items ++ listed_text hardest_text false kinds.now) }
{
    let mut later = false;
    for kind in kinds {
        put_comma(out, later)?;
        put_hardest(out, *kind)?;
        later = true;
    }
    Ok(())
}

/// Writes the front of the state of a process: until when it is clogged, and what became of it.
fn put_status(out: &mut Vec<u8>, state: &ProcessState) -> Result<(), AllocError>
    ensures { OnOk result (out.new.items ≡ out.old.items ++ status_text state.now) }
{
    let status = state.status;
    put_optional(out, "{\"clogged\":", state.clogged_until)?;
    put_truth(out, ",\"destroyed\":", status.destroyed)?;
    put_truth(out, ",\"down\":", !status.up && !status.gone)?;
    put_truth(out, ",\"gone\":", status.gone)
}

/// Writes the state of a process.
fn put_state(out: &mut Vec<u8>, state: &ProcessState) -> Result<(), AllocError>
    ensures { OnOk result (out.new.items ≡ out.old.items ++ state_text state.now) }
{
    put_status(out, state)?;
    put(out, ",\"protected\":[")?;
    put_kinds(out, state.protected)?;
    put_truth(out, "],\"up\":", state.status.up)?;
    put(out, "}")
}

/// Writes the states of processes, with commas between.
fn put_states(out: &mut Vec<u8>, states: &[ProcessState]) -> Result<(), AllocError>
    ensures { OnOk result
        (out.new.items ≡ out.old.items ++ listed_text state_text false states.now) }
{
    let mut later = false;
    for state in states {
        put_comma(out, later)?;
        put_state(out, state)?;
        later = true;
    }
    Ok(())
}

/// Writes the scope of a grant.
fn put_scope(out: &mut Vec<u8>, scope: &Scope) -> Result<(), AllocError>
    ensures { OnOk result (out.new.items ≡ out.old.items ++ scope_text scope.now) }
{
    match scope {
        Scope::All => put(out, "\"all\""),
        Scope::Where(target) => {
            put_word(out, "{\"key\":\"", target.key.text())?;
            put_quoted(out, "\",\"value\":", target.value.as_bytes())?;
            put(out, "}")
        }
    }
}

/// Writes a grant.
fn put_grant(out: &mut Vec<u8>, grant: &Grant) -> Result<(), AllocError>
    ensures { OnOk result (out.new.items ≡ out.old.items ++ grant_text grant.now) }
{
    put(out, "{\"kinds\":[")?;
    put_kinds(out, grant.kinds)?;
    put(out, "],\"scope\":")?;
    put_scope(out, &grant.scope)?;
    put(out, "}")
}

/// Writes grants, with commas between.
fn put_grants(out: &mut Vec<u8>, grants: &[Grant]) -> Result<(), AllocError>
    ensures { OnOk result
        (out.new.items ≡ out.old.items ++ listed_text grant_text false grants.now) }
{
    let mut later = false;
    for grant in grants {
        put_comma(out, later)?;
        put_grant(out, grant)?;
        later = true;
    }
    Ok(())
}

/// The word of a role, as cluster files have it.
fn role_word(role: Option<Role>) -> &'static str
    ensures { result.now ≡ role_word role }
{
    match role {
        Some(Role::Storage) => "storage",
        Some(Role::Operator) => "operator",
        Some(Role::Fault) => "fault",
        None => "fault",
    }
}

/// Writes the grants of an actor, where it is there.
fn put_own(out: &mut Vec<u8>, cluster: &ClusterNow<'_>, actor: u32) -> Result<(), AllocError>
    ensures { OnOk result (out.new.items ≡ out.old.items ++ grants_text
        (option_map (λ own. own.now) (slice_get cluster.now.grants.items actor))) }
{
    match cluster.grants.get(actor as usize) {
        Some(own) => put_grants(out, own),
        None => Ok(()),
    }
}

/// Writes an actor: its grants, and its role.
fn put_actor(out: &mut Vec<u8>, cluster: &ClusterNow<'_>, actor: u32) -> Result<(), AllocError>
    ensures { OnOk result (out.new.items ≡ out.old.items
        ++ actor_text cluster.now.config.now
        (option_map (λ own. own.now) (slice_get cluster.now.grants.items actor)) actor) }
{
    put(out, "{\"grants\":[")?;
    put_own(out, cluster, actor)?;
    put_word(out, "],\"role\":\"", role_word(cluster.config.role(actor)))?;
    put(out, "\"}")
}

/// Writes each actor, with commas between.
fn put_actors(out: &mut Vec<u8>, cluster: &ClusterNow<'_>) -> Result<(), AllocError>
    ensures { OnOk result (out.new.items ≡ out.old.items ++ counted_text
        (λ actor. actor_text cluster.now.config.now
        (option_map (λ own. own.now) (slice_get cluster.now.grants.items actor)) actor)
        (length cluster.now.config.now.roles)) }
{
    for actor in 0..cluster.config.actors() {
        put_comma(out, actor > 0)?;
        put_actor(out, cluster, actor)?;
    }
    Ok(())
}

/// Writes the text of a policy.
fn put_policy(alloc: Global, out: &mut Vec<u8>, policy: &Policy) -> Result<(), AllocError>
    ensures { OnOk result
        (out.new.items ≡ out.old.items ++ quoted_text [] (text policy.now)) }
{
    let words = policy_text(alloc, policy)?;
    put_quoted(out, "", words.as_bytes())
}

/// Writes the texts of policies, with commas between.
fn put_policies(alloc: Global, out: &mut Vec<u8>, policies: &[Policy]) -> Result<(), AllocError>
    ensures { OnOk result (out.new.items ≡ out.old.items
        ++ policies_text policies.now) }
{
    let mut later = false;
    for policy in policies {
        put_comma(out, later)?;
        put_policy(alloc, out, policy)?;
        later = true;
    }
    Ok(())
}

/// Writes a process with all its places.
fn put_process(out: &mut Vec<u8>, map: &Map, p: ProcId) -> Result<(), AllocError>
    requires { p.0 < length map.now }
    ensures { OnOk result (out.new.items ≡ out.old.items ++ process_text map.now p.0) }
{
    put_optional_name(out, "{\"data_hall\":", map.value(p, Key::DataHall))?;
    put_optional_name(out, ",\"dcid\":", map.value(p, Key::DataCenter))?;
    put_optional_name(out, ",\"machineid\":", map.value(p, Key::Machine))?;
    put_optional_name(out, ",\"processid\":", map.value(p, Key::Process))?;
    put_optional_name(out, ",\"zoneid\":", map.value(p, Key::Zone))?;
    put(out, "}")
}

/// Writes each process, with commas between.
fn put_processes(out: &mut Vec<u8>, config: &Config) -> Result<(), AllocError>
    ensures { OnOk result (out.new.items ≡ out.old.items
        ++ counted_text (process_text config.now.processes) (length config.now.processes)) }
{
    let map = config.map();
    for p in 0..map.len() {
        put_comma(out, p > 0)?;
        put_process(out, map, ProcId(p))?;
    }
    Ok(())
}

/// Writes what the cluster consists of, as far as its limits.
fn put_cluster_front(out: &mut Vec<u8>, cluster: &ClusterNow<'_>) -> Result<(), AllocError>
    ensures { OnOk result
        (out.new.items ≡ out.old.items ++ cluster_front_text cluster.now) }
{
    put(out, "{\"cluster\":{\"actor\":[")?;
    put_actors(out, cluster)?;
    put_number(out, "],\"entries\":", cluster.entries as u64)?;
    put_number(
        out,
        ",\"journal_limit\":",
        cluster.config.journal_limit() as u64,
    )
}

/// Writes what the cluster consists of.
fn put_cluster(alloc: Global, out: &mut Vec<u8>, cluster: &ClusterNow<'_>) -> Result<(), AllocError>
    ensures { OnOk result (out.new.items ≡ out.old.items ++ cluster_text cluster.now) }
{
    put_cluster_front(out, cluster)?;
    put(out, ",\"policies\":[")?;
    put_policies(alloc, out, cluster.config.policies())?;
    put(out, "],\"process\":[")?;
    put_processes(out, cluster.config)?;
    put(out, "]}}")
}

/// The number of a process, where there is one.
fn number_of(process: Option<ProcId>) -> Option<u64>
    ensures { result ≡ option_map (λ p. p.0) process }
{
    match process {
        Some(p) => Some(p.0 as u64),
        None => None,
    }
}

/// Writes what has become of a record, in a cluster of so many processes.
fn put_record(out: &mut Vec<u8>, state: &RecordState, count: u32) -> Result<(), AllocError>
    ensures { OnOk result (out.new.items ≡ out.old.items ++ record_text count state.now) }
{
    put_truth(out, "{\"record\":{\"acked\":", state.acked)?;
    put_optional(out, ",\"keeper\":", number_of(state.keeper))?;
    put(out, ",\"synced\":[")?;
    put_members(out, &state.synced, count)?;
    put_between(out, "],\"team\":", state.team as u64, "}}")
}

/// Writes the time, and what there is to do next.
fn put_sight(out: &mut Vec<u8>, sight: Sight) -> Result<(), AllocError>
    ensures { OnOk result (out.new.items ≡ out.old.items ++ sight_text sight) }
{
    put_optional(out, "{\"sight\":{\"deliverable\":", sight.deliverable)?;
    put_number(out, ",\"now\":", sight.now)?;
    put_optional(out, ",\"sleeping\":", number_of(sight.sleeping))?;
    put_optional(out, ",\"unsynced\":", number_of(sight.unsynced))?;
    put(out, "}}")
}

/// The first line of a text, without its line feed.
fn first_line(text: &[u8]) -> &[u8] {
    match split_at_newline(text) {
        Some((line, _)) => line,
        None => text,
    }
}

/// Writes what may still be lost, as `bears --json` does, without the line feed at its end.
fn put_bearing(
    alloc: Global,
    out: &mut Vec<u8>,
    config: &Config,
    bearing: &Bearing,
) -> Result<(), AllocError>
    ensures { OnOk result ((found : List ℕ)
        × (out.new.items ≡ out.old.items ++ (codes "{\"bears\":" ++ (found ++ codes "}")))) }
{
    let (map, policies) = (config.map(), config.policies());
    let before = Some(&bearing.before);
    let text = write_findings(alloc, map, policies, before, &bearing.findings, Form::Json)?;
    put(out, "{\"bears\":")?;
    out.extend_from_slice(first_line(text.as_bytes()))?;
    put(out, "}")
}

/// Writes the state of one process, and the time.
fn put_one_state(out: &mut Vec<u8>, now: u64, state: &ProcessState) -> Result<(), AllocError>
    ensures { OnOk result (out.new.items ≡ out.old.items ++ one_state_text now state.now) }
{
    put_number(out, "{\"state\":{\"now\":", now)?;
    put(out, ",\"process\":")?;
    put_state(out, state)?;
    put(out, "}}")
}

/// Writes the states of all processes, and the time.
fn put_all(out: &mut Vec<u8>, now: u64, states: &[ProcessState]) -> Result<(), AllocError>
    ensures { OnOk result (out.new.items ≡ out.old.items ++ states_text now states.now) }
{
    put_number(out, "{\"state\":{\"now\":", now)?;
    put(out, ",\"processes\":[")?;
    put_states(out, states)?;
    put(out, "]}}")
}

/// Writes what is told, without what stands around it.
fn put_told(
    alloc: Global,
    out: &mut Vec<u8>,
    config: &Config,
    told: &Told<'_>,
) -> Result<(), AllocError>
    ensures { OnOk result ((more : List ℕ) × Spells config.now told.now more
        × (out.new.items ≡ out.old.items ++ more)) }
{
    let count = config.map().len();
    match told {
        Told::No(missing) => put_missing(out, *missing),
        Told::Judged { reply } => put_reply(out, reply),
        Told::Killable { kinds } => {
            put(out, "{\"killable\":[")?;
            put_killable(out, kinds)?;
            put(out, "]}")
        }
        Told::States { now, states } => put_all(out, *now, states),
        Told::State { now, state } => put_one_state(out, *now, state),
        Told::Cluster(cluster) => put_cluster(alloc, out, cluster),
        Told::Targets { processes } => {
            put(out, "{\"targets\":[")?;
            put_members(out, processes, count)?;
            put(out, "]}")
        }
        Told::Record(state) => put_record(out, state, count),
        Told::Needed { rec } => put_needed(out, *rec),
        Told::Sight(sight) => put_sight(out, *sight),
        Told::Bears(bearing) => put_bearing(alloc, out, config, bearing),
    }
}

/// Writes the record that a process needs, or `null` for none.
fn put_needed(out: &mut Vec<u8>, rec: Option<u32>) -> Result<(), AllocError>
    ensures { OnOk result (out.new.items ≡ out.old.items ++ needed_text rec) }
{
    match rec {
        Some(rec) => put_between(out, "{\"needed\":", rec as u64, "}"),
        None => put(out, "{\"needed\":null}"),
    }
}

/// Puts the line of what is told, with its line feed, into a buffer, in place of what that has.
///
/// # Errors
///
/// `AllocError` where an allocation fails.
pub fn push_told_line(
    alloc: Global,
    config: &Config,
    told: &Told<'_>,
    out: &mut Vec<u8>,
) -> Result<(), AllocError>
    ensures { OnOk result ((line : List ℕ) × IsToldLine config.now told.now line × IsLine line
        × (out.new.items ≡ line ++ 10 ∷ [])) }
{
    out.clear();
    put(out, "{\"told\":")?;
    put_told(alloc, out, config, told)?;
    put(out, "}")?;
    // No text above has a line feed. That this one has none is looked at, and not proved.
    match split_at_newline(out) {
        Some(_) => Err(AllocError),
        None => put(out, "\n"),
    }
}
