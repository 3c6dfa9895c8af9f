//! What may forget, a paragraph for each policy of elections.
ghost use Rattle.std.specs.Prelude.{◌≡◌, ◌++◌, ◌<◌, OnOk, Some, length, slice_get, string_bytes};
ghost use Rattle.fy_policy.specs.Text.{text};
ghost use Rattle.fy_bears.specs.Forgets.{elected_text, elections_text, fewest_text, forgets_text, forgetting_line, forgetting_lines, forgetting_text, is_known, unsafe_text};

use crate::text::pieces::{
    put, put_between, put_borne_number, put_names_end, put_policy, put_policy_head,
};
use fy_cluster::Config;
use fy_locality::Map;
use fy_policy::Policy;
use fy_votes::Forgetting;
use std::alloc::{AllocError, Global};

/// Whether so many are known to be too many.
fn is_known(found: &Forgetting) -> bool
    ensures { result ≡ is_known found.now }
{
    found.is_exact()
}

/// That none may forget for sure, or that it isn't known.
fn put_unsafe(out: &mut String, is_known: bool, many: u32) -> Result<(), AllocError>
    ensures { OnOk result
        (string_bytes out.new ≡ string_bytes out.old ++ unsafe_text is_known many) }
{
    if is_known {
        put(out, "unsafe with none; too many:")
    } else {
        put_between(out, "not known; these ", many as u64, " are too many:")
    }
}

/// How many may forget.
fn put_number(out: &mut String, found: &Forgetting) -> Result<(), AllocError>
    ensures { OnOk result (string_bytes out.new ≡ string_bytes out.old
        ++ fewest_text found.now) }
{
    let many = found.too_many.len();
    let is_known = is_known(found);
    match found.any() {
        Some(any) => put_borne_number(out, is_known, any, many),
        None => put_unsafe(out, is_known, many),
    }
}

/// How many may forget, and a set that may not.
fn put_forgetting(out: &mut String, map: &Map, found: &Forgetting) -> Result<(), AllocError>
    ensures { OnOk result
        (string_bytes out.new ≡ string_bytes out.old ++ forgetting_text map.now found.now) }
{
    put_number(out, found)?;
    put_names_end(out, map, &found.too_many)
}

/// The line of a policy of writes.
fn put_found_line(
    alloc: Global,
    out: &mut String,
    map: &Map,
    i: usize,
    policy: &Policy,
    found: &Forgetting,
) -> Result<(), AllocError>
    ensures { OnOk result (string_bytes out.new ≡ string_bytes out.old
        ++ forgetting_line map.now i (Some policy.now) (Some found.now)) }
{
    put_policy_head(alloc, out, i, policy)?;
    put_forgetting(out, map, found)
}

/// The line of the policy of writes at a place, where something was found of it.
#[tactic(auto, using(std::proofs::lemmas::Option::slice_get_read))]
fn put_line(
    alloc: Global,
    out: &mut String,
    map: &Map,
    policies: &[Policy],
    found: &[Forgetting],
    i: usize,
) -> Result<(), AllocError>
    requires { i < length policies.now }
    ensures { OnOk result (string_bytes out.new ≡ string_bytes out.old
        ++ forgetting_line map.now i (slice_get policies.now i) (slice_get found.now i)) }
{
    if i >= found.len() {
        return Ok(());
    }
    put_found_line(alloc, out, map, i, &policies[i], &found[i])
}

/// A line for each policy of writes.
fn put_lines(
    alloc: Global,
    out: &mut String,
    map: &Map,
    policies: &[Policy],
    found: &[Forgetting],
) -> Result<(), AllocError>
    ensures { OnOk result (string_bytes out.new ≡ string_bytes out.old
        ++ forgetting_lines map.now policies.now found.now) }
{
    for i in 0..policies.len() {
        put_line(alloc, out, map, policies, found, i)?;
    }
    Ok(())
}

/// A line for each policy of writes; or that nobody is ever elected.
fn put_elected(
    alloc: Global,
    out: &mut String,
    map: &Map,
    policies: &[Policy],
    found: &Option<Vec<Forgetting>>,
) -> Result<(), AllocError>
    ensures { OnOk result (string_bytes out.new ≡ string_bytes out.old
        ++ elected_text map.now policies.now found.now) }
{
    match found {
        Some(found) => {
            put(out, ":\n")?;
            put_lines(alloc, out, map, policies, found)
        }
        None => put(out, ": nobody is elected, not even by all processes\n"),
    }
}

/// A policy of elections, and what may forget by it.
fn put_policy_elected(
    alloc: Global,
    out: &mut String,
    map: &Map,
    policies: &[Policy],
    elections: &Policy,
    found: &Option<Vec<Forgetting>>,
) -> Result<(), AllocError>
    ensures { OnOk result (string_bytes out.new ≡ string_bytes out.old
        ++ (text elections.now ++ elected_text map.now policies.now found.now)) }
{
    put_policy(alloc, out, elections)?;
    put_elected(alloc, out, map, policies, found)
}

/// The paragraph of a policy of elections.
fn put_paragraph(
    alloc: Global,
    out: &mut String,
    map: &Map,
    policies: &[Policy],
    elections: &Policy,
    found: &Option<Vec<Forgetting>>,
) -> Result<(), AllocError>
    ensures { OnOk result (string_bytes out.new ≡ string_bytes out.old
        ++ elections_text map.now policies.now (Some elections.now) (Some found.now)) }
{
    put(out, "\nforgetting, elections by ")?;
    put_policy_elected(alloc, out, map, policies, elections, found)
}

/// The paragraph of a policy of elections, of a configuration's cluster.
fn put_found(
    alloc: Global,
    out: &mut String,
    config: &Config,
    elections: &Policy,
    found: &Option<Vec<Forgetting>>,
) -> Result<(), AllocError>
    ensures { OnOk result (string_bytes out.new ≡ string_bytes out.old
        ++ elections_text config.now.processes config.now.policies
        (Some elections.now) (Some found.now)) }
{
    put_paragraph(
        alloc,
        out,
        config.map(),
        config.policies(),
        elections,
        found,
    )
}

/// The paragraph of the policy of elections at a place, where something was found of it.
#[tactic(auto, using(std::proofs::lemmas::Option::slice_get_read))]
fn put_elections(
    alloc: Global,
    out: &mut String,
    config: &Config,
    elections: &[Policy],
    found: &[Option<Vec<Forgetting>>],
    i: usize,
) -> Result<(), AllocError>
    requires { i < length elections.now }
    ensures { OnOk result (string_bytes out.new ≡ string_bytes out.old
        ++ elections_text config.now.processes config.now.policies
        (slice_get elections.now i) (slice_get found.now i)) }
{
    if i >= found.len() {
        return Ok(());
    }
    put_found(alloc, out, config, &elections[i], &found[i])
}

/// A paragraph for each policy of elections.
pub(crate) fn put_forgets(
    alloc: Global,
    out: &mut String,
    config: &Config,
    elections: &[Policy],
    found: &[Option<Vec<Forgetting>>],
) -> Result<(), AllocError>
    ensures { OnOk result (string_bytes out.new ≡ string_bytes out.old
        ++ forgets_text config.now.processes config.now.policies elections.now found.now) }
{
    for i in 0..elections.len() {
        put_elections(alloc, out, config, elections, found, i)?;
    }
    Ok(())
}
