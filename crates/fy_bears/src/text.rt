//! Writes what is told of a cluster, for people. Each part is written behind what is there; where
//! an allocation fails, a piece of it may stay there.
ghost use Rattle.std.specs.Prelude.{◌≡◌, ◌++◌, ◌<◌, IfOk, OnOk, Some, codes, length, slice_get, string_bytes};
ghost use Rattle.fy_bears.specs.Pieces.{between};
ghost use Rattle.fy_bears.specs.Spelled.{findings_text, front_text, told_text};
ghost use Rattle.fy_bears.specs.Texts.{any_text, before_text, borne_text, groups_text, is_exact, loss_head, policies_text, policy_line, tolerance_text};

mod forgetting;
mod groups;
mod pieces;
mod warnings;

use crate::text::forgetting::put_forgets;
use crate::text::groups::put_group;
use crate::text::pieces::{
    put, put_between, put_borne_number, put_names, put_names_line, put_policy_head,
};
use crate::text::warnings::put_warnings;
use crate::told::Told;
use fy_cluster::Config;
use fy_decide::Loss;
use fy_locality::Map;
use fy_policy::Policy;
use fy_tolerance::{Borne, Findings, LossesSoFar, Tolerance};
use std::alloc::{AllocError, Global};

/// Who was lost before, where that is told.
fn put_before(out: &mut String, map: &Map, before: &Option<LossesSoFar>) -> Result<(), AllocError>
    ensures { OnOk result
        (string_bytes out.new ≡ string_bytes out.old ++ before_text map.now before.now) }
{
    match before {
        Some(losses) => {
            put_names_line(out, "destroyed:", map, &losses.destroyed)?;
            put_names_line(out, "gone:", map, &losses.gone)?;
            put_names_line(out, "down:", map, &losses.down)
        }
        None => Ok(()),
    }
}

/// Whether one process more than are borne is known to be too many.
fn is_exact(found: &Tolerance) -> bool
    ensures { result ≡ is_exact found.now }
{
    found.is_exact()
}

/// What a policy bears: the end of its line.
fn put_tolerance(out: &mut String, map: &Map, found: &Tolerance) -> Result<(), AllocError>
    ensures { OnOk result
        (string_bytes out.new ≡ string_bytes out.old ++ tolerance_text map.now found.now) }
{
    put_borne_number(out, is_exact(found), found.any, found.too_many.len())?;
    put_names(out, map, &found.too_many)?;
    put(out, "\n")
}

/// The line of a policy.
fn put_found_line(
    alloc: Global,
    out: &mut String,
    map: &Map,
    i: usize,
    policy: &Policy,
    found: &Tolerance,
) -> Result<(), AllocError>
    ensures { OnOk result (string_bytes out.new ≡ string_bytes out.old
        ++ policy_line map.now i (Some policy.now) (Some found.now)) }
{
    put_policy_head(alloc, out, i, policy)?;
    put_tolerance(out, map, found)
}

/// The line of the policy at a place, where something was found of it.
#[tactic(auto, using(std::proofs::lemmas::Option::slice_get_read))]
fn put_policy_line(
    alloc: Global,
    out: &mut String,
    map: &Map,
    policies: &[Policy],
    found: &[Tolerance],
    i: usize,
) -> Result<(), AllocError>
    requires { i < length policies.now }
    ensures { OnOk result (string_bytes out.new ≡ string_bytes out.old
        ++ policy_line map.now i (slice_get policies.now i) (slice_get found.now i)) }
{
    if i >= found.len() {
        return Ok(());
    }
    put_found_line(alloc, out, map, i, &policies[i], &found[i])
}

/// A line for each policy.
fn put_policies(
    alloc: Global,
    out: &mut String,
    map: &Map,
    policies: &[Policy],
    found: &[Tolerance],
) -> Result<(), AllocError>
    ensures { OnOk result (string_bytes out.new ≡ string_bytes out.old
        ++ policies_text map.now policies.now found.now) }
{
    for i in 0..policies.len() {
        put_policy_line(alloc, out, map, policies, found, i)?;
    }
    Ok(())
}

/// The kind of a loss.
fn put_loss_head(out: &mut String, loss: Loss) -> Result<(), AllocError>
    ensures { OnOk result (string_bytes out.new ≡ string_bytes out.old ++ loss_head loss) }
{
    match loss {
        Loss::Emptied => put(out, "\nemptied (RebootAndDelete): "),
        Loss::Gone => put(out, "\nkilled for good (KillInstantly): "),
    }
}

/// How many are borne by all policies at once.
fn put_any(out: &mut String, any: u32) -> Result<(), AllocError>
    ensures { OnOk result (string_bytes out.new ≡ string_bytes out.old ++ any_text any) }
{
    if any == 0 {
        put(out, "some single process is too many\n")
    } else if any == 1 {
        put(out, "any 1 process\n")
    } else {
        put_between(out, "any ", any as u64, " processes together\n")
    }
}

/// The lines of the machines, zones, halls and data centres.
fn put_groups(out: &mut String, map: &Map, borne: &Borne) -> Result<(), AllocError>
    ensures { OnOk result
        (string_bytes out.new ≡ string_bytes out.old ++ groups_text map.now borne.now) }
{
    put_group(out, map, &borne.machines)?;
    put_group(out, map, &borne.zones)?;
    put_group(out, map, &borne.halls)?;
    put_group(out, map, &borne.data_centers)
}

/// The paragraph of a kind of loss.
fn put_borne(
    alloc: Global,
    out: &mut String,
    map: &Map,
    policies: &[Policy],
    borne: &Borne,
) -> Result<(), AllocError>
    ensures { OnOk result (string_bytes out.new ≡ string_bytes out.old
        ++ borne_text map.now policies.now borne.now) }
{
    put_loss_head(out, borne.loss)?;
    put_any(out, borne.any)?;
    put_policies(alloc, out, map, policies, &borne.tolerances)?;
    put_groups(out, map, borne)
}

/// How many processes there are.
fn put_count(out: &mut String, map: &Map) -> Result<(), AllocError>
    ensures { OnOk result (string_bytes out.new ≡ string_bytes out.old
        ++ between (codes "processes: ") (length map.now) (codes "\n")) }
{
    put_between(out, "processes: ", map.len() as u64, "\n")
}

/// How many processes a map has, and who was lost before.
fn put_map_front(out: &mut String, map: &Map, told: &Told) -> Result<(), AllocError>
    ensures { OnOk result (string_bytes out.new ≡ string_bytes out.old
        ++ (between (codes "processes: ") (length map.now) (codes "\n")
        ++ before_text map.now told.now.before)) }
{
    put_count(out, map)?;
    put_before(out, map, &told.before)
}

/// How many processes there are, and who was lost before.
fn put_front(out: &mut String, config: &Config, told: &Told) -> Result<(), AllocError>
    ensures { OnOk result
        (string_bytes out.new ≡ string_bytes out.old ++ front_text config.now told.now) }
{
    put_map_front(out, config.map(), told)
}

/// What is borne of each kind of loss, and what is warned of.
fn put_findings(
    alloc: Global,
    out: &mut String,
    config: &Config,
    findings: &Findings,
) -> Result<(), AllocError>
    ensures { OnOk result
        (string_bytes out.new ≡ string_bytes out.old ++ findings_text config.now findings.now) }
{
    let (map, policies) = (config.map(), config.policies());
    put_borne(alloc, out, map, policies, &findings.emptied)?;
    put_borne(alloc, out, map, policies, &findings.gone)?;
    put_warnings(alloc, out, map, policies, findings)
}

/// All that is told of a configuration's cluster.
///
/// # Errors
///
/// An allocation failed.
pub(crate) fn told_text(
    alloc: Global,
    config: &Config,
    elections: &[Policy],
    told: &Told,
) -> Result<String, AllocError>
    ensures { IfOk result (λ text.
        string_bytes text ≡ told_text config.now elections.now told.now) }
{
    let mut text = String::new(alloc);
    put_front(&mut text, config, told)?;
    put_findings(alloc, &mut text, config, &told.findings)?;
    put_forgets(alloc, &mut text, config, elections, &told.forgetting)?;
    Ok(text)
}
