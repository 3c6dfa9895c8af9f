//! What in a cluster file is seldom meant, a line for each.
ghost use Rattle.std.specs.Prelude.{◌≡◌, ◌++◌, ◌<◌, ◌&&◌, OnOk, Some, codes, length, nat_lt, slice_get, string_bytes};
ghost use Rattle.fy_locality.specs.Key.{key_text};
ghost use Rattle.fy_locality.specs.Locality.{values_of};
ghost use Rattle.fy_policy.specs.Shape.{tree_of};
ghost use Rattle.fy_bears.specs.Pieces.{between};
ghost use Rattle.fy_bears.specs.Warnings.{apart, emptied_warning, emptied_warnings, few_text, gone_warning, is_quiet, is_same, key_warning, keys_warnings, lone_text, may_any_go, may_go, most_text, names, policy_warnings, warning_lines, warnings_text, who_text};

use crate::text::pieces::{put, put_between, put_two_numbers};
use fy_locality::{Key, Map, ProcId};
use fy_policy::{Policy, Shape};
use fy_tolerance::{Findings, Tolerance};
use std::alloc::{AllocError, Global};

/// That a policy bears the loss of more than half of all.
fn put_most(out: &mut String, i: usize, any: u32) -> Result<(), AllocError>
    ensures { OnOk result (string_bytes out.new ≡ string_bytes out.old ++ most_text i any) }
{
    put_two_numbers(
        out,
        "warning: policy ",
        i as u64,
        " bears that ",
        any as u64,
        " processes are emptied, more than half: a majority store has then lost its quorum\n",
    )
}

/// A warning of a policy that bears no emptied process, or more than half of all.
fn put_emptied_warning(
    out: &mut String,
    half: u32,
    i: usize,
    found: &Tolerance,
) -> Result<(), AllocError>
    ensures { OnOk result
        (string_bytes out.new ≡ string_bytes out.old ++ emptied_warning half i (Some found.now)) }
{
    if found.any == 0 {
        put_between(
            out,
            "warning: some single process is too many for policy ",
            i as u64,
            "\n",
        )
    } else if found.any > half {
        put_most(out, i, found.any)
    } else {
        Ok(())
    }
}

/// Such a warning of the policy at a place.
#[tactic(auto, using(std::proofs::lemmas::Option::slice_get_read))]
fn put_emptied_warning_at(
    out: &mut String,
    half: u32,
    found: &[Tolerance],
    i: usize,
) -> Result<(), AllocError>
    requires { i < length found.now }
    ensures { OnOk result (string_bytes out.new ≡ string_bytes out.old
        ++ emptied_warning half i (slice_get found.now i)) }
{
    put_emptied_warning(out, half, i, &found[i])
}

/// Such warnings of all policies.
fn put_emptied_warnings(out: &mut String, half: u32, found: &[Tolerance]) -> Result<(), AllocError>
    ensures { OnOk result
        (string_bytes out.new ≡ string_bytes out.old ++ emptied_warnings half found.now) }
{
    for i in 0..found.len() {
        put_emptied_warning_at(out, half, found, i)?;
    }
    Ok(())
}

/// Whether a process is left, and may be killed for good.
fn may_go(findings: &Findings, p: u32) -> bool
    ensures { result ≡ may_go findings.now p }
{
    let place = p as usize;
    let may = &findings.gone.processes;
    findings.left.contains(ProcId(p)) && place < may.len() && may[place]
}

/// Whether some process below a number is.
fn may_any_go(findings: &Findings, count: u32) -> bool
    ensures { result ≡ may_any_go findings.now count }
{
    let mut any = false;
    for p in 0..count {
        any = any || may_go(findings, p);
    }
    any
}

/// Who may not be killed for good.
fn who(some_may: bool) -> &'static str
    ensures { result.now ≡ who_text some_may }
{
    if some_may {
        "some process may not"
    } else {
        "no process may"
    }
}

/// Whether no process may be emptied, or any one killed for good.
fn is_quiet(findings: &Findings) -> bool
    ensures { result ≡ is_quiet findings.now }
{
    findings.emptied.any == 0 || findings.gone.any != 0
}

/// That too few would be left.
fn put_few(out: &mut String, some_may: bool) -> Result<(), AllocError>
    ensures { OnOk result (string_bytes out.new ≡ string_bytes out.old ++ few_text some_may) }
{
    put(out, "warning: ")?;
    put(out, who(some_may))?;
    put(out, " be killed for good: too few would be left\n")
}

/// A warning that one loss more for good is too many.
fn put_gone_warning(out: &mut String, map: &Map, findings: &Findings) -> Result<(), AllocError>
    ensures { OnOk result
        (string_bytes out.new ≡ string_bytes out.old ++ gone_warning map.now findings.now) }
{
    if is_quiet(findings) {
        return Ok(());
    }
    put_few(out, may_any_go(findings, map.len()))
}

/// Whether two keys are one.
fn is_same(named: Key, key: Key) -> bool
    ensures { result ≡ is_same named key }
{
    named.text() == key.text()
}

/// Whether a policy names a key.
fn names(shape: &Shape, key: Key) -> bool
    ensures { result ≡ names key (tree_of shape.now) }
{
    match shape {
        Shape::One => false,
        Shape::Across(_, named, inner) => is_same(*named, key) || names(inner, key),
        Shape::And(parts) => {
            for part in parts {
                if names(part, key) {
                    return true;
                }
            }
            false
        }
    }
}

/// How few values a key has.
fn lone(values: u32) -> &'static str
    ensures { result.now ≡ lone_text values }
{
    if values == 0 {
        ", which no process has\n"
    } else {
        ", of which there is one value only\n"
    }
}

/// The text of a key.
fn put_key(out: &mut String, key: Key) -> Result<(), AllocError>
    ensures { OnOk result (string_bytes out.new ≡ string_bytes out.old ++ key_text key) }
{
    put(out, key.text())
}

/// How few values a key has.
fn put_lone(out: &mut String, values: u32) -> Result<(), AllocError>
    ensures { OnOk result (string_bytes out.new ≡ string_bytes out.old ++ lone_text values) }
{
    put(out, lone(values))
}

/// A key and how few values it has.
fn put_lone_key(out: &mut String, key: Key, values: u32) -> Result<(), AllocError>
    ensures { OnOk result (string_bytes out.new ≡ string_bytes out.old
        ++ (key_text key ++ lone_text values)) }
{
    put_key(out, key)?;
    put_lone(out, values)
}

/// That a policy names something.
fn put_naming(out: &mut String, i: usize) -> Result<(), AllocError>
    ensures { OnOk result (string_bytes out.new ≡ string_bytes out.old
        ++ between (codes "warning: policy ") i (codes " names ")) }
{
    put_between(out, "warning: policy ", i as u64, " names ")
}

/// That a policy names a key of so few values.
fn put_named_key(out: &mut String, i: usize, key: Key, values: u32) -> Result<(), AllocError>
    ensures { OnOk result (string_bytes out.new ≡ string_bytes out.old
        ++ (between (codes "warning: policy ") i (codes " names ")
        ++ (key_text key ++ lone_text values))) }
{
    put_naming(out, i)?;
    put_lone_key(out, key, values)
}

/// Whether a policy names a key of fewer than two values.
fn names_lone(map: &Map, policy: &Policy, key: Key) -> bool
    ensures { result ≡ (nat_lt (length (values_of map.now key)) 2 && names key policy.now) }
{
    map.value_count(key) < 2 && names(policy.shape(), key)
}

/// A warning of a policy that names a key of fewer than two values.
fn put_key_warning(
    out: &mut String,
    map: &Map,
    i: usize,
    policy: &Policy,
    key: Key,
) -> Result<(), AllocError>
    ensures { OnOk result
        (string_bytes out.new ≡ string_bytes out.old ++ key_warning map.now i policy.now key) }
{
    if names_lone(map, policy, key) {
        put_named_key(out, i, key, map.value_count(key))
    } else {
        Ok(())
    }
}

/// Such warnings of a policy, by each key.
fn put_policy_warnings(
    out: &mut String,
    map: &Map,
    i: usize,
    policy: &Policy,
) -> Result<(), AllocError>
    ensures { OnOk result (string_bytes out.new ≡ string_bytes out.old
        ++ policy_warnings map.now i (Some policy.now)) }
{
    put_key_warning(out, map, i, policy, Key::Process)?;
    put_key_warning(out, map, i, policy, Key::Machine)?;
    put_key_warning(out, map, i, policy, Key::Zone)?;
    put_key_warning(out, map, i, policy, Key::DataHall)?;
    put_key_warning(out, map, i, policy, Key::DataCenter)
}

/// Such warnings of the policy at a place.
#[tactic(auto, using(std::proofs::lemmas::Option::slice_get_read))]
fn put_policy_warnings_at(
    out: &mut String,
    map: &Map,
    policies: &[Policy],
    i: usize,
) -> Result<(), AllocError>
    requires { i < length policies.now }
    ensures { OnOk result (string_bytes out.new ≡ string_bytes out.old
        ++ policy_warnings map.now i (slice_get policies.now i)) }
{
    put_policy_warnings(out, map, i, &policies[i])
}

/// Such warnings of all policies.
fn put_keys_warnings(out: &mut String, map: &Map, policies: &[Policy]) -> Result<(), AllocError>
    ensures { OnOk result
        (string_bytes out.new ≡ string_bytes out.old ++ keys_warnings map.now policies.now) }
{
    for i in 0..policies.len() {
        put_policy_warnings_at(out, map, policies, i)?;
    }
    Ok(())
}

/// All warnings, a line for each.
fn put_lines(
    out: &mut String,
    map: &Map,
    policies: &[Policy],
    findings: &Findings,
) -> Result<(), AllocError>
    ensures { OnOk result (string_bytes out.new ≡ string_bytes out.old
        ++ warning_lines map.now policies.now findings.now) }
{
    put_emptied_warnings(out, map.len() / 2, &findings.emptied.tolerances)?;
    put_gone_warning(out, map, findings)?;
    put_keys_warnings(out, map, policies)
}

/// What is warned of, behind an empty line, if anything is.
pub(crate) fn put_warnings(
    alloc: Global,
    out: &mut String,
    map: &Map,
    policies: &[Policy],
    findings: &Findings,
) -> Result<(), AllocError>
    ensures { OnOk result (string_bytes out.new ≡ string_bytes out.old
        ++ warnings_text map.now policies.now findings.now) }
{
    let mut lines = String::new(alloc);
    put_lines(&mut lines, map, policies, findings)?;
    put_apart(out, lines.as_str())
}

/// Lines behind an empty one, if there are any.
fn put_apart(out: &mut String, lines: &str) -> Result<(), AllocError>
    ensures { OnOk result (string_bytes out.new ≡ string_bytes out.old ++ apart lines.now) }
{
    if lines.is_empty() {
        return Ok(());
    }
    put(out, "\n")?;
    put(out, lines)
}
