//! Writes what may forget, for programs, behind what a cluster bears. The text is promised
//! (docs/FORMATS.md), and tested by `tests/cli/bears.toml`; no contract says what it is.
use fy_cluster::Config;
use fy_locality::{Key, Map, ProcSet};
use fy_policy::{Policy, policy_text};
use fy_votes::Forgetting;
use std::alloc::{AllocError, Global};

/// What may forget by one policy of elections: by each of writes, if any.
type Found = Option<Vec<Forgetting>>;

/// Appends what may forget by each policy of elections to a text of JSON, as a member more of its
/// object.
pub(crate) fn push_forgetting(
    alloc: Global,
    text: &mut String,
    config: &Config,
    elections: &[Policy],
    found: &[Found],
) -> Result<(), AllocError> {
    // Behind the object's last member stand its brace and the end of the line.
    let _ = text.pop();
    let _ = text.pop();
    text.push_str(",\"forgetting\":[")?;
    for (place, (policy, one)) in elections.iter().zip(found).enumerate() {
        if place > 0 {
            text.push_str(",")?;
        }
        push_object(alloc, text, config, policy, one)?;
    }
    text.push_str("]}\n")
}

/// The object of a policy of elections.
fn push_object(
    alloc: Global,
    text: &mut String,
    config: &Config,
    elections: &Policy,
    found: &Found,
) -> Result<(), AllocError> {
    let words = policy_text(alloc, elections)?;
    let words = words.as_str();
    write!(text, "{{\"elections\":\"{words}\",\"policies\":")?;
    let Some(all) = found else {
        return text.push_str("null}");
    };
    text.push_str("[")?;
    for (place, (policy, one)) in config.policies().iter().zip(all).enumerate() {
        if place > 0 {
            text.push_str(",")?;
        }
        let words = policy_text(alloc, policy)?;
        let words = words.as_str();
        write!(text, "{{\"policy\":\"{words}\",\"any\":")?;
        match one.any() {
            Some(any) => write!(text, "{any}")?,
            None => text.push_str("null")?,
        }
        let exact = one.is_exact();
        write!(text, ",\"exact\":{exact},\"too_many\":[")?;
        push_listed(text, config.map(), &one.too_many)?;
        text.push_str("]}")?;
    }
    text.push_str("]}")
}

/// The names of the processes of a set, as JSON.
fn push_listed(text: &mut String, map: &Map, set: &ProcSet) -> Result<(), AllocError> {
    let mut place = 0usize;
    for p in set.iter() {
        if p.0 < map.len() {
            if let Some(name) = map.value(p, Key::Process) {
                if place > 0 {
                    text.push_str(",")?;
                }
                let words = name.as_str();
                write!(text, "\"{words}\"")?;
                place = place.saturating_add(1);
            }
        }
    }
    Ok(())
}
