//! What in a cluster file is seldom meant.
use crate::borne::Findings;
use crate::reports::Case;
use fy_locality::{KEYS, Key, ProcId};
use fy_policy::Shape;
use std::alloc::{AllocError, Global};

/// What is warned of, each in a sentence without its full stop.
pub(crate) fn warnings_of(
    alloc: Global,
    case: &Case<'_>,
    findings: &Findings,
) -> Result<Vec<String>, AllocError> {
    let mut warnings = Vec::new(alloc);
    let half = case.map.len() / 2;
    for (place, found) in findings.emptied.tolerances.iter().enumerate() {
        if found.any == 0 {
            let warning = format!(in alloc; "some single process is too many for policy {place}")?;
            warnings.push(warning)?;
        } else if found.any > half {
            let any = found.any;
            let warning = format!(in alloc;
                "policy {place} bears that {any} processes are emptied, more than half: \
                a majority store has then lost its quorum"
            )?;
            warnings.push(warning)?;
        }
    }
    if findings.emptied.any > 0 && findings.gone.any == 0 {
        let who = if some_may_go(findings) {
            "some process may not"
        } else {
            "no process may"
        };
        let warning = format!(in alloc; "{who} be killed for good: too few would be left")?;
        warnings.push(warning)?;
    }
    for (place, policy) in case.policies.iter().enumerate() {
        for key in KEYS {
            let values = case.map.value_count(key);
            if values < 2 && names(policy.shape(), key) {
                let word = key.text();
                let warning = match values {
                    0 => format!(in alloc; "policy {place} names {word}, which no process has")?,
                    _ => format!(in alloc;
                        "policy {place} names {word}, of which there is one value only"
                    )?,
                };
                warnings.push(warning)?;
            }
        }
    }
    Ok(warnings)
}

/// Whether some process that is left may be killed for good.
fn some_may_go(findings: &Findings) -> bool {
    let mut place = 0u32;
    for may in &findings.gone.processes {
        if *may && findings.left.contains(ProcId(place)) {
            return true;
        }
        place = place.saturating_add(1);
    }
    false
}

/// Whether a policy names a key.
fn names(shape: &Shape, key: Key) -> bool {
    match shape {
        Shape::One => false,
        Shape::Across(_, named, inner) => *named == key || names(inner, key),
        Shape::And(parts) => {
            for part in parts {
                if names(part, key) {
                    return true;
                }
            }
            false
        }
    }
}
