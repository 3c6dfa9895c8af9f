//! The text of a policy.
ghost use Rattle.std.specs.Prelude.{◌≡◌, ◌++◌, IfOk, OnOk, string_bytes};
ghost use Rattle.fy_policy.specs.Shape.{tree_of};
ghost use Rattle.fy_policy.specs.Text.{text};

use crate::Policy;
use crate::shape::Shape;
use std::alloc::{AllocError, Global};

/// The policy's text: ASCII, without blanks, each count without leading zeros. It is at most
/// `MOST_TEXT_BYTES` long.
///
/// # Errors
///
/// An allocation failed.
pub fn policy_text(alloc: Global, policy: &Policy) -> Result<String, AllocError>
    ensures { IfOk result (λ written. string_bytes written ≡ text policy.now) }
{
    let mut out = String::new(alloc);
    push_text(&mut out, policy.shape())?;
    Ok(out)
}

/// Puts the text of a policy's tree behind what is there.
fn push_text(out: &mut String, shape: &Shape) -> Result<(), AllocError>
    ensures { OnOk result
        (string_bytes out.new ≡ string_bytes out.old ++ text (tree_of shape.now)) }
{
    match shape {
        Shape::One => {
            out.push_str("One()")?;
            Ok(())
        }
        Shape::Across(count, key, inner) => {
            let count = *count;
            out.push_str("Across(")?;
            write!(out, "{count}")?;
            out.push_str(",")?;
            out.push_str(key.text())?;
            out.push_str(",")?;
            push_text(out, inner)?;
            out.push_str(")")?;
            Ok(())
        }
        Shape::And(parts) => {
            out.push_str("And(")?;
            let mut comma = false;
            for part in parts {
                if comma {
                    out.push_str(",")?;
                }
                push_text(out, part)?;
                comma = true;
            }
            out.push_str(")")?;
            Ok(())
        }
    }
}
