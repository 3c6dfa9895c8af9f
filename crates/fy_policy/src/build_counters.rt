//! The counted tree of a policy, for nobody.
ghost use Rattle.std.specs.Prelude.{◌≡◌, IfOk, MatchOption, length};
ghost use Rattle.fy_policy.specs.Counted.{IsBothOf, IsBuiltFrom, group_at};
ghost use Rattle.fy_policy.specs.Shape.{tree_of};
ghost use Rattle.fy_policy.specs.Tree.{IsWellFormed};

use crate::node::{Node, representatives_by_key, zeros};
use crate::shape::Shape;
use fy_locality::Map;
use std::alloc::{AllocError, Global};

/// The counted tree of a policy for the empty set, where the processes stand in these groups. There
/// is none where an `And` has no part.
pub(crate) fn build_counters(
    alloc: Global,
    shape: &Shape,
    map: &Map,
    places: &[u32],
) -> Result<Option<Node>, AllocError>
    requires { length places.now ≡ length map.now }
    ensures { IsWellFormed (tree_of shape.now) → IfOk result (λ found. MatchOption found ⊥ (λ node.
        IsBuiltFrom map.now (group_at places.now) (tree_of shape.now) node)) }
{
    match shape {
        Shape::One => Ok(Some(Node::One(zeros(alloc, map.len() + 1)?))),
        Shape::Across(wanted, key, inner) => {
            let below = representatives_by_key(alloc, map, places, *key)?;
            let Some(inner) = build_counters(alloc, inner, map, &below)? else {
                return Ok(None);
            };
            let counts = zeros(alloc, map.len() + 1)?;
            let inner = Box::new(alloc, inner)?;
            Ok(Some(Node::Across {
                wanted: *wanted,
                key: *key,
                places: below,
                counts,
                inner,
            }))
        }
        Shape::And(parts) => {
            let mut so_far = None;
            for part in parts {
                let Some(next) = build_counters(alloc, part, map, places)? else {
                    return Ok(None);
                };
                let joined = both(alloc, so_far, next)?;
                so_far = Some(joined);
            }
            Ok(so_far)
        }
    }
}

/// Two counted trees at once, or the second alone where there is no first.
fn both(alloc: Global, first: Option<Node>, second: Node) -> Result<Node, AllocError>
    ensures { IfOk result (IsBothOf first second) }
{
    let Some(first) = first else {
        return Ok(second);
    };
    let first = Box::new(alloc, first)?;
    Ok(Node::Both(first, Box::new(alloc, second)?))
}
