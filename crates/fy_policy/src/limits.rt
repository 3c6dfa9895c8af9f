//! Whether a shape is within the limits of a policy.
ghost use Rattle.std.specs.Prelude.{◌≡◌, ◌+◌, ◌≤◌, ◌<◌, ◌↔◌, IsTrue, MatchOption};
ghost use Rattle.fy_policy.specs.declared.limits.TheConstants.{LEAST_COUNT, MOST_COUNT};
ghost use Rattle.fy_policy.specs.Shape.{tree_of};
ghost use Rattle.fy_policy.specs.Tree.{HasFitCounts, depth, nodes};

use crate::shape::Shape;

/// How many policies there may be, from 1.
pub const MOST_POLICIES: usize = 8;
/// The least count of a policy.
pub const LEAST_COUNT: u32 = 1;
/// The greatest count of a policy.
pub const MOST_COUNT: u32 = 1024;
/// How deep a policy may be.
pub const MOST_DEPTH: u32 = 8;
/// How many nodes a policy may have.
pub const MOST_NODES: u32 = 64;
/// How many bytes the text of a policy may have: no node takes more than 24.
pub const MOST_TEXT_BYTES: usize = 24 * MOST_NODES as usize;
/// How many bytes of text are read.
pub const MOST_READ_BYTES: usize = 4096;

/// Whether a count is within those limits.
fn is_fit(count: u32) -> bool
    ensures { IsTrue result ↔ ((LEAST_COUNT ≤ count) × (count ≤ MOST_COUNT)) }
{
    LEAST_COUNT <= count && count <= MOST_COUNT
}

/// Whether each count is.
pub fn has_fit_counts(shape: &Shape) -> bool
    ensures { IsTrue result ↔ HasFitCounts (tree_of shape.now) }
{
    match shape {
        Shape::One => true,
        Shape::Across(count, _, inner) => is_fit(*count) && has_fit_counts(inner),
        Shape::And(parts) => {
            for part in parts {
                if !has_fit_counts(part) {
                    return false;
                }
            }
            true
        }
    }
}

/// Whether the shape is at most so deep. It looks no deeper than that.
pub fn is_within_depth(shape: &Shape, most: u32) -> bool
    ensures { IsTrue result ↔ (depth (tree_of shape.now) ≤ most) }
{
    if most == 0 {
        return false;
    }
    match shape {
        Shape::One => true,
        Shape::Across(_, _, inner) => is_within_depth(inner, most - 1),
        Shape::And(parts) => {
            for part in parts {
                if !is_within_depth(part, most - 1) {
                    return false;
                }
            }
            true
        }
    }
}

/// How much of the room is left behind the nodes, or none where they are too many.
pub fn room_behind(shape: &Shape, room: u32) -> Option<u32>
    ensures { MatchOption result
        (room < nodes (tree_of shape.now))
        (λ left. left + nodes (tree_of shape.now) ≡ room) }
{
    if room == 0 {
        return None;
    }
    match shape {
        Shape::One => Some(room - 1),
        Shape::Across(_, _, inner) => room_behind(inner, room - 1),
        Shape::And(parts) => {
            let mut left = room - 1;
            for part in parts {
                left = room_behind(part, left)?;
            }
            Some(left)
        }
    }
}
