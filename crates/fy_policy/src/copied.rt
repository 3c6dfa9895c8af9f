//! Copies of policies, in memory of their own.
ghost use Rattle.std.specs.Prelude.{◌≡◌, IfOk};
ghost use Rattle.fy_policy.specs.Shape.{tree_of};

use crate::Policy;
use crate::shape::Shape;
use fy_locality::TryCopy;
use std::alloc::{AllocError, Global};

/// An equal shape, in memory of its own.
///
/// # Errors
///
/// An allocation failed.
fn copied(alloc: Global, shape: &Shape) -> Result<Shape, AllocError>
    ensures { IfOk result (λ copy. tree_of copy ≡ tree_of shape.now) }
{
    match shape {
        Shape::One => Ok(Shape::One),
        Shape::Across(count, key, inner) => {
            let inner = copied(alloc, inner)?;
            Ok(Shape::Across(*count, *key, Box::new(alloc, inner)?))
        }
        Shape::And(parts) => {
            let mut copies = Vec::new(alloc);
            for part in parts {
                let copy = copied(alloc, part)?;
                copies.push(copy)?;
            }
            Ok(Shape::And(copies))
        }
    }
}

impl TryCopy for Policy {
    fn try_copy(&self, alloc: Global) -> Result<Policy, AllocError> {
        let shape = copied(alloc, self.shape())?;
        Ok(Policy::from_shape(shape))
    }
}
