//! Policies within the limits.
ghost use Rattle.std.specs.Prelude.{◌≡◌, ◌↔◌, IsTrue};
ghost use Rattle.std.specs.FinSet as sets;
ghost use Rattle.fy_policy.specs.Sat.{Sat, satisfies};
ghost use Rattle.fy_policy.specs.Shape.{tree_of};
ghost use Rattle.fy_policy.specs.Tree.{IsPolicy};

use crate::laws;
use crate::satisfaction::shape_satisfied;
use crate::shape::Shape;
use fy_locality::{Map, ProcSet};
use std::marker::Model;

/// A policy: counts from 1 to 1024, each `And` of a part or more, at most 8 deep and of at most 64
/// nodes.
#[derive(Drop)]
pub struct Policy {
    shape: Shape,
}

impl Model for Policy {
    ghost use Rattle.fy_policy.specs.Tree.{Tree, IsPolicy};
    ghost use Rattle.fy_policy.specs.TreeCode.{tree_code};

    ghost Value = { Tree };

    ghost coded = { tree_code };

    ghost use Rattle.fy_policy.specs.Shape.{tree_of};

    ghost view = { λ p. tree_of p.shape };

    ghost invariant = { λ p. IsPolicy (tree_of p.shape) };
}

impl Policy {
    /// A policy of a shape within the limits.
    pub(crate) fn from_shape(shape: Shape) -> Policy
        requires { IsPolicy (tree_of shape) }
        ensures { result ≡ tree_of shape }
    {
        Policy { shape }
    }

    /// A policy is within the limits.
    pub fn invariant(&self)
        ensures { IsPolicy self.now }
    {
        let _shape = &self.shape;
    }

    /// The policy's tree.
    pub fn shape(&self) -> &Shape
        ensures shape { tree_of result.now ≡ self.now }
        ensures policy { IsPolicy self.now }
    {
        &self.shape
    }
}

/// Whether the set satisfies the policy. Doesn't allocate.
pub fn satisfied(policy: &Policy, map: &Map, set: &ProcSet) -> bool
    ensures satisfaction { IsTrue result ↔ Sat map.now policy.now (sets.contains set.now) }
    ensures test { result ≡ satisfies map.now policy.now (sets.contains set.now) }
    ensures limits { IsPolicy policy.now }
{
    laws::test_is_satisfaction();
    shape_satisfied(policy.shape(), map, set)
}
