//! The law of the book after losses.
ghost use Rattle.fy_tolerance.specs.Bears.{NothingIsDropped};

use fy_policy::laws;

/// Of losses that the policies bear at the end, nothing is dropped: the book has exactly those
/// destroyed, and all but the gone are left.
#[tactic(auto, using(crate::proofs::Dropping::nothing_is_dropped))]
pub fn nothing_is_dropped()
    ensures { NothingIsDropped }
{
    laws::test_is_satisfaction();
    laws::more_satisfies();
}
