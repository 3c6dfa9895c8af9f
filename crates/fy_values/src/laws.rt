//! The law of other numbers in place of values.
ghost use Rattle.fy_values.specs.Renumbering.{RenumberingKeeps};

/// Other numbers in place of the values of operations, no two of which become one, leave it open to
/// the same orders: there is a linearization after exactly where there is one before.
#[tactic(auto, using(crate::proofs::Renumbered::renumbering_keeps))]
pub fn renumbering_keeps()
    ensures { RenumberingKeeps }
{}
