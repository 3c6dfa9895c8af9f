//! The laws of linearizable registers.
ghost use Rattle.fy_registers.specs.Evidence.{EvidenceRefutes};
ghost use Rattle.fy_registers.specs.Keys.{EachByItself};

/// Where evidence is shown, no order of the operations is a linearization.
#[tactic(auto, using(crate::proofs::Refuting::evidence_refutes))]
pub fn evidence_refutes()
    ensures { EvidenceRefutes }
{}

/// A history of many registers has a linearization exactly where the operations of each register
/// have one.
#[tactic(auto, using(crate::proofs::Merging::each_by_itself))]
pub fn each_by_itself()
    ensures { EachByItself }
{}
