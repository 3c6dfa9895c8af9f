//! Answers to orders.
use crate::Kind;
use fy_locality::ProcId;

/// Why a kind is barred. Of several rules the first of this order is named.
#[derive(Clone, Copy, PartialEq, Eq, Debug)]
pub enum Rule {
    /// No process that is left has the target's value.
    NoTarget,
    /// No grant of the actor that has the kind covers this process, the least such one.
    NoGrant { process: ProcId },
    /// This process is protected from the kind, the least such one.
    Protected { process: ProcId },
    /// The destroyed would satisfy this policy, the least such one.
    TooManyDestroyed { policy: usize },
    /// Those left would be short of this policy, the least such one.
    TooFewLeft { policy: usize },
}

/// What comes of an order: the kind that strikes, if one does, and the rule that bars the ordered
/// kind, if one does.
#[derive(Clone, Copy, PartialEq, Eq, Debug)]
pub struct Verdict {
    pub struck: Option<Kind>,
    pub rule: Option<Rule>,
}
