//! What is judged of the keys of a history.
ghost use Rattle.std.specs.Prelude.{◌≡◌, IfOk, IsTrue, ◌↔◌, All, Some};
ghost use Rattle.fy_registers.specs.declared.evidence.Judgement.TheVariants.{Linearizable};
ghost use Rattle.fy_keys.specs.Judged.{IsJudgedOf};

use crate::operations::operations_of;
use fy_history::History;
use fy_registers::{Judgement, Keyed};
use fy_values::judge_keys;
use std::alloc::{AllocError, Global};

/// What was judged of all keys.
#[derive(Drop)]
pub struct Judged {
    /// The operations in the order in which they began. Their values are the numbers of texts.
    pub operations: Vec<Keyed>,
    /// What was judged of the key of each number. There is no judgement where the operations aren't
    /// in time, and two writes of one value, in no history that was read.
    pub judgements: Vec<Option<Judgement>>,
}

/// Whether a key is linearizable.
fn is_linearizable(judgement: Option<Judgement>) -> bool
    ensures { IsTrue result ↔ (judgement ≡ Some Linearizable) }
{
    matches!(judgement, Some(Judgement::Linearizable))
}

impl Judged {
    /// Whether each key is linearizable.
    pub fn is_linearizable(&self) -> bool
        ensures { IsTrue result ↔ All (λ it. it ≡ Some Linearizable) self.now.judgements.items }
    {
        self.judgements
            .iter()
            .all(|judgement| is_linearizable(*judgement))
    }
}

/// Judges each key of a history.
///
/// # Errors
///
/// An allocation failed.
pub fn judge_history(alloc: Global, history: &History) -> Result<Judged, AllocError>
    ensures { IfOk result (IsJudgedOf history.now) }
{
    let operations = operations_of(alloc, history)?;
    let judgements = judge_keys(alloc, &operations)?;
    Ok(Judged {
        operations,
        judgements,
    })
}
