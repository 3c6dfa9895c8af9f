//! The judge of registers whose values are any numbers.
ghost use Rattle.std.specs.Prelude.{◌≡◌, ◌<◌, ◌≤◌, ◌↔◌, ℕ, [], IsTrue, IfOk, IfSome, All, slice_get, vec_len};
ghost use Rattle.fy_registers.specs.Evidence.{Judges};
ghost use Rattle.fy_registers.specs.Keys.{of_key};
ghost use Rattle.fy_values.specs.Values.{EndsInTime, IsInTime, IsJudgedInTime};

use crate::numbers::number_values;
use crate::values::judgement_of;
use fy_registers::{Judgement, Keyed, Operation, judge, split_by_key};
use std::alloc::{AllocError, Global};

/// Whether an operation doesn't end before it began.
fn ends_in_time(operation: &Operation) -> bool
    ensures { IsTrue result ↔ EndsInTime operation.now }
{
    operation.ended.is_none_or(|end| operation.began <= end)
}

/// Whether no operation ends before it began.
fn end_in_time(operations: &[Operation]) -> bool
    ensures { IsTrue result ↔ All EndsInTime operations.now }
{
    operations.iter().all(|operation| ends_in_time(operation))
}

/// Whether operations stand in the order in which they began, no two at one place, and none ended
/// before it began.
pub fn is_in_time(operations: &[Operation]) -> bool
    ensures { IsTrue result ↔ IsInTime operations.now }
{
    operations.is_sorted_by(|one, later| one.began < later.began) && end_in_time(operations)
}

/// Judges a history of one register, as `fy_registers::judge` does, whatever numbers its values are.
///
/// # Errors
///
/// An allocation failed.
pub fn judge_values(alloc: Global, operations: &[Operation]) -> Result<Judgement, AllocError>
    requires { IsInTime operations.now }
    ensures { IfOk result (Judges operations.now) }
{
    let numbered = number_values(alloc, operations)?;
    let judgement = judge(alloc, &numbered.operations)?;
    Ok(judgement_of(&numbered.values, judgement))
}

/// Judges the operations of one key; nothing where they aren't in time.
fn judge_part(alloc: Global, operations: &[Operation]) -> Result<Option<Judgement>, AllocError>
    ensures { IfOk result (IsJudgedInTime operations.now) }
{
    if is_in_time(operations) {
        Ok(Some(judge_values(alloc, operations)?))
    } else {
        Ok(None)
    }
}

/// A number above all keys.
fn key_count(operations: &[Keyed]) -> usize
    ensures { All (λ o. o.key < result) operations.now }
{
    let mut count = 0;
    for keyed in operations {
        count = count.max(keyed.key as usize + 1);
    }
    count
}

/// Judges a history of many registers: of each key its operations, by themselves. The judgement of a
/// key stands at the key's place, and keys behind all judgements have no operations. There is no
/// judgement of a key whose operations aren't in time, as `is_in_time` says.
///
/// # Errors
///
/// An allocation failed.
pub fn judge_keys(alloc: Global, operations: &[Keyed]) -> Result<Vec<Option<Judgement>>, AllocError>
    ensures each { IfOk result (λ judged. (key : ℕ) →
        IfSome (slice_get judged.items key) (IsJudgedInTime (of_key key operations.now))) }
    ensures all { IfOk result (λ judged. (key : ℕ) → vec_len judged ≤ key →
        of_key key operations.now ≡ []) }
{
    let parts = split_by_key(alloc, operations, key_count(operations))?;
    let mut judged = Vec::with_capacity(alloc, parts.len())?;
    for part in &parts {
        judged.push(judge_part(alloc, part)?)?;
    }
    Ok(judged)
}
