//! Histories of many registers.

ghost use Rattle.std.specs.Prelude.{◌≡◌, ◌<◌, ℕ, [], IfOk, All, Contains, IfSome, slice_get, vec_len};
ghost use Rattle.fy_registers.specs.Keys.{AreLinearizable, of_key};
ghost use Rattle.fy_registers.specs.Evidence.{IsJudged};
ghost use Rattle.fy_registers.specs.declared.evidence.Evidence.{Evidence};
ghost use Rattle.fy_registers.specs.declared.evidence.Judgement.TheVariants.{Linearizable, Not};

use crate::evidence::Judgement;
use crate::judging::judge;
use crate::operation::{Operation, is_history};
use std::alloc::{AllocError, Global};

/// An operation of the register of a key.
#[derive(Clone, Copy, Debug, PartialEq, Eq)]
pub struct Keyed {
    pub key: u32,
    pub operation: Operation,
}

/// So many empty parts.
fn empty_parts(alloc: Global, count: usize) -> Result<Vec<Vec<Operation>>, AllocError>
    ensures count { IfOk result (λ parts. vec_len parts ≡ count) }
    ensures empty { IfOk result (λ parts. All (λ part. part.items ≡ []) parts.items) }
{
    let mut parts = Vec::with_capacity(alloc, count)?;
    for _ in 0..count {
        parts.push(Vec::new(alloc))?;
    }
    Ok(parts)
}

/// The operations of each key below a count, in their order.
///
/// # Errors
///
/// An allocation failed.
pub fn split_by_key(
    alloc: Global,
    operations: &[Keyed],
    count: usize,
) -> Result<Vec<Vec<Operation>>, AllocError>
    requires { All (λ o. o.key < count) operations.now }
    ensures count { IfOk result (λ parts. vec_len parts ≡ count) }
    ensures each { IfOk result (λ parts. (key : ℕ) → key < count →
        IfSome (slice_get parts.items key) (λ part. part.items ≡ of_key key operations.now)) }
{
    let mut parts = empty_parts(alloc, count)?;
    for keyed in operations {
        parts[keyed.key as usize].push(keyed.operation)?;
    }
    Ok(parts)
}

/// Judges the operations of one key; nothing where they are no history.
fn judge_part(alloc: Global, operations: &[Operation]) -> Result<Option<Judgement>, AllocError>
    ensures { IfOk result (IsJudged operations.now) }
{
    if is_history(operations) {
        Ok(Some(judge(alloc, operations)?))
    } else {
        Ok(None)
    }
}

/// Judges a history of many registers: of each key below a count its operations, by themselves.
/// There is no judgement of a key whose operations are no history, as `is_history` says.
///
/// # Errors
///
/// An allocation failed.
pub fn judge_each(
    alloc: Global,
    operations: &[Keyed],
    count: usize,
) -> Result<Vec<Option<Judgement>>, AllocError>
    requires { All (λ o. o.key < count) operations.now }
    ensures count { IfOk result (λ judged. vec_len judged ≡ count) }
    ensures each { IfOk result (λ judged. (key : ℕ) → key < count →
        IfSome (slice_get judged.items key) (IsJudged (of_key key operations.now))) }
    ensures all { IfOk result (λ judged. All (λ it. it ≡ Some Linearizable) judged.items →
        AreLinearizable operations.now) }
    ensures not { IfOk result (λ judged. (evidence : Evidence) →
        Contains judged.items (Some (Not evidence)) → AreLinearizable operations.now → ⊥) }
{
    let parts = split_by_key(alloc, operations, count)?;
    let mut judged = Vec::with_capacity(alloc, count)?;
    for part in &parts {
        judged.push(judge_part(alloc, part)?)?;
    }
    Ok(judged)
}
