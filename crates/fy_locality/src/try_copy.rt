//! Copies that take memory of their own.
ghost use Rattle.std.specs.Prelude.{◌≡◌, IfOk};

use std::alloc::{AllocError, Global};

/// What has copies in memory of their own.
pub trait TryCopy {
    /// An equal value, in memory of its own.
    ///
    /// # Errors
    ///
    /// An allocation failed.
    fn try_copy(&self, alloc: Global) -> Result<Self, AllocError>
        ensures { IfOk result (λ copy. copy ≡ self.now) };
}

/// A copy of each, in their order. The list takes its memory at once.
///
/// # Errors
///
/// An allocation failed.
pub fn try_copy_each<T: TryCopy + Drop>(alloc: Global, items: &[T]) -> Result<Vec<T>, AllocError>
    ensures { IfOk result (λ copies. copies.items ≡ items.now) }
{
    let mut copies = Vec::with_capacity(alloc, items.len())?;
    for item in items {
        copies.push_reserved(item.try_copy(alloc)?);
    }
    Ok(copies)
}
