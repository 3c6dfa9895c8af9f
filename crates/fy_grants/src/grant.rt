//! A grant: which kinds an actor may order, and on which processes.
ghost use Rattle.std.specs.Prelude.{◌≡◌, [], ◌∷◌, ◌++◌, OnOk, OnErr};

use fy_kinds::{KindSet, Target};
use std::alloc::AllocError;

/// Which processes a grant covers.
#[derive(Clone, Copy, PartialEq, Eq)]
pub enum Scope {
    /// Every process.
    All,
    /// The processes with the target's value of its key.
    Where(Target),
}

/// The permission of an actor, by its number, for some kinds on the processes of a scope.
#[derive(Clone, Copy, PartialEq, Eq)]
pub struct Grant {
    pub actor: u32,
    pub kinds: KindSet,
    pub scope: Scope,
}

/// Puts a grant last, or leaves the list as it was where an allocation fails.
pub(crate) fn push_last(own: &mut Vec<Grant>, grant: Grant) -> Result<(), AllocError>
    ensures ok { OnOk result (own.new.items ≡ own.old.items ++ grant ∷ []) }
    ensures err { OnErr result (own.new.items ≡ own.old.items) }
{
    own.extend_from_slice(&[grant])?;
    Ok(())
}
