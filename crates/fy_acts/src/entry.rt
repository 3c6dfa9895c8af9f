//! The entries of a journal.
ghost use Rattle.std.specs.Prelude.{◌≡◌, false, IfOk, IsOk};
ghost use Rattle.fy_acts.specs.Acts.{holds_list};

use crate::{Act, Reply};
use std::alloc::{AllocError, Global};

/// One act and its reply.
#[derive(PartialEq, Eq)]
pub struct Entry {
    /// The entry's place in the journal, from 0.
    pub at: u32,
    /// The number of who acted. There need be no such actor.
    pub by: u32,
    pub act: Act,
    pub reply: Reply,
}

// Written out and not derived: see `Drop` in docs/DECISIONS.md.
impl Drop for Entry {
    fn drop(self) {
        let Entry {
            at: _,
            by: _,
            act: _,
            reply: _,
        } = self;
    }
}

impl Entry {
    /// A copy of the entry.
    ///
    /// # Errors
    ///
    /// `AllocError` where an allocation for the act's lists fails.
    pub fn try_copy(&self, alloc: Global) -> Result<Entry, AllocError>
        ensures equal { IfOk result (λ copy. copy ≡ self.now) }
        ensures plain { holds_list self.now.act ≡ false → IsOk result }
    {
        Ok(Entry {
            at: self.at,
            by: self.by,
            act: self.act.try_copy(alloc)?,
            reply: self.reply,
        })
    }

    /// Takes the entry apart: its place, who acted, the act, and the reply.
    pub fn into_parts(self) -> (u32, u32, Act, Reply)
        ensures { result ≡ (self.at, self.by, self.act, self.reply) }
    {
        let Entry { at, by, act, reply } = self;
        (at, by, act, reply)
    }
}
