//! The journal of a cluster's state, which clauses alone read.
ghost use Rattle.std.specs.Prelude.{◌≡◌, ◌<◌, ◌≤◌, ◌++◌, ◌∷◌, [], length, IfOk};
ghost use Rattle.fy_cluster.specs.declared.config.TheConstants.{MOST_JOURNAL_ENTRIES};

use crate::MOST_JOURNAL_ENTRIES;
use fy_acts::Entry;
use std::alloc::{AllocError, Global};
use std::marker::Model;
use std::snapshot::Snapshot;

/// The entries of a journal as clauses see them, the oldest first. A snapshot has no bytes, so a
/// trail takes no space, however many entries it has: only their number is there at run time.
#[derive(Drop)]
pub(crate) struct Trail {
    entries: Vec<Snapshot<Entry>>,
}

impl Model for Trail {
    ghost use Rattle.std.specs.Prelude.{List};
    ghost use Rattle.fy_acts.specs.declared.entry.Entry.{Entry};

    ghost Value = { List Entry };

    ghost use Rattle.fy_cluster.specs.Trail.{seen_entries, HasRoom};

    ghost view = { seen_entries };

    ghost invariant = { HasRoom };
}

impl Trail {
    /// No entries. Room is asked for at once for as many as a journal may have, which is none.
    ///
    /// # Errors
    ///
    /// `AllocError` where a request for no bytes is refused.
    pub(crate) fn make(alloc: Global) -> Result<Trail, AllocError>
        ensures { IfOk result (λ trail. trail ≡ []) }
    {
        let mut entries = Vec::new(alloc);
        entries.reserve(MOST_JOURNAL_ENTRIES as usize)?;
        Ok(Trail { entries })
    }

    /// These entries.
    ///
    /// # Errors
    ///
    /// As of [`Trail::make`].
    pub(crate) fn of(alloc: Global, entries: &[Entry]) -> Result<Trail, AllocError>
        requires { length entries.now ≤ MOST_JOURNAL_ENTRIES }
        ensures { IfOk result (λ trail. trail ≡ entries.now) }
    {
        let mut trail = Trail::make(alloc)?;
        for entry in entries {
            trail.push(entry);
        }
        Ok(trail)
    }

    /// Appends an entry. Doesn't allocate.
    pub(crate) fn push(&mut self, entry: &Entry)
        requires { length self.old < MOST_JOURNAL_ENTRIES }
        ensures { self.new ≡ self.old ++ entry.now ∷ [] }
    {
        self.entries.push_reserved(Snapshot::of(entry));
    }

    /// How many entries there are.
    pub(crate) fn len(&self) -> usize
        ensures { result ≡ length self.now }
    {
        self.entries.len()
    }
}
