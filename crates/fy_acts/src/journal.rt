//! The journal of a cluster.
ghost use Rattle.std.specs.Prelude.{◌≡◌, ◌+◌, ◌<◌, ◌≤◌, Err, max, length, slice_get, IsOk, IfOk, IfErr, IfSome, OnOk, OnErr};
ghost use Rattle.std.specs.Option.{option_copied};
ghost use Rattle.fy_acts.specs.Journal.{empty_journal, entered, IsLog};
ghost use Rattle.fy_acts.specs.declared.fault.JournalFault.TheVariants.{TooMany, NoMemory};
ghost use Rattle.fy_acts.specs.declared.version.Version.TheVariants.{First, Second};

use crate::{Act, Entry, JournalFault, MOST_ENTRIES, Reply, Version};
use std::alloc::{AllocError, Global};
use std::marker::Model;

/// Every act asked of a cluster with its reply, the oldest first. Each entry is numbered by its
/// place.
pub struct Journal {
    version: Version,
    entries: Vec<Entry>,
    room: usize,
}

impl Model for Journal {
    ghost use Rattle.fy_acts.specs.Journal.{Log};

    ghost Value = { Log };

    ghost use Rattle.fy_acts.specs.Kept.{log, JournalInvariant};

    ghost view = { log };

    ghost invariant = { JournalInvariant };
}

// Written out and not derived: see `Drop` in docs/DECISIONS.md.
impl Drop for Journal {
    fn drop(self) {
        let Journal {
            version: _,
            entries: _,
            room: _,
        } = self;
    }
}

impl Journal {
    /// A journal of the second version, without entries and without room. Doesn't allocate.
    pub fn make(alloc: Global) -> Journal
        ensures { result ≡ empty_journal Second }
    {
        Journal::of_version(alloc, Version::Second)
    }

    /// A journal of the first version, without entries and without room. Doesn't allocate.
    pub fn make_first(alloc: Global) -> Journal
        ensures { result ≡ empty_journal First }
    {
        Journal::of_version(alloc, Version::First)
    }

    /// A journal of a version, without entries and without room. Doesn't allocate.
    pub fn of_version(alloc: Global, version: Version) -> Journal
        ensures { result ≡ empty_journal version }
    {
        Journal {
            version,
            entries: Vec::new(alloc),
            room: 0,
        }
    }

    /// An equal journal, in memory of its own.
    ///
    /// # Errors
    ///
    /// `AllocError` only if an allocation fails.
    pub fn try_copy(&self, alloc: Global) -> Result<Journal, AllocError>
        ensures { IfOk result (λ copy. copy ≡ self.now) }
    {
        let mut entries = Vec::with_capacity(alloc, self.entries.capacity())?;
        for entry in &self.entries {
            entries.push_reserved(entry.try_copy(alloc)?);
        }
        Ok(Journal {
            version: self.version,
            entries,
            room: self.room,
        })
    }

    /// The version of the rules by which the journal is read. It never changes.
    pub fn version(&self) -> Version
        ensures { result ≡ self.now.version }
    {
        self.version
    }

    /// Makes sure that there is room for `count` pushes.
    ///
    /// # Errors
    ///
    /// In order: `TooMany` if with them there would be more than 2^32 entries; `NoMemory`. The
    /// journal is then as it was.
    pub fn reserve(&mut self, count: usize) -> Result<(), JournalFault>
        ensures refused { MOST_ENTRIES < length self.old.entries + count → result ≡ Err TooMany }
        ensures memory { length self.old.entries + count ≤ MOST_ENTRIES →
            IfErr result (λ fault. fault ≡ NoMemory) }
        ensures there { count ≤ self.old.room → IsOk result }
        ensures ok { OnOk result (self.new ≡ record self.old { room = max self.old.room count }) }
        ensures err { OnErr result (self.new ≡ self.old) }
    {
        if count > MOST_ENTRIES - self.entries.len() {
            return Err(JournalFault::TooMany);
        }
        self.entries.reserve(count)?;
        self.room = self.room.max(count);
        Ok(())
    }

    /// Appends an act by the actor with this number, with its reply. It uses up one place of the
    /// room, and doesn't allocate.
    pub fn push(&mut self, by: u32, act: Act, reply: Reply)
        requires { 0 < self.old.room }
        ensures { self.new ≡ entered by act reply self.old }
    {
        let at = self.len() as u32;
        self.entries.push_reserved(Entry { at, by, act, reply });
        self.room -= 1;
    }

    /// How many entries there are.
    pub fn len(&self) -> usize
        ensures { result ≡ length self.now.entries }
    {
        self.entries.len()
    }

    /// The entry at a place, from 0.
    pub fn entry(&self, place: usize) -> Option<&Entry>
        ensures entry { option_copied result ≡ slice_get self.now.entries place }
        ensures number { IfSome result (λ entry. entry.now.at ≡ place) }
    {
        self.entries.get(place)
    }

    /// All entries, the oldest first.
    pub fn entries(&self) -> &[Entry]
        ensures { result.now ≡ self.now.entries }
    {
        self.entries.as_slice()
    }

    /// Each entry is numbered by its place, and with the room there are no more than 2^32.
    pub fn invariant(&self)
        ensures { IsLog self.now }
    {
        let _entries = &self.entries;
    }
}
