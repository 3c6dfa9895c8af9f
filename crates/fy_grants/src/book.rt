//! The book of grants and protections.
ghost use Rattle.std.specs.Prelude.{◌≡◌, ◌<◌, ◌&&◌, not, ℕ, length, [], map, replicate, Some, None, IfOk, IfErr, IsOk, OnOk, OnErr};
ghost use Rattle.std.specs.FinSet as sets;
ghost use Rattle.fy_kinds.specs.Kinds.{in_either, in_first_alone};
ghost use Rattle.fy_grants.specs.Covers.{bare};
ghost use Rattle.fy_grants.specs.Least.{LeastWith};
ghost use Rattle.fy_grants.specs.Rights.{grants_of, protections_of, no_rights, is_covered, is_protected, give_refusal, with_grant, take_refusal, without_grant, with_protection};
ghost use Rattle.fy_grants.specs.declared.book.BookFault.TheVariants.{NoMemory};

use crate::Grant;
use crate::cover::Cover;
use crate::grant::push_last;
use crate::protections::Protections;
use crate::scopes::{is_covered, left_uncovered};
use fy_kinds::KindSet;
use fy_locality::{Map, ProcId, ProcSet};
use std::alloc::{AllocError, Global};
use std::marker::Model;

/// How many grants a book holds at most, of all actors together.
pub const MOST_GRANTS: usize = 4096;

/// The grants of each actor in the order in which they were given, at most [`MOST_GRANTS`] in all,
/// and for each process the kinds from which it is protected. The processes are those of a map, of
/// which it has a copy. Beside the grants of each actor stands whom they cover, so that nobody
/// looks through grants for it.
pub struct Book {
    processes: Map,
    grants: Vec<Vec<Grant>>,
    given: usize,
    covers: Vec<Cover>,
    protections: Protections,
}

impl Model for Book {
    ghost use Rattle.std.specs.Prelude.{map};
    ghost use Rattle.fy_grants.specs.Rights.{Rights};

    ghost Value = { Rights };

    ghost view = { λ b. record {
      processes = b.processes;
      grants = map (λ own. own.items) b.grants.items;
      protections = b.protections;
    } };

    ghost use Rattle.fy_grants.specs.Covers.{IsGrantBook};

    ghost invariant = { λ b.
        IsGrantBook b.processes (map (λ own. own.items) b.grants.items) b.given b.covers.items };
}

// Written out and not derived: see `Drop` in docs/DECISIONS.md.
impl Drop for Book {
    fn drop(self) {
        let Book {
            processes: _,
            grants: _,
            given: _,
            covers: _,
            protections: _,
        } = self;
    }
}

impl Book {
    ghost use Rattle.fy_grants.specs.declared.book.BookFault.{BookFault};

    /// A book for so many actors and the processes of a map, without grants and protections.
    ///
    /// # Errors
    ///
    /// Where an allocation fails.
    pub fn make(alloc: Global, actors: u32, map: &Map) -> Result<Book, AllocError>
        ensures { IfOk result (λ book. book ≡ no_rights actors map.now) }
    {
        Ok(Book {
            processes: map.try_copy(alloc)?,
            grants: no_grants(alloc, actors)?,
            given: 0,
            covers: bare_covers(alloc, actors)?,
            protections: Protections::make(alloc, map.len())?,
        })
    }

    /// An equal book, in memory of its own.
    ///
    /// # Errors
    ///
    /// Where an allocation fails.
    pub fn try_copy(&self, alloc: Global) -> Result<Book, AllocError>
        ensures { IfOk result (λ copy. copy ≡ self.now) }
    {
        Ok(Book {
            processes: self.processes.try_copy(alloc)?,
            grants: copied_grants(alloc, &self.grants)?,
            given: self.given,
            covers: Vec::from_slice(alloc, &self.covers)?,
            protections: self.protections.try_copy(alloc)?,
        })
    }

    /// How many actors there are.
    pub fn actors(&self) -> usize
        ensures { result ≡ length self.now.grants }
    {
        self.grants.len()
    }

    /// How many processes there are.
    pub fn processes(&self) -> usize
        ensures { result ≡ length self.now.protections }
    {
        self.protections.len()
    }

    /// One more grant, last in its actor's list.
    ///
    /// # Errors
    ///
    /// In this order: `NoActor`; `Full` where [`MOST_GRANTS`] are there already; `NoMemory`. A
    /// refused grant leaves the book as it was.
    pub fn give(&mut self, grant: Grant) -> Result<(), BookFault>
        ensures refused { (fault : BookFault)
            → give_refusal self.old grant ≡ Some fault → result ≡ Err fault }
        ensures memory { give_refusal self.old grant ≡ None
            → IfErr result (λ fault. fault ≡ NoMemory) }
        ensures given { OnOk result (self.new ≡ with_grant self.old grant) }
        ensures err { OnErr result (self.new ≡ self.old) }
    {
        let actor = grant.actor as usize;
        if actor >= self.grants.len() {
            return Err(BookFault::NoActor);
        }
        if self.given >= MOST_GRANTS {
            return Err(BookFault::Full);
        }
        push_last(&mut self.grants[actor], grant)?;
        self.covers[actor].add(&grant, &self.processes);
        self.given += 1;
        Ok(())
    }

    /// Takes a grant away, by its place in its actor's list, which closes up.
    ///
    /// # Errors
    ///
    /// In this order: `NoActor`; `NoSuch` where the actor has no grant at this place.
    pub fn take(&mut self, actor: u32, index: u32) -> Result<(), BookFault>
        ensures refused { (fault : BookFault)
            → take_refusal self.old actor index ≡ Some fault → result ≡ Err fault }
        ensures accepted { take_refusal self.old actor index ≡ None → IsOk result }
        ensures taken { OnOk result (self.new ≡ without_grant self.old actor index) }
        ensures err { OnErr result (self.new ≡ self.old) }
    {
        let (actor, index) = (actor as usize, index as usize);
        if actor >= self.grants.len() {
            return Err(BookFault::NoActor);
        }
        if index >= self.grants[actor].len() {
            return Err(BookFault::NoSuch);
        }
        let _ = self.grants[actor].remove(index);
        // What the others cover isn't known without a look at each of them.
        self.covers[actor] = Cover::of(&self.grants[actor], &self.processes);
        self.given -= 1;
        Ok(())
    }

    /// Adds to the kinds from which a process is protected.
    pub fn protect(&mut self, p: ProcId, kinds: KindSet)
        requires { p.0 < length self.old.protections }
        ensures { self.new
            ≡ with_protection self.old p.0 (in_either (protections_of self.old p.0) kinds) }
    {
        let kinds = self.protections.at(p).union(kinds);
        self.protections.put(p, kinds);
    }

    /// Takes out of the kinds from which a process is protected.
    pub fn unprotect(&mut self, p: ProcId, kinds: KindSet)
        requires { p.0 < length self.old.protections }
        ensures { self.new
            ≡ with_protection self.old p.0 (in_first_alone (protections_of self.old p.0) kinds) }
    {
        let kinds = self.protections.at(p).difference(kinds);
        self.protections.put(p, kinds);
    }

    /// The grants of an actor; an actor that isn't there has none.
    pub fn grants(&self, actor: u32) -> &[Grant]
        ensures { result.now ≡ grants_of self.now actor }
    {
        match self.grants.get(actor as usize) {
            Some(grants) => grants.as_slice(),
            None => &[],
        }
    }

    /// The kinds from which a process is protected.
    pub fn protections(&self, p: ProcId) -> KindSet
        requires { p.0 < length self.now.protections }
        ensures { result ≡ protections_of self.now p.0 }
    {
        self.protections.at(p)
    }

    /// The least process of a set that no grant of the actor with all these kinds covers. An actor
    /// that isn't there has no grants. Of one kind no grant is looked at.
    pub fn uncovered(&self, actor: u32, kinds: KindSet, set: &ProcSet) -> Option<ProcId>
        ensures { LeastWith (sets.contains set.now)
            (λ q. not (is_covered self.now.processes (grants_of self.now actor) kinds q)) result }
    {
        self.uncovered_in(actor, kinds, set).least()
    }

    /// The processes of a set that no grant of the actor with all these kinds covers.
    fn uncovered_in(&self, actor: u32, kinds: KindSet, set: &ProcSet) -> ProcSet
        ensures { (q : ℕ) → sets.contains result q ≡ (sets.contains set.now q
            && not (is_covered self.now.processes (grants_of self.now actor) kinds q)) }
    {
        let Some(cover) = self.covers.get(actor as usize) else {
            return *set;
        };
        match cover.uncovered_in(kinds, set) {
            Some(open) => open,
            None => left_uncovered(self.grants(actor), kinds, &self.processes, set),
        }
    }

    /// Whether a grant of the actor with all these kinds covers a process: what
    /// [`Book::uncovered`] answers of that process alone. Of one kind no grant is looked at.
    pub fn covers(&self, actor: u32, kinds: KindSet, p: ProcId) -> bool
        ensures { result
            ≡ is_covered self.now.processes (grants_of self.now actor) kinds p.0 }
    {
        let Some(cover) = self.covers.get(actor as usize) else {
            return false;
        };
        match cover.covers(kinds, p) {
            Some(is) => is,
            None => is_covered(self.grants(actor), kinds, &self.processes, p),
        }
    }

    /// Whether a process is protected from some of these kinds: what [`Book::barred`] answers of
    /// that process alone.
    pub fn protects(&self, kinds: KindSet, p: ProcId) -> bool
        ensures { result ≡ is_protected self.now kinds p.0 }
    {
        self.protections.shields(kinds, p)
    }

    /// The least process of a set that is protected from some of these kinds. A process that isn't
    /// there is protected from none.
    pub fn barred(&self, kinds: KindSet, set: &ProcSet) -> Option<ProcId>
        ensures { LeastWith (sets.contains set.now) (is_protected self.now kinds) result }
    {
        self.protections.least(kinds, set)
    }
}

/// Why a grant was not given or taken.
#[derive(Clone, Copy, PartialEq, Eq, Debug)]
pub enum BookFault {
    /// There is no actor with this number.
    NoActor,
    /// The actor has no grant at this place.
    NoSuch,
    /// [`MOST_GRANTS`] are there already.
    Full,
    /// An allocation failed.
    NoMemory,
}

impl From<AllocError> for BookFault {
    ghost use Rattle.fy_grants.specs.declared.book.BookFault.TheVariants.{NoMemory};
    ghost use Rattle.std.specs.Prelude.{◌≡◌};

    ghost from_gives = { λ _ e. e ≡ NoMemory };

    fn from(_: AllocError) -> BookFault {
        BookFault::NoMemory
    }
}

/// As many empty lists of grants as there are actors.
fn no_grants(alloc: Global, actors: u32) -> Result<Vec<Vec<Grant>>, AllocError>
    ensures { IfOk result (λ lists. map (λ own. own.items) lists.items ≡ replicate actors []) }
{
    let mut lists = Vec::new(alloc);
    for _actor in 0..actors {
        lists.push(Vec::new(alloc))?;
    }
    Ok(lists)
}

/// A copy of each actor's list of grants.
fn copied_grants(alloc: Global, lists: &[Vec<Grant>]) -> Result<Vec<Vec<Grant>>, AllocError>
    ensures { IfOk result (λ copies.
        map (λ own. own.items) copies.items ≡ map (λ own. own.items) lists.now) }
{
    let mut copies = Vec::with_capacity(alloc, lists.len())?;
    for own in lists {
        copies.push_reserved(Vec::from_slice(alloc, own)?);
    }
    Ok(copies)
}

/// As many covers of no grants as there are actors.
fn bare_covers(alloc: Global, actors: u32) -> Result<Vec<Cover>, AllocError>
    ensures { IfOk result (λ covers. covers.items ≡ replicate actors bare) }
{
    let mut covers = Vec::new(alloc);
    for _actor in 0..actors {
        covers.push(Cover::bare())?;
    }
    Ok(covers)
}
