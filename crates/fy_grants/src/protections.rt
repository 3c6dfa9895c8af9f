//! The kinds from which each process is protected, with the set of those that are.
ghost use Rattle.std.specs.Prelude.{◌≡◌, ◌<◌, ◌≤◌, replicate, length, slice_set, slice_index_or, IfOk};
ghost use Rattle.std.specs.FinSet as sets;
ghost use Rattle.fy_locality.specs.declared.TheConstants.{MOST_PROCESSES};
ghost use Rattle.fy_kinds.specs.Kinds.{no_deed, has_some};
ghost use Rattle.fy_grants.specs.Least.{LeastWith};

use fy_kinds::KindSet;
use fy_locality::{MOST_PROCESSES, ProcId, ProcSet};
use std::alloc::{AllocError, Global};
use std::marker::Model;

/// For each process the kinds from which it is protected.
///
/// `noted` has each process that is protected from some, so that nobody looks at the others.
pub(crate) struct Protections {
    kinds: Vec<KindSet>,
    noted: ProcSet,
}

impl Model for Protections {
    ghost use Rattle.std.specs.Prelude.{List};
    ghost use Rattle.fy_kinds.specs.declared.kind_set.KindSet.{KindSet};
    ghost use Rattle.fy_grants.specs.Protections.{AreNoted};

    ghost Value = { List KindSet };

    ghost view = { λ p. p.kinds.items };

    ghost invariant = { λ p. AreNoted p.kinds.items p.noted };
}

// Written out and not derived: see `Drop` in docs/DECISIONS.md.
impl Drop for Protections {
    fn drop(self) {
        let Protections { kinds: _, noted: _ } = self;
    }
}

impl Protections {
    /// No process is protected.
    ///
    /// # Errors
    ///
    /// Where an allocation fails.
    pub(crate) fn make(alloc: Global, processes: u32) -> Result<Protections, AllocError>
        requires { processes ≤ MOST_PROCESSES }
        ensures { IfOk result (λ made. made ≡ replicate processes no_deed) }
    {
        let kinds = no_protections(alloc, processes)?;
        let noted = ProcSet::empty();
        Ok(Protections { kinds, noted })
    }

    /// Equal protections, in memory of their own.
    ///
    /// # Errors
    ///
    /// Where an allocation fails.
    pub(crate) fn try_copy(&self, alloc: Global) -> Result<Protections, AllocError>
        ensures { IfOk result (λ copy. copy ≡ self.now) }
    {
        Ok(Protections {
            kinds: Vec::from_slice(alloc, &self.kinds)?,
            noted: self.noted,
        })
    }

    /// How many processes there are.
    pub(crate) fn len(&self) -> usize
        ensures { result ≡ length self.now }
    {
        self.kinds.len()
    }

    /// The kinds from which a process is protected.
    pub(crate) fn at(&self, p: ProcId) -> KindSet
        requires { p.0 < length self.now }
        ensures { result ≡ slice_index_or self.now p.0 no_deed }
    {
        self.kinds[p.0 as usize]
    }

    /// From now on a process is protected from these kinds.
    pub(crate) fn put(&mut self, p: ProcId, kinds: KindSet)
        requires { p.0 < length self.old }
        ensures { self.new ≡ slice_set self.old p.0 kinds }
    {
        self.kinds[p.0 as usize] = kinds;
        self.noted.put(p);
    }

    /// Whether a process is protected from some of these kinds. A process that isn't there is
    /// protected from none.
    pub(crate) fn shields(&self, kinds: KindSet, p: ProcId) -> bool
        ensures { result ≡ has_some (slice_index_or self.now p.0 no_deed) kinds }
    {
        match self.kinds.get(p.0 as usize) {
            Some(own) => own.intersects(kinds),
            None => false,
        }
    }

    /// The least process of a set that is protected from some of these kinds.
    pub(crate) fn least(&self, kinds: KindSet, set: &ProcSet) -> Option<ProcId>
        ensures { LeastWith (sets.contains set.now)
            (λ q. has_some (slice_index_or self.now q no_deed) kinds) result }
    {
        for p in set.intersection(&self.noted).iter() {
            if self.shields(kinds, p) {
                return Some(p);
            }
        }
        None
    }
}

/// As many empty sets of kinds as there are processes.
fn no_protections(alloc: Global, processes: u32) -> Result<Vec<KindSet>, AllocError>
    ensures { IfOk result (λ sets. sets.items ≡ replicate processes no_deed) }
{
    let mut sets = Vec::new(alloc);
    for _process in 0..processes {
        sets.push(KindSet::empty())?;
    }
    Ok(sets)
}
