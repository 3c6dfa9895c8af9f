//! A set of processes, a bit for each.
ghost use Rattle.std.specs.Prelude.{◌≡◌, ◌↔◌, ◌<◌, ◌≤◌, ◌==◌, nat_lt, ℕ, true, IsTrue, IfSome, IfNone};
ghost use Rattle.std.specs.Int.{bit_at};
ghost use Rattle.std.specs.Ordering.{nat_cmp};
ghost use Rattle.std.specs.FinSet as sets;
ghost use Rattle.fy_locality.specs.Members.{IsLeast, StartsAt, AreSmall, members};

use crate::{MOST_PROCESSES, ProcId, Processes};
use std::marker::Model;

/// How many words of 64 bits have a bit for each process.
pub const SET_WORDS: usize = MOST_PROCESSES as usize / 64;

/// A set of processes, each below 1024. It doesn't allocate and is `Copy`.
#[derive(Clone, Copy)]
pub struct ProcSet {
    words: [u64; SET_WORDS],
}

impl Model for ProcSet {
    ghost use Rattle.std.specs.Ordering.{nat_cmp};
    ghost use Rattle.std.specs.FinSet as sets;
    ghost use Rattle.std.specs.Coded.{coded_ℕ};

    ghost Value = { sets.FinSet nat_cmp };

    ghost coded = { sets.code coded_ℕ };

    ghost use Rattle.fy_locality.specs.Members.{members, set_words, AreWords};
    ghost use Rattle.fy_locality.specs.MembersInverse.{set_words-members};

    ghost view = { λ s. members s.words };

    ghost invariant = { λ s. AreWords s.words };

    ghost inverse = { λ v. record { words = set_words v } };

    ghost inverse_ok = { λ a h. λ i. record { words = set_words-members a.words h i } };
}

impl ProcSet {
    /// The set of no process.
    pub fn empty() -> Self
        ensures { result ≡ sets.empty }
    {
        ProcSet {
            words: [0; SET_WORDS],
        }
    }

    /// The processes with a number below this one.
    pub(crate) fn below(count: u32) -> Self
        requires { count ≤ MOST_PROCESSES }
        ensures { (q : ℕ) → sets.contains result q ≡ nat_lt q count }
    {
        let mut words = [0; SET_WORDS];
        for k in 0..SET_WORDS {
            words[k] = low_bits(count.saturating_sub(k as u32 * 64));
        }
        ProcSet { words }
    }

    /// Puts a process in.
    pub fn put(&mut self, p: ProcId)
        requires { p.0 < MOST_PROCESSES }
        ensures { self.new ≡ sets.insert self.old p.0 }
    {
        self.words[p.0 as usize / 64] |= 1u64 << (p.0 % 64);
    }

    /// Takes a process out.
    pub fn drop_one(&mut self, p: ProcId)
        requires { p.0 < MOST_PROCESSES }
        ensures { self.new ≡ sets.remove self.old p.0 }
    {
        self.words[p.0 as usize / 64] &= !(1u64 << (p.0 % 64));
    }

    /// Whether a process is in the set.
    pub fn has(&self, p: ProcId) -> bool
        requires { p.0 < MOST_PROCESSES }
        ensures { result ≡ sets.contains self.now p.0 }
    {
        self.words[p.0 as usize / 64] & (1u64 << (p.0 % 64)) != 0
    }

    /// Whether a process with any number is in the set. None of 1024 or more is.
    pub fn contains(&self, p: ProcId) -> bool
        ensures { result ≡ sets.contains self.now p.0 }
    {
        self.invariant();
        p.0 < MOST_PROCESSES && self.has(p)
    }

    /// The set as words of 64 bits: bit p % 64 of word p / 64 is 1 where process p is in it.
    pub fn words(&self) -> [u64; SET_WORDS]
        ensures { members result ≡ self.now }
    {
        self.words
    }

    /// How many processes are in the set.
    pub fn len(&self) -> u32
        ensures count { result ≡ sets.len self.now }
        ensures bounded { result ≤ MOST_PROCESSES }
    {
        let mut count = 0;
        for word in &self.words {
            count += word.count_ones();
        }
        count
    }

    /// Whether no process is in the set.
    pub fn is_empty(&self) -> bool
        ensures { IsTrue result ↔ (self.now ≡ sets.empty) }
    {
        match self.least() {
            Some(_) => false,
            None => true,
        }
    }

    /// The least process in the set.
    pub fn least(&self) -> Option<ProcId>
        ensures some { IfSome result (λ p. IsLeast self.now p.0) }
        ensures small { IfSome result (λ p. p.0 < MOST_PROCESSES) }
        ensures none { IfNone result (self.now ≡ sets.empty) }
    {
        self.least_from(0)
    }

    /// The least process in the set, which has none below the word at this place.
    pub(crate) fn least_from(&self, first: usize) -> Option<ProcId>
        requires { StartsAt first self.now }
        ensures some { IfSome result (λ p. IsLeast self.now p.0) }
        ensures small { IfSome result (λ p. p.0 < MOST_PROCESSES) }
        ensures none { IfNone result (self.now ≡ sets.empty) }
    {
        for k in first..SET_WORDS {
            let word = self.words[k];
            if word != 0 {
                return Some(ProcId(k as u32 * 64 + word.trailing_zeros()));
            }
        }
        None
    }

    /// The processes in the set, by rising number.
    pub fn iter(&self) -> Processes
        ensures { result ≡ self.now }
    {
        Processes {
            rest: *self,
            first: 0,
        }
    }

    /// The processes of either set.
    pub fn union(&self, other: &ProcSet) -> ProcSet
        ensures { result ≡ sets.union self.now other.now }
    {
        let mut words = self.words;
        for k in 0..SET_WORDS {
            words[k] |= other.words[k];
        }
        ProcSet { words }
    }

    /// The processes of both sets.
    pub fn intersection(&self, other: &ProcSet) -> ProcSet
        ensures { result ≡ sets.intersection self.now other.now }
    {
        let mut words = self.words;
        for k in 0..SET_WORDS {
            words[k] &= other.words[k];
        }
        ProcSet { words }
    }

    /// The processes of this set that aren't in the other.
    pub fn difference(&self, other: &ProcSet) -> ProcSet
        ensures { result ≡ sets.difference self.now other.now }
    {
        let mut words = self.words;
        for k in 0..SET_WORDS {
            words[k] &= !other.words[k];
        }
        ProcSet { words }
    }

    /// Every member is below 1024.
    pub fn invariant(&self)
        ensures { AreSmall self.now }
    {
        let _words = &self.words;
    }
}

/// A word whose lowest bits are 1, so many of them, or all if it hasn't so many.
fn low_bits(count: u32) -> u64
    ensures { (i : ℕ) → i < 64 → (bit_at result i == 1) ≡ nat_lt i count }
{
    if count < 64 {
        (1u64 << count) - 1
    } else {
        u64::MAX
    }
}
