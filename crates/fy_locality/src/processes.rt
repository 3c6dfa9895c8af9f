//! The processes of a set one after another.
ghost use Rattle.std.specs.Iterator.{at_most};
ghost use Rattle.std.specs.FinSet as sets;
ghost use Rattle.fy_locality.specs.Members.{TakesLeast};

use crate::{ProcId, ProcSet};
use std::marker::Model;

/// What is left of a set, by rising number. `ProcSet::iter` makes one. No process of it is below
/// the word at the place `first`, so that the words before it are passed over once.
#[derive(Drop)]
pub struct Processes {
    pub(crate) rest: ProcSet,
    pub(crate) first: usize,
}

impl Model for Processes {
    ghost use Rattle.std.specs.Ordering.{nat_cmp};
    ghost use Rattle.std.specs.FinSet as sets;
    ghost use Rattle.std.specs.Coded.{coded_ℕ};

    ghost Value = { sets.FinSet nat_cmp };

    ghost coded = { sets.code coded_ℕ };

    ghost view = { λ it. it.rest };

    ghost use Rattle.fy_locality.specs.Members.{StartsAt};

    ghost invariant = { λ it. StartsAt it.first it.rest };
}

impl Iterator for Processes {
    type Item = ProcId;

    ghost next_gives = { λ s item t. TakesLeast s item t };

    ghost remaining = { λ s. at_most (sets.len s) };

    fn next(&mut self) -> Option<ProcId> {
        match self.rest.least_from(self.first) {
            Some(least) => {
                self.first = least.0 as usize / 64;
                self.rest.drop_one(least);
                Some(least)
            }
            None => None,
        }
    }
}
