//! A record as it is kept, with how many members have not marked it.
ghost use Rattle.std.specs.Prelude.{◌≡◌, ◌<◌, ◌&&◌, ◌||◌, not, false};
ghost use Rattle.std.specs.FinSet as sets;
ghost use Rattle.fy_team.specs.Teams.{unmarked, all_marked, healed_record, is_among};
ghost use Rattle.fy_team.specs.Counts.{CountsMissing, WasMissing, missing_among, recounted};

use crate::Members;
use fy_disk::Payload;
use fy_locality::{MOST_PROCESSES, ProcId, ProcSet, TryCopy};
use std::alloc::{AllocError, Global};
use std::marker::Model;

/// A record: the number of its team, its payload, the processes that have marked it, how many
/// members of its team haven't, and whether it is acknowledged. Once it is, the count of members is
/// neither kept nor read.
pub(crate) struct KeptRecord {
    team: u32,
    payload: Payload,
    marks: ProcSet,
    missing: usize,
    acked: bool,
}

impl Model for KeptRecord {
    ghost use Rattle.std.specs.Coded.{codes, coded_ℕ};
    ghost use Rattle.std.specs.FinSet as sets;
    ghost use Rattle.std.specs.Ordering.{nat_cmp};
    ghost use Rattle.fy_team.specs.Counts.{Counted};

    ghost Value = { Counted };

    ghost coded = { Prim.hlevel (codes, sets.code {R = nat_cmp} coded_ℕ) };

    ghost view = { λ r. record {
      held = record { team = r.team; payload = r.payload; marks = r.marks; acked = r.acked };
      missing = r.missing;
    } };
}

// Written out and not derived: see `Drop` in docs/DECISIONS.md.
impl Drop for KeptRecord {
    fn drop(self) {
        let KeptRecord {
            team: _,
            payload: _,
            marks: _,
            missing: _,
            acked: _,
        } = self;
    }
}

impl TryCopy for KeptRecord {
    fn try_copy(&self, alloc: Global) -> Result<KeptRecord, AllocError> {
        Ok(KeptRecord {
            team: self.team,
            payload: self.payload.try_copy(alloc)?,
            marks: self.marks,
            missing: self.missing,
            acked: self.acked,
        })
    }
}

impl KeptRecord {
    /// A record without marks, not acknowledged, of a team with these members. Doesn't allocate.
    pub(crate) fn make(team: u32, payload: Payload, members: &Members) -> KeptRecord
        ensures held { result.held ≡ unmarked team payload }
        ensures counted { CountsMissing members.now result }
    {
        KeptRecord {
            team,
            payload,
            marks: ProcSet::empty(),
            missing: members.as_slice().len(),
            acked: false,
        }
    }

    /// The number of its team.
    pub(crate) fn team(&self) -> u32
        ensures { result ≡ self.now.held.team }
    {
        self.team
    }

    /// The payload that the record holds.
    pub(crate) fn payload(&self) -> &Payload
        ensures { result.now ≡ self.now.held.payload }
    {
        &self.payload
    }

    /// Marks it by a process. The members are those of its team: once each has marked it, it is
    /// acknowledged.
    pub(crate) fn mark(&mut self, p: ProcId, members: &Members)
        requires small { p.0 < MOST_PROCESSES }
        requires counted { CountsMissing members.now self.old }
        ensures held { let marks = sets.insert self.old.held.marks p.0 in
            self.new.held ≡ record self.old.held {
              marks = marks;
              acked = self.old.held.acked || all_marked marks members.now;
            } }
        ensures counted { CountsMissing members.now self.new }
    {
        members.invariant();
        let fewer = self.is_missing(p, members);
        self.marks.put(p);
        if !self.acked {
            self.missing -= usize::from(fewer);
            self.acked = self.missing == 0;
        }
    }

    /// Takes a process's mark off, unless the record is acknowledged. The members are those of its
    /// team.
    pub(crate) fn heal(&mut self, p: ProcId, members: &Members)
        requires { CountsMissing members.now self.old }
        ensures held { self.new.held ≡ healed_record p.0 self.old.held }
        ensures counted { CountsMissing members.now self.new }
    {
        if !self.acked && self.marks.contains(p) {
            self.marks.invariant();
            members.invariant();
            self.marks.drop_one(p);
            self.missing += usize::from(members.has(p));
        }
    }

    /// Counts the missing marks anew if it is of the team with this number, which now has these
    /// members, and isn't acknowledged. A process has come for one that was a member.
    pub(crate) fn recount(&mut self, team: u32, out: ProcId, into: ProcId, members: &Members)
        requires { self.old.held.team ≡ team → WasMissing out into members.now self.old }
        ensures { self.new ≡ recounted team members.now self.old }
    {
        if self.team == team && !self.acked {
            self.missing = self.missing_after(out, into, members);
        }
    }

    /// Whether it is acknowledged.
    pub(crate) fn acked(&self) -> bool
        ensures { result ≡ self.now.held.acked }
    {
        self.acked
    }

    /// Whether a process has marked it.
    pub(crate) fn has_mark(&self, p: ProcId) -> bool
        ensures { result ≡ sets.contains self.now.held.marks p.0 }
    {
        self.marks.contains(p)
    }

    /// Whether a process is one of the members that haven't marked it.
    fn is_missing(&self, p: ProcId, members: &Members) -> bool
        ensures { result ≡
            (not (sets.contains self.now.held.marks p.0) && is_among members.now p.0) }
    {
        !self.has_mark(p) && members.has(p)
    }

    /// How many of these members haven't marked it, once a process has come for one that was a
    /// member. None of them is asked.
    fn missing_after(&self, out: ProcId, into: ProcId, members: &Members) -> usize
        requires right { WasMissing out into members.now self.now }
        requires unacked { self.now.held.acked ≡ false }
        ensures { result ≡ missing_among self.now.held.marks members.now }
    {
        members.invariant();
        self.missing + usize::from(self.lacks(into)) - usize::from(self.lacks(out))
    }

    /// Whether a process hasn't marked it.
    fn lacks(&self, p: ProcId) -> bool
        ensures { result ≡ not (sets.contains self.now.held.marks p.0) }
    {
        !self.has_mark(p)
    }
}
