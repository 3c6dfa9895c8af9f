//! The teams and their records.
ghost use Rattle.std.specs.Prelude.{◌≡◌, ◌==◌, ℕ, false, slice_index, take, ◌<◌, ◌≤◌, ◌+◌, ◌*◌, Some, None, length, map, option_map, slice_get, IfOk, IfErr, IsOk, OnOk, OnErr};
ghost use Rattle.std.specs.Option.{option_copied};
ghost use Rattle.fy_team.specs.Teams.{no_teams, IsFormed, AreFormed, unfit, form_refusal, with_team, team_number, members_in, is_member, policy_in, payload_in, begin_refusal, with_record, marked_by, is_marked, is_acked, replaced, MayReplace, healed, records_of, IsRoster};
ghost use Rattle.std.specs.List.{All, list_any};
ghost use Rattle.fy_team.specs.Counts.{recounted, TeamsInvariant, WasMissing};
ghost use Rattle.fy_team.specs.Index.{ChangedAmong, HealedWithin, MarksSeen};
ghost use Rattle.fy_team.specs.declared.fault.TeamFault.{TeamFault};
ghost use Rattle.fy_team.specs.declared.fault.TeamFault.TheVariants.{NoMemory};

use crate::blocks::{BLOCK, open_block};
use crate::forming::{set_of_fit, swap_in, unfit};
use crate::limits::{MOST_BYTES, MOST_RECORDS, MOST_TEAMS};
use crate::numbers::Numbers;
use crate::record::KeptRecord;
use crate::team::KeptTeam;
use crate::{Members, TeamFault, laws};
use fy_disk::Payload;
use fy_locality::{MOST_PROCESSES, Map, ProcId, ProcSet, try_copy_each};
use fy_policy::Policy;
use std::alloc::{AllocError, Global};
use std::marker::Model;

/// Teams, the records that were begun for them, and which processes have marked each record. Teams
/// and records are known by their numbers, from 0 in the order in which they came.
///
/// `numbers` has for each team the numbers of its records, so that a replacement looks at no
/// others. `marked` has for each block of records the processes that may have marked one that isn't
/// acknowledged, so that a heal passes over the blocks that a process has no mark in. `member_sets`
/// has the members of each team as a set.
pub struct Teams {
    teams: Vec<KeptTeam>,
    records: Vec<KeptRecord>,
    numbers: Vec<Numbers>,
    marked: Vec<ProcSet>,
    member_sets: Vec<ProcSet>,
}

impl Model for Teams {
    ghost use Rattle.std.specs.Coded.{codes, coded_ℕ};
    ghost use Rattle.std.specs.FinSet as sets;
    ghost use Rattle.std.specs.Ordering.{nat_cmp};
    ghost use Rattle.fy_team.specs.Teams.{Roster};
    ghost use Rattle.fy_team.specs.Counts.{roster_of};
    ghost use Rattle.fy_team.specs.Index.{TeamsHeld};

    ghost Value = { Roster };

    ghost coded = { Prim.hlevel (codes, sets.code {R = nat_cmp} coded_ℕ) };

    ghost view = { λ t. roster_of t.teams.items t.records.items };

    ghost invariant = { λ t. TeamsHeld t.teams.items t.records.items t.numbers.items t.marked.items
        t.member_sets.items };
}

// Written out and not derived: see `Drop` in docs/DECISIONS.md.
impl Drop for Teams {
    fn drop(self) {
        let Teams {
            teams: _,
            records: _,
            numbers: _,
            marked: _,
            member_sets: _,
        } = self;
    }
}

impl Teams {
    /// No team and no record. Doesn't allocate.
    pub fn make(alloc: Global) -> Teams
        ensures { result ≡ no_teams }
    {
        Teams {
            teams: Vec::new(alloc),
            records: Vec::new(alloc),
            numbers: Vec::new(alloc),
            marked: Vec::new(alloc),
            member_sets: Vec::new(alloc),
        }
    }

    /// Equal teams with equal records, in memory of their own.
    ///
    /// # Errors
    ///
    /// `AllocError` only if an allocation fails.
    pub fn try_copy(&self, alloc: Global) -> Result<Teams, AllocError>
        ensures { IfOk result (λ copy. copy ≡ self.now) }
    {
        Ok(Teams {
            teams: try_copy_each(alloc, &self.teams)?,
            records: try_copy_each(alloc, &self.records)?,
            numbers: try_copy_each(alloc, &self.numbers)?,
            marked: Vec::from_slice(alloc, &self.marked)?,
            member_sets: Vec::from_slice(alloc, &self.member_sets)?,
        })
    }

    /// Forms a team that names the policy with this number, and returns the team's number.
    ///
    /// # Errors
    ///
    /// In order: `TooMany` if there are 4096 teams already; `NoPolicy` if there is no such policy;
    /// `NoProcess` if a member is no process of the map; `Gone` if a member is in `gone`;
    /// `TeamShort` if the members don't satisfy the policy; `NoMemory`. A refused team leaves all
    /// as it was.
    pub fn form(
        &mut self,
        map: &Map,
        policies: &[Policy],
        gone: &ProcSet,
        members: Members,
        policy: u32,
    ) -> Result<u32, TeamFault>
        ensures refused { (fault : TeamFault) →
            form_refusal self.old map.now policies.now gone.now members policy ≡ Some fault →
            result ≡ Err fault }
        ensures memory { form_refusal self.old map.now policies.now gone.now members policy ≡ None →
            IfErr result (λ fault. fault ≡ NoMemory) }
        ensures number { IfOk result (λ team. team ≡ length self.old.teams) }
        ensures formed { OnOk result (self.new ≡ with_team members policy self.old) }
        ensures satisfied { OnOk result
            (IsFormed map.now policies.now (record { members = members; policy = policy })) }
        ensures kept { AreFormed map.now policies.now self.old.teams →
            AreFormed map.now policies.now self.new.teams }
        ensures err { OnErr result (self.new ≡ self.old) }
    {
        laws::fit_is_formed();
        if self.teams.len() >= MOST_TEAMS {
            return Err(TeamFault::TooMany);
        }
        let team = KeptTeam { members, policy };
        if let Some(fault) = unfit(map, policies, gone, &team) {
            return Err(fault);
        }
        let number = self.teams.len() as u32;
        let set = set_of_fit(map, &team);
        self.teams.reserve(1)?;
        let alloc = *self.numbers.allocator();
        self.numbers.push(Numbers::make(alloc))?;
        self.member_sets.push(set)?;
        self.teams.push_reserved(team);
        Ok(number)
    }

    /// Whether `begin` would accept such a record if no allocation fails. Doesn't allocate.
    ///
    /// # Errors
    ///
    /// In order: `NoTeam` if there is no such team; `Payload` if it has more than 256 bytes;
    /// `TooMany` if there are 65,536 records already.
    pub fn may_begin(&self, team: u32, payload: &Payload) -> Result<(), TeamFault>
        ensures refused { (fault : TeamFault) →
            begin_refusal self.now team payload.now ≡ Some fault → result ≡ Err fault }
        ensures accepted { begin_refusal self.now team payload.now ≡ None → IsOk result }
    {
        if team as usize >= self.teams.len() {
            return Err(TeamFault::NoTeam);
        }
        if payload.bytes().len() > MOST_BYTES {
            return Err(TeamFault::Payload);
        }
        if self.records.len() >= MOST_RECORDS {
            return Err(TeamFault::TooMany);
        }
        Ok(())
    }

    /// Begins a record for a team, with the room for all its marks, and returns the record's
    /// number.
    ///
    /// # Errors
    ///
    /// The refusals of `may_begin` in their order, then `NoMemory`. A refused record leaves all as
    /// it was.
    pub fn begin(&mut self, team: u32, payload: Payload) -> Result<u32, TeamFault>
        ensures refused { (fault : TeamFault) →
            begin_refusal self.old team payload ≡ Some fault → result ≡ Err fault }
        ensures memory { begin_refusal self.old team payload ≡ None →
            IfErr result (λ fault. fault ≡ NoMemory) }
        ensures number { IfOk result (λ rec. rec ≡ length self.old.records) }
        ensures begun { OnOk result (self.new ≡ with_record team payload self.old) }
        ensures err { OnErr result (self.new ≡ self.old) }
    {
        self.may_begin(team, &payload)?;
        let number = self.records.len() as u32;
        self.records.reserve(1)?;
        open_block(&mut self.marked, number as usize)?;
        self.numbers[team as usize].add(number)?;
        let members = &self.teams[team as usize].members;
        self.records
            .push_reserved(KeptRecord::make(team, payload, members));
        Ok(number)
    }

    /// Marks a record by a process, a member of its team or not, and returns whether the record is
    /// acknowledged now: it was already, or each member of its team has marked it. Doesn't
    /// allocate.
    ///
    /// There must be such a record, and the process's number must be below 1024.
    pub fn mark(&mut self, rec: u32, p: ProcId) -> bool
        requires there { rec < length self.old.records }
        requires small { p.0 < MOST_PROCESSES }
        ensures acked { result ≡ is_acked self.new rec }
        ensures marked { self.new ≡ marked_by rec p.0 self.old }
    {
        let record = &mut self.records[rec as usize];
        let team = &self.teams[record.team() as usize];
        record.mark(p, &team.members);
        let acked = record.acked();
        self.marked[rec as usize / BLOCK].put(p);
        acked
    }

    /// Whether there is such a record and it is acknowledged: at some mark each member of its team
    /// had marked it.
    pub fn acked(&self, rec: u32) -> bool
        ensures { result ≡ is_acked self.now rec }
    {
        match self.record(rec) {
            Some(record) => record.acked(),
            None => false,
        }
    }

    /// Replaces a member of a team by another process. Marks stay, and no record becomes
    /// acknowledged. Doesn't allocate.
    ///
    /// There must be such a team, `out` must be a member and `into` a process of the map that isn't
    /// one, and with `into` for `out` the team must satisfy its policy.
    pub fn replace(&mut self, map: &Map, policies: &[Policy], team: u32, out: ProcId, into: ProcId)
        requires { MayReplace map.now policies.now self.old team out into }
        ensures replaced { self.new ≡ replaced team out into self.old }
        ensures kept { AreFormed map.now policies.now self.old.teams →
            AreFormed map.now policies.now self.new.teams }
    {
        swap_in(&mut self.member_sets[team as usize], map, out, into);
        self.teams[team as usize].replace(out, into);
        let numbers = self.numbers[team as usize].as_slice();
        let members = &self.teams[team as usize].members;
        recount(&mut self.records, numbers, team, out, into, members);
    }

    /// Takes a process's mark off each record that isn't acknowledged. Doesn't allocate.
    pub fn heal(&mut self, p: ProcId)
        ensures { self.new ≡ healed p.0 self.old }
    {
        for block in 0..self.marked.len() {
            heal_block(&mut self.records, &mut self.marked, &self.teams, block, p);
        }
    }

    /// The record with a number, if there is one.
    fn record(&self, rec: u32) -> Option<&KeptRecord>
        ensures { option_map (λ it. it.held) (option_copied result)
            ≡ slice_get self.now.records rec }
    {
        self.records.get(rec as usize)
    }

    /// Whether there is such a record and a process, of any number, has marked it.
    pub fn marked(&self, rec: u32, p: ProcId) -> bool
        ensures { result ≡ is_marked self.now rec p.0 }
    {
        match self.record(rec) {
            Some(record) => record.has_mark(p),
            None => false,
        }
    }

    /// The number of a record's team, if there is such a record.
    pub fn team_of(&self, rec: u32) -> Option<u32>
        ensures { result ≡ team_number self.now rec }
    {
        match self.record(rec) {
            Some(record) => Some(record.team()),
            None => None,
        }
    }

    /// How many records there are.
    pub fn record_count(&self) -> u32
        ensures { result ≡ length self.now.records }
    {
        self.records.len() as u32
    }

    /// The numbers of a team's records, rising. There are none if there is no such team.
    pub fn records_of(&self, team: u32) -> &[u32]
        ensures { result.now ≡ records_of self.now team }
    {
        match self.numbers.get(team as usize) {
            Some(numbers) => numbers.as_slice(),
            None => &[],
        }
    }

    /// How many teams there are.
    pub fn team_count(&self) -> u32
        ensures { result ≡ length self.now.teams }
    {
        let count = self.teams.len();
        count as u32
    }

    /// The members of a team, if there is such a team.
    pub fn members(&self, team: u32) -> Option<&Members>
        ensures { option_copied result ≡ members_in self.now team }
    {
        match self.teams.get(team as usize) {
            Some(team) => Some(&team.members),
            None => None,
        }
    }

    /// Whether there is such a team and a process, of any number, is a member.
    pub fn is_member(&self, team: u32, p: ProcId) -> bool
        ensures { result ≡ is_member self.now team p.0 }
    {
        match self.member_sets.get(team as usize) {
            Some(set) => set.contains(p),
            None => false,
        }
    }

    /// The number of the policy that a team names, if there is such a team.
    pub fn policy_of(&self, team: u32) -> Option<u32>
        ensures { result ≡ policy_in self.now team }
    {
        let team = self.teams.get(team as usize)?;
        Some(team.policy)
    }

    /// What a record holds, if there is such a record.
    pub fn payload(&self, rec: u32) -> Option<&Payload>
        ensures { option_copied result ≡ payload_in self.now rec }
    {
        match self.record(rec) {
            Some(record) => Some(record.payload()),
            None => None,
        }
    }

    /// Members rise, each record is of a team that is there and holds no more than 256 bytes, and
    /// there are no more than 4096 teams and 65,536 records.
    pub fn invariant(&self)
        ensures { IsRoster self.now }
    {
        let _teams = &self.teams;
    }
}

/// Counts the missing marks anew in each unacknowledged record of a team, which now has these
/// members. The numbers are those of its records, each once.
fn recount(
    records: &mut Vec<KeptRecord>,
    numbers: &[u32],
    team: u32,
    out: ProcId,
    into: ProcId,
    members: &Members,
)
    requires room { All (λ rec. rec < length records.old.items) numbers.now }
    requires apart { (k : ℕ) → k < length numbers.now →
        list_any (λ n. n == slice_index numbers.now k) (take k numbers.now) ≡ false }
    requires right { All (λ it. it.held.team ≡ team → WasMissing out into members.now it)
        records.old.items }
    ensures { ChangedAmong numbers.now (recounted team members.now)
        records.old.items records.new.items }
{
    for rec in numbers {
        records[*rec as usize].recount(team, out, into, members);
    }
}

/// Takes a process's mark off each record of a block that isn't acknowledged.
fn heal_block(
    records: &mut Vec<KeptRecord>,
    marked: &mut Vec<ProcSet>,
    teams: &Vec<KeptTeam>,
    block: usize,
    p: ProcId,
)
    requires counts { TeamsInvariant teams.now.items records.old.items }
    requires there { block < length marked.old.items }
    requires seen { MarksSeen (map (λ it. it.held) records.old.items) marked.old.items }
    ensures counts { TeamsInvariant teams.now.items records.new.items }
    ensures seen { MarksSeen (map (λ it. it.held) records.new.items) marked.new.items }
    ensures blocks { length marked.new.items ≡ length marked.old.items }
    ensures count { length records.new.items ≡ length records.old.items }
    ensures healed { HealedWithin (BLOCK * block) (BLOCK * block + BLOCK) p.0
        (map (λ it. it.held) records.old.items) (map (λ it. it.held) records.new.items) }
{
    if !marked[block].contains(p) {
        return;
    }
    marked[block].invariant();
    heal_records(records, teams, block * BLOCK, p);
    marked[block].drop_one(p);
}

/// Takes a process's mark off each record of the block from this one on that isn't acknowledged.
fn heal_records(records: &mut Vec<KeptRecord>, teams: &Vec<KeptTeam>, first: usize, p: ProcId)
    requires counts { TeamsInvariant teams.now.items records.old.items }
    requires low { first ≤ MOST_RECORDS }
    ensures counts { TeamsInvariant teams.now.items records.new.items }
    ensures count { length records.new.items ≡ length records.old.items }
    ensures healed { HealedWithin first (first + BLOCK) p.0
        (map (λ it. it.held) records.old.items) (map (λ it. it.held) records.new.items) }
{
    for rec in first..records.len().min(first + BLOCK) {
        let record = &mut records[rec];
        let team = &teams[record.team() as usize];
        record.heal(p, &team.members);
    }
}
