//! The state of a cluster: it replies to acts, and keeps no journal.
ghost use Rattle.std.specs.Prelude.{◌≡◌, ◌≢◌, ◌↔◌, ◌<◌, ◌≤◌, ℕ, length, IfOk, IsTrue, OnOk, OnErr, Err, IfErr, IsSome, IfSome, Some, None, option_map};
ghost use Rattle.std.specs.FinSet as sets;
ghost use Rattle.fy_kinds.specs.Kinds.{rank};
ghost use Rattle.fy_kinds.specs.Orders.{Order};
ghost use Rattle.fy_decide.specs.Verdicts.{NamesProcess};
ghost use Rattle.fy_cluster.specs.History.{destroyed, left, ack_of, acked, keeper, record_marked};
ghost use Rattle.fy_cluster.specs.declared.fault.Fault.TheVariants.{JournalFull};
ghost use Rattle.fy_cluster.specs.Survival.{Survives};
ghost use Rattle.fy_cluster.specs.Execution.{history_of, opened, replied, entered, next_entry};
ghost use Rattle.fy_acts.specs.declared.act.Act.TheVariants.{Clog, Kill};
ghost use Rattle.fy_cluster.specs.Sights.{IsLeastKeeper, Sees, clogged_in, status_of, needed_of, up_in};
ghost use Rattle.fy_cluster.specs.Asked.{time_in, clog_end_in, protected_in, grants_in, team_in, holds_in};

use crate::machine::Machine;
use crate::trail::Trail;
use crate::{Config, Fault, Sight, Status, laws};
use fy_acts::{Act, Entry, Refusal, Reply};
use fy_decide::{judge, judge_clog, judge_process};
use fy_grants::Grant;
use fy_kinds::{KillOrder, Kind, KindSet, Target};
use fy_locality::{ProcId, ProcSet};
use fy_net::Body;
use std::alloc::{AllocError, Global};
use std::marker::Model;

/// The state of a simulated cluster, which replies to acts as a `Cluster` does and keeps no
/// journal: each entry is handed to the caller. So its memory doesn't grow with the acts that are
/// refused, or that leave nothing behind.
pub struct ClusterState {
    alloc: Global,
    config: Config,
    trail: Trail,
    machine: Machine,
}

impl Model for ClusterState {
    ghost use Rattle.std.specs.Coded.{codes};
    ghost use Rattle.fy_locality.specs.contracts.locality.Locality as e;
    ghost use Rattle.fy_policy.specs.TreeCode.{tree_code};
    ghost use Rattle.fy_cluster.specs.Execution.{Execution};
    ghost use Rattle.fy_cluster.specs.Standing.{RefinesJournal};

    ghost Value = { Execution };

    ghost coded = { Prim.hlevel (codes, tree_code, e.the_row.coded) };

    ghost view = { λ x. record { setup = x.config; journal = x.trail } };

    ghost invariant = { λ x. RefinesJournal x.config x.trail x.machine };
}

// Written out and not derived: see `Drop` in docs/DECISIONS.md.
impl Drop for ClusterState {
    fn drop(self) {
        let ClusterState {
            alloc: _,
            config: _,
            trail: _,
            machine: _,
        } = self;
    }
}

/// The record that a message acknowledges, if it is an acknowledgement.
fn acknowledged_by(message: Body) -> Option<u32>
    ensures { result ≡ option_map (λ told. told.0) (ack_of message) }
{
    match message {
        Body::Synced { rec, .. } => Some(rec),
        Body::Store { .. } => None,
    }
}

impl ClusterState {
    /// The state of a new cluster, in which nothing has happened. On an error the configuration is
    /// dropped.
    ///
    /// # Errors
    ///
    /// `AllocError` where an allocation fails.
    pub fn make(alloc: Global, config: Config) -> Result<ClusterState, AllocError>
        ensures { IfOk result (λ state. state ≡ opened config) }
    {
        config.invariant();
        let machine = Machine::make(alloc, &config)?;
        Ok(ClusterState {
            alloc,
            config,
            trail: Trail::make(alloc)?,
            machine,
        })
    }

    /// An equal state, in memory of its own. Its journal is handed in, since a state keeps none.
    ///
    /// # Errors
    ///
    /// `AllocError` where an allocation fails.
    pub(crate) fn try_copy(
        &self,
        alloc: Global,
        journal: &[Entry],
    ) -> Result<ClusterState, AllocError>
        requires { journal.now ≡ self.now.journal }
        ensures { IfOk result (λ copy. copy ≡ self.now) }
    {
        Ok(ClusterState {
            alloc,
            config: self.config.try_copy(alloc)?,
            trail: Trail::of(alloc, journal)?,
            machine: self.machine.try_copy(alloc)?,
        })
    }

    /// Does an act of the actor with this number, where no rule refuses it, and answers the entry
    /// that comes next in the journal: the act with its reply.
    ///
    /// # Errors
    ///
    /// In this order: `JournalFull` where so many acts were entered as the configuration allows;
    /// `NoMemory`. The state is unchanged then.
    pub fn enter(&mut self, by: u32, act: Act) -> Result<Entry, Fault>
        ensures full { (self.old.setup.limit ≤ length self.old.journal)
            ↔ (result ≡ Err JournalFull) }
        ensures entry { IfOk result (λ entry. entry ≡ next_entry self.old by act) }
        ensures entered { OnOk result (self.new ≡ entered self.old by act) }
        ensures err { OnErr result (self.new ≡ self.old) }
        ensures survives { Survives self.new.setup self.new.journal }
    {
        laws::journals_survive();
        if self.is_full() {
            return Err(Fault::JournalFull);
        }
        self.machine
            .enter(&mut self.trail, self.alloc, &self.config, by, act)
    }

    /// Does what `enter` does with an order that names this process alone. Its name isn't looked
    /// up. Doesn't allocate.
    ///
    /// # Errors
    ///
    /// `JournalFull` where so many acts were entered as the configuration allows. The state is
    /// unchanged then.
    pub fn kill_process(
        &mut self,
        by: u32,
        process: ProcId,
        order: KillOrder,
    ) -> Result<Entry, Fault>
        requires { NamesProcess self.old.setup.processes process.0 order }
        ensures full { (self.old.setup.limit ≤ length self.old.journal)
            ↔ (result ≡ Err JournalFull) }
        ensures only { IfErr result (λ fault. fault ≡ JournalFull) }
        ensures entry { IfOk result (λ entry. entry ≡ next_entry self.old by (Kill order)) }
        ensures entered { OnOk result (self.new ≡ entered self.old by (Kill order)) }
        ensures err { OnErr result (self.new ≡ self.old) }
        ensures survives { Survives self.new.setup self.new.journal }
    {
        self.survives();
        if self.is_full() {
            return Err(Fault::JournalFull);
        }
        let at = self.trail.len() as u32;
        let reply = self.strike_process(by, process, &order);
        let act = Act::Kill { order };
        Ok(Entry { at, by, act, reply })
    }

    /// Does what `kill_process` does where there is room for an entry, and leaves the entry to the
    /// caller. Doesn't allocate.
    pub(crate) fn strike_process(&mut self, by: u32, process: ProcId, order: &KillOrder) -> Reply
        requires named { NamesProcess self.old.setup.processes process.0 order.now }
        requires room { length self.old.journal < self.old.setup.limit }
        ensures reply { result ≡ replied self.old by (Kill order.now) }
        ensures entered { self.new ≡ entered self.old by (Kill order.now) }
        ensures survives { Survives self.new.setup self.new.journal }
    {
        laws::journals_survive();
        self.machine
            .enter_kill(&mut self.trail, &self.config, by, process, order)
    }

    /// Whether so many acts were entered as the configuration allows.
    pub fn is_full(&self) -> bool
        ensures { IsTrue result ↔ (self.now.setup.limit ≤ length self.now.journal) }
    {
        self.trail.len() >= self.config.journal_limit() as usize
    }

    /// The configuration that it was made of.
    pub fn config(&self) -> &Config
        ensures { result.now ≡ self.now.setup }
    {
        &self.config
    }

    /// The destroyed processes: struck by a kind that destroys, and not healed since.
    pub fn destroyed(&self) -> ProcSet
        ensures { (p : ℕ) → sets.contains result p ≡ destroyed (history_of self.now) p }
    {
        self.machine.dead.destroyed()
    }

    /// The processes that are left: all but those killed for good. Emptied ones are left too.
    pub fn left(&self) -> ProcSet
        ensures { (p : ℕ) → sets.contains result p ≡ left self.now.setup (history_of self.now) p }
    {
        self.machine.dead.left()
    }

    /// The processes that are up.
    pub fn up(&self) -> ProcSet
        ensures { (p : ℕ) → sets.contains result p ≡ up_in self.now.setup (history_of self.now) p }
    {
        self.config.map().everyone().intersection(&self.machine.up)
    }

    /// The processes whose messages are held back.
    pub fn clogged(&self) -> ProcSet
        ensures { (p : ℕ) → sets.contains result p
            ≡ clogged_in self.now.setup (history_of self.now) p }
    {
        self.machine.net.all_clogged()
    }

    /// Forgets whose clogs have ended, so that `clogged` asks nobody else from then on than who is
    /// clogged now, or will be. Nothing that a state is seen as changes. Doesn't allocate.
    pub fn forget_ended(&mut self)
        ensures { self.new ≡ self.old }
    {
        self.machine.net.forget_ended();
    }

    /// The record of the acknowledgement that this act would deliver now: `None` where it is no
    /// `Deliver`, or no acknowledgement in flight has that number. Once the act is entered, no
    /// other record is acknowledged that wasn't. Doesn't allocate.
    pub fn marks(&self, act: &Act) -> Option<u32>
        ensures marked { result ≡ record_marked (history_of self.now) act.now }
        ensures others { (by r : ℕ) → result ≢ Some r
            → acked (history_of (entered self.now by act.now)) r ≡ acked (history_of self.now) r }
    {
        match act {
            Act::Deliver { message } => acknowledged_by(self.machine.net.body(*message)?),
            _ => None,
        }
    }

    /// The state of the process with this number; `None` where there is no such process.
    pub fn status(&self, process: ProcId) -> Option<Status>
        ensures { result ≡ status_of self.now.setup (history_of self.now) process.0 }
    {
        if process.0 < self.config.map().len() {
            Some(self.machine.status(process))
        } else {
            None
        }
    }

    /// The record that a process still needs before it may be healed: of its teams' records, the
    /// least acknowledged one that it hasn't synced. Doesn't allocate.
    pub fn needed(&self, process: ProcId) -> Option<u32>
        ensures { result ≡ needed_of self.now.setup (history_of self.now) process.0 }
    {
        if process.0 < self.config.map().len() {
            self.machine.needed(process)
        } else {
            None
        }
    }

    /// The reply that a kill by the actor with this number would get now. It enters nothing, and
    /// doesn't allocate.
    pub fn judge(&self, by: u32, order: &KillOrder) -> Reply
        ensures { result ≡ replied self.now by (Kill order.now) }
    {
        let Some(_) = self.config.role(by) else {
            return Reply::No(Refusal::Stranger);
        };
        let machine = &self.machine;
        let verdict = judge(&machine.dead, &machine.book, self.config.map(), by, order);
        Reply::Verdict(verdict)
    }

    /// What `judge` answers for an order that names the process with this number alone, by its
    /// name: by this kind, or where that is barred by a milder one down to the floor. `None` where
    /// there is no such process. No name is looked up.
    pub fn judge_process(&self, by: u32, process: ProcId, kind: Kind, floor: Kind) -> Option<Reply>
        requires { rank floor ≤ rank kind }
        ensures none { (length self.now.setup.processes ≤ process.0) ↔ (result ≡ None) }
        ensures some { IfSome result (λ reply. (order : Order)
            → order.kind ≡ kind → order.floor ≡ floor
            → NamesProcess self.now.setup.processes process.0 order
            → reply ≡ replied self.now by (Kill order)) }
    {
        if process.0 >= self.config.map().len() {
            return None;
        }
        let Some(_) = self.config.role(by) else {
            return Some(Reply::No(Refusal::Stranger));
        };
        let machine = &self.machine;
        let verdict = judge_process(&machine.dead, &machine.book, by, process, kind, floor);
        Some(Reply::Verdict(verdict))
    }

    /// Of an acknowledged record, the least member of its team that isn't destroyed and has the
    /// record synced; none of any other record. Doesn't allocate.
    pub fn keeper(&self, rec: u32) -> Option<ProcId>
        ensures keeper { result ≡ keeper self.now.setup (history_of self.now) rec }
        ensures acked { IsSome result ↔ IsTrue (acked (history_of self.now) rec) }
        ensures least { IfSome result (IsLeastKeeper (history_of self.now) rec) }
    {
        laws::keepers_found();
        self.machine.keeper(rec)
    }

    /// The time, and what there is to do next: the least message to deliver, the least process to
    /// sync and the least one to start. Doesn't allocate.
    pub fn sight(&self) -> Sight
        ensures { Sees self.now.setup (history_of self.now) result }
    {
        self.machine.sight()
    }

    /// The reply that a clog of a target by the actor with this number would get now, for however
    /// many ticks. It enters nothing, and doesn't allocate.
    pub fn asked_clog(&self, by: u32, target: &Target) -> Reply
        ensures { (ticks : ℕ) → result ≡ replied self.now by (Clog target.now ticks) }
    {
        let Some(_) = self.config.role(by) else {
            return Reply::No(fy_acts::Refusal::Stranger);
        };
        let machine = &self.machine;
        let rule = judge_clog(&machine.dead, &machine.book, self.config.map(), by, target);
        Reply::Ruled { rule }
    }

    /// The time. Doesn't allocate.
    pub fn asked_clock(&self) -> u64
        ensures { result ≡ time_in self.now }
    {
        self.machine.asked_clock()
    }

    /// Until when the clogs of a process that is there last. It is clogged where that is later than
    /// now. Doesn't allocate.
    pub fn asked_clog_end(&self, process: ProcId) -> u64
        requires { process.0 < length self.now.setup.processes }
        ensures { result ≡ clog_end_in self.now process.0 }
    {
        self.machine.asked_clog_end(process)
    }

    /// The kinds from which a process that is there is protected. Doesn't allocate.
    pub fn asked_protections(&self, process: ProcId) -> KindSet
        requires { process.0 < length self.now.setup.processes }
        ensures { result ≡ protected_in self.now process.0 }
    {
        self.machine.asked_protections(process)
    }

    /// The grants of an actor, in the order in which they were given; an actor that isn't there has
    /// none. Doesn't allocate.
    pub fn asked_grants(&self, actor: u32) -> &[Grant]
        ensures { result.now ≡ grants_in self.now actor }
    {
        self.machine.asked_grants(actor)
    }

    /// How many acts were entered.
    pub fn asked_entries(&self) -> usize
        ensures { result ≡ length self.now.journal }
    {
        self.trail.len()
    }

    /// The number of a record's team; `None` where there is no such record. Doesn't allocate.
    pub fn asked_team(&self, rec: u32) -> Option<u32>
        ensures { result ≡ team_in self.now rec }
    {
        self.machine.asked_team(rec)
    }

    /// The processes that have a record synced. Doesn't allocate.
    pub fn asked_holders(&self, rec: u32) -> ProcSet
        ensures { (p : ℕ) → sets.contains result p ≡ holds_in self.now rec p }
    {
        self.machine.asked_holders(rec)
    }

    /// Whatever acts were made so far, every acknowledged record has a synced copy on an
    /// undestroyed member, and all else holds that legal journals keep.
    pub fn survives(&self)
        ensures { Survives self.now.setup self.now.journal }
    {
        laws::journals_survive();
        let _machine = &self.machine;
    }
}
