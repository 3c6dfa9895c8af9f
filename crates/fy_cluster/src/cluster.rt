//! A cluster: it replies to acts, and keeps them all in its journal.
ghost use Rattle.std.specs.Prelude.{◌≡◌, ◌↔◌, ◌<◌, ◌≤◌, ℕ, max, length, IfOk, IfErr, IsTrue, OnOk, OnErr, Err, IsSome, IfSome, None};
ghost use Rattle.std.specs.FinSet as sets;
ghost use Rattle.fy_kinds.specs.Kinds.{rank};
ghost use Rattle.fy_kinds.specs.Orders.{Order};
ghost use Rattle.fy_decide.specs.Verdicts.{NamesProcess};
ghost use Rattle.fy_acts.specs.declared.version.Version.TheVariants.{Second};
ghost use Rattle.fy_cluster.specs.History.{destroyed, left, acked, keeper};
ghost use Rattle.fy_cluster.specs.declared.fault.Fault.TheVariants.{JournalFull};
ghost use Rattle.fy_cluster.specs.Survival.{Survives};
ghost use Rattle.fy_cluster.specs.Execution.{history_of, opened, replied, entered, after_acts, StopsAt};
ghost use Rattle.fy_acts.specs.declared.act.Act.TheVariants.{Kill};
ghost use Rattle.fy_cluster.specs.Sights.{IsLeastKeeper, Sees, status_of, needed_of, up_in};

use crate::{ClusterState, Config, Fault, Sight, Status};
use fy_acts::{Act, Journal, Reply};
use fy_kinds::{KillOrder, Kind};
use fy_locality::{ProcId, ProcSet};
use std::alloc::{AllocError, Global};
use std::marker::Model;

/// A simulated cluster: processes that store records for teams, the faults that strike them, and
/// the journal of every act with its reply. Replies are computed from the state; the journal is
/// only written.
pub struct Cluster {
    alloc: Global,
    state: ClusterState,
    journal: Journal,
}

impl Model for Cluster {
    ghost use Rattle.std.specs.Coded.{codes};
    ghost use Rattle.fy_locality.specs.contracts.locality.Locality as e;
    ghost use Rattle.fy_policy.specs.TreeCode.{tree_code};
    ghost use Rattle.fy_cluster.specs.Execution.{Execution};
    ghost use Rattle.fy_cluster.specs.Standing.{KeepsJournal};

    ghost Value = { Execution };

    ghost coded = { Prim.hlevel (codes, tree_code, e.the_row.coded) };

    ghost view = { λ x. x.state };

    ghost invariant = { λ x. KeepsJournal x.state x.journal };
}

// Written out and not derived: see `Drop` in docs/DECISIONS.md.
impl Drop for Cluster {
    fn drop(self) {
        let Cluster {
            alloc: _,
            state: _,
            journal: _,
        } = self;
    }
}

/// Makes sure that a cluster's journal has a place for the next entry.
///
/// # Errors
///
/// In this order: `JournalFull` where the journal is at its limit; `NoMemory`. The journal is then
/// as it was.
fn make_place(journal: &mut Journal, state: &ClusterState) -> Result<(), Fault>
    ensures full { (state.now.setup.limit ≤ length state.now.journal) ↔ (result ≡ Err JournalFull) }
    ensures room { OnOk result (length state.now.journal < state.now.setup.limit) }
    ensures place { OnOk result
        (journal.new ≡ record journal.old { room = max journal.old.room 1 }) }
    ensures err { OnErr result (journal.new ≡ journal.old) }
{
    if state.is_full() {
        return Err(Fault::JournalFull);
    }
    match journal.reserve(1) {
        Ok(()) => Ok(()),
        // An allocation failure, since a cluster's limit is far below that of the type.
        Err(_) => Err(Fault::NoMemory),
    }
}

impl Cluster {
    /// A new cluster, in which nothing has happened. On an error the configuration is dropped.
    ///
    /// # Errors
    ///
    /// `AllocError` where an allocation fails.
    pub fn make(alloc: Global, config: Config) -> Result<Cluster, AllocError>
        ensures { IfOk result (λ cluster. cluster ≡ opened config) }
    {
        Ok(Cluster {
            alloc,
            state: ClusterState::make(alloc, config)?,
            journal: Journal::make(alloc),
        })
    }

    /// A copy with the same journal, to look ahead. What is copied is the state, and no act is made
    /// again.
    ///
    /// # Errors
    ///
    /// `AllocError` where an allocation fails.
    pub fn try_copy(&self, alloc: Global) -> Result<Cluster, AllocError>
        ensures { IfOk result (λ copy. copy ≡ self.now) }
    {
        Ok(Cluster {
            alloc,
            state: self.state.try_copy(alloc, self.journal.entries())?,
            journal: self.journal.try_copy(alloc)?,
        })
    }

    /// Does an act of the actor with this number, where no rule refuses it, and enters act and
    /// reply into the journal.
    ///
    /// # Errors
    ///
    /// In this order: `JournalFull` where the journal is at its limit; `NoMemory`. The cluster is
    /// unchanged then.
    pub fn apply(&mut self, by: u32, act: Act) -> Result<Reply, Fault>
        ensures full { (self.old.setup.limit ≤ length self.old.journal)
            ↔ (result ≡ Err JournalFull) }
        ensures replied { IfOk result (λ reply. reply ≡ replied self.old by act) }
        ensures entered { OnOk result (self.new ≡ entered self.old by act) }
        ensures err { OnErr result (self.new ≡ self.old) }
        ensures survives { Survives self.new.setup self.new.journal }
    {
        self.state.survives();
        make_place(&mut self.journal, &self.state)?;
        let (_, by, act, reply) = self.state.enter(by, act)?.into_parts();
        self.journal.push(by, act, reply);
        Ok(reply)
    }

    /// Does what `apply` does with an order that names this process alone: the same reply, and the
    /// same entry. The caller knows the process, so its name isn't looked up.
    ///
    /// # Errors
    ///
    /// In this order: `JournalFull` where the journal is at its limit; `NoMemory`. The cluster is
    /// unchanged then.
    pub fn kill_process(
        &mut self,
        by: u32,
        process: ProcId,
        order: &KillOrder,
    ) -> Result<Reply, Fault>
        requires { NamesProcess self.old.setup.processes process.0 order.now }
        ensures full { (self.old.setup.limit ≤ length self.old.journal)
            ↔ (result ≡ Err JournalFull) }
        ensures replied { IfOk result (λ reply. reply ≡ replied self.old by (Kill order.now)) }
        ensures entered { OnOk result (self.new ≡ entered self.old by (Kill order.now)) }
        ensures err { OnErr result (self.new ≡ self.old) }
        ensures survives { Survives self.new.setup self.new.journal }
    {
        self.state.survives();
        make_place(&mut self.journal, &self.state)?;
        let reply = self.state.strike_process(by, process, order);
        self.journal.push(by, Act::Kill { order: *order }, reply);
        Ok(reply)
    }

    /// Reserves room in the journal for so many more entries, up to its limit, and changes nothing
    /// else. `apply` grows the journal step by step; a caller that knows how many acts come saves
    /// the steps.
    ///
    /// # Errors
    ///
    /// `AllocError` where an allocation fails.
    pub fn make_room(&mut self, count: usize) -> Result<(), AllocError>
        ensures { self.new ≡ self.old }
    {
        let limit = self.state.config().journal_limit() as usize;
        let most = limit.saturating_sub(self.journal.len());
        match self.journal.reserve(count.min(most)) {
            Ok(()) => Ok(()),
            // An allocation failure, as in `make_place`.
            Err(_) => Err(AllocError),
        }
    }

    /// Applies acts one after another, each as the actor beside it, and stops at the first fault.
    /// Entries made before it stay.
    ///
    /// # Errors
    ///
    /// At an act, in this order: `JournalFull` where the journal is at its limit; `NoMemory`.
    pub fn run(&mut self, acts: &[(u32, Act)]) -> Result<(), Fault>
        ensures ran { OnOk result (self.new ≡ after_acts self.old acts.now) }
        ensures stopped { IfErr result (λ fault. StopsAt self.old acts.now fault self.new) }
        ensures survives { Survives self.new.setup self.new.journal }
    {
        self.survives();
        for (by, act) in acts {
            if self.is_full() {
                return Err(Fault::JournalFull);
            }
            let act = act.try_copy(self.alloc)?;
            self.apply(*by, act)?;
        }
        Ok(())
    }

    /// The journal: each act with its reply, under the second version of the rules.
    pub fn journal(&self) -> &Journal
        ensures journal { result.now.entries ≡ self.now.journal }
        ensures version { result.now.version ≡ Second }
        ensures survives { Survives self.now.setup self.now.journal }
    {
        self.survives();
        &self.journal
    }

    /// The destroyed processes: struck by a kind that destroys, and not healed since.
    pub fn destroyed(&self) -> ProcSet
        ensures { (p : ℕ) → sets.contains result p ≡ destroyed (history_of self.now) p }
    {
        self.state.destroyed()
    }

    /// The processes that are left: all but those killed for good. Emptied ones are left too.
    pub fn left(&self) -> ProcSet
        ensures { (p : ℕ) → sets.contains result p ≡ left self.now.setup (history_of self.now) p }
    {
        self.state.left()
    }

    /// The processes that are up.
    pub fn up(&self) -> ProcSet
        ensures { (p : ℕ) → sets.contains result p ≡ up_in self.now.setup (history_of self.now) p }
    {
        self.state.up()
    }

    /// The state of the process with this number; `None` where there is no such process.
    pub fn status(&self, process: ProcId) -> Option<Status>
        ensures { result ≡ status_of self.now.setup (history_of self.now) process.0 }
    {
        self.state.status(process)
    }

    /// The record that a process still needs before it may be healed: of its teams' records, the
    /// least acknowledged one that it hasn't synced. Doesn't allocate.
    pub fn needed(&self, process: ProcId) -> Option<u32>
        ensures { result ≡ needed_of self.now.setup (history_of self.now) process.0 }
    {
        self.state.needed(process)
    }

    /// The reply that a kill by the actor with this number would get now. It enters nothing, and
    /// doesn't allocate.
    pub fn judge(&self, by: u32, order: &KillOrder) -> Reply
        ensures { result ≡ replied self.now by (Kill order.now) }
    {
        self.state.judge(by, order)
    }

    /// What `judge` answers for an order that names the process with this number alone, by its
    /// name: by this kind, or where that is barred by a milder one down to the floor. `None` where
    /// there is no such process. It enters nothing, doesn't allocate, and looks up no name.
    pub fn judge_process(&self, by: u32, process: ProcId, kind: Kind, floor: Kind) -> Option<Reply>
        requires { rank floor ≤ rank kind }
        ensures none { (length self.now.setup.processes ≤ process.0) ↔ (result ≡ None) }
        ensures some { IfSome result (λ reply. (order : Order)
            → order.kind ≡ kind → order.floor ≡ floor
            → NamesProcess self.now.setup.processes process.0 order
            → reply ≡ replied self.now by (Kill order)) }
    {
        self.state.judge_process(by, process, kind, floor)
    }

    /// Whether the journal is at its limit.
    pub fn is_full(&self) -> bool
        ensures { IsTrue result ↔ (self.now.setup.limit ≤ length self.now.journal) }
    {
        self.state.is_full()
    }

    /// The configuration that it was made of.
    pub fn config(&self) -> &Config
        ensures { result.now ≡ self.now.setup }
    {
        self.state.config()
    }

    /// Of an acknowledged record, the least member of its team that isn't destroyed and has the
    /// record synced; none of any other record. Doesn't allocate.
    pub fn keeper(&self, rec: u32) -> Option<ProcId>
        ensures keeper { result ≡ keeper self.now.setup (history_of self.now) rec }
        ensures acked { IsSome result ↔ IsTrue (acked (history_of self.now) rec) }
        ensures least { IfSome result (IsLeastKeeper (history_of self.now) rec) }
    {
        self.state.keeper(rec)
    }

    /// The time, and what there is to do next: the least message to deliver, the least process to
    /// sync and the least one to start. Doesn't allocate.
    pub fn sight(&self) -> Sight
        ensures { Sees self.now.setup (history_of self.now) result }
    {
        self.state.sight()
    }

    /// The state behind the journal, which may be asked without being changed.
    pub fn asked_state(&self) -> &ClusterState
        ensures { result.now ≡ self.now }
    {
        &self.state
    }

    /// Whatever acts were made so far, every acknowledged record has a synced copy on an
    /// undestroyed member, and all else holds that legal journals keep.
    pub fn survives(&self)
        ensures { Survives self.now.setup self.now.journal }
    {
        self.state.survives();
    }
}
