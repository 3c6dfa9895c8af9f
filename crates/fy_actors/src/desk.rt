//! The desk: the cluster, held by one actor at a time.
ghost use Rattle.std.specs.Prelude.{◌≡◌, ◌↔◌, ◌≤◌, length, Err, IfOk, IsTrue, OnOk, OnErr};
ghost use Rattle.fy_cluster.specs.Replies.{Legal};
ghost use Rattle.fy_cluster.specs.Execution.{history_of};
ghost use Rattle.fy_cluster.specs.Sights.{Sees};
ghost use Rattle.fy_cluster.specs.Survival.{Survives};
ghost use Rattle.fy_cluster.specs.declared.fault.Fault.TheVariants.{JournalFull};
ghost use Rattle.fy_actors.specs.Desk.{execution_of, new_desk, desk_reply, after_act, Worked};

use fy_acts::{Act, Entry, Reply};
use fy_cluster::{Cluster, Fault, MOST_JOURNAL_ENTRIES, Sight};
use std::alloc::Global;
use std::marker::Model;

/// Whether an actor wants further turns.
#[derive(Clone, Copy, PartialEq, Eq, Debug)]
pub enum Turn {
    /// The actor may have acts left.
    More,
    /// The actor has no act left, and further turns do nothing.
    Ended,
}

/// An actor that takes turns, of any role: storage actors implement it as fault actors do. It is
/// asked for one turn after another, and acts at the desk alone. `part` is what it is known to do,
/// in a box too; an actor that doesn't define it goes its own way.
pub trait FaultActor: Drop {
    ghost use Rattle.fy_actors.specs.Desk.{Worked};
    ghost use Rattle.fy_actors.specs.Parts.{Part, PlaysTurn};
    ghost use Rattle.fy_actors.specs.Parts.Part.{Unspecified};

    ghost part: { Self → Part } = { λ _. Unspecified };

    /// Takes a turn. Whatever it does, the cluster began with the same configuration, the same
    /// actor sits at the desk, and all new entries of the journal are this actor's and its new
    /// receipts. A turn makes the act that comes next in the actor's part, if one is left.
    ///
    /// # Errors
    ///
    /// The fault of an act.
    fn turn(&mut self, desk: &mut Desk) -> Result<Turn, Fault>
        ensures plays { PlaysTurn (part self.old, desk.old) (part self.new, desk.new) result }
        ensures worked { Worked desk.old desk.new };
}

/// The cluster as it is handed from actor to actor: with the number of the actor whose turn it is,
/// and that actor's receipts, the entries of its own acts. Actors reach the cluster by it alone. It
/// keeps its allocator.
pub struct Desk {
    alloc: Global,
    cluster: Cluster,
    actor: u32,
    receipts: Vec<Entry>,
}

impl Model for Desk {
    ghost use Rattle.std.specs.Coded.{codes};
    ghost use Rattle.fy_locality.specs.contracts.locality.Locality as e;
    ghost use Rattle.fy_policy.specs.TreeCode.{tree_code};
    ghost use Rattle.fy_actors.specs.Desk.{DeskState};

    ghost Value = { DeskState };

    ghost coded = { Prim.hlevel (codes, tree_code, e.the_row.coded) };

    ghost view = { λ d. record {
      setup = d.cluster.setup;
      journal = d.cluster.journal;
      actor = d.actor;
      receipts = d.receipts.items;
    } };
}

// Written out and not derived: see `Drop` in docs/DECISIONS.md.
impl Drop for Desk {
    fn drop(self) {
        let Desk {
            alloc: _,
            cluster: _,
            actor: _,
            receipts: _,
        } = self;
    }
}

impl Desk {
    /// The desk of a cluster, for actor 0, without receipts. Doesn't allocate.
    pub fn make(alloc: Global, cluster: Cluster) -> Desk
        ensures { result ≡ new_desk cluster }
    {
        Desk {
            alloc,
            cluster,
            actor: 0,
            receipts: Vec::new(alloc),
        }
    }

    /// Seats the actor with this number, and swaps the receipts with the list. Doesn't allocate.
    pub fn sit(&mut self, actor: u32, receipts: &mut Vec<Entry>)
        ensures desk { self.new
            ≡ record self.old { actor = actor; receipts = receipts.old.items } }
        ensures list { receipts.new.items ≡ self.old.receipts }
    {
        self.actor = actor;
        std::mem::swap(&mut self.receipts, receipts);
    }

    /// The cluster. Doesn't allocate.
    pub fn into_cluster(self) -> Cluster
        ensures { result ≡ execution_of self }
    {
        let Desk {
            alloc: _,
            cluster,
            actor: _,
            receipts: _,
        } = self;
        cluster
    }

    /// The time, and what there is to do next. Doesn't allocate.
    pub fn sight(&self) -> Sight
        ensures { Sees self.now.setup (history_of (execution_of self.now)) result }
    {
        self.cluster.sight()
    }

    /// How many entries the cluster's journal has. It is legal. Doesn't allocate.
    pub fn journal_len(&self) -> usize
        ensures length { result ≡ length self.now.journal }
        ensures legal { Legal self.now.setup self.now.journal }
        ensures few { result ≤ MOST_JOURNAL_ENTRIES }
    {
        self.cluster.config().invariant();
        self.cluster.journal().len()
    }

    /// What every legal journal keeps, the cluster's keeps: each acknowledged record has a synced
    /// copy on an undestroyed member, and all else that [`Cluster::survives`] says.
    pub fn survives(&self)
        ensures { Survives self.now.setup self.now.journal }
    {
        self.cluster.survives();
    }

    /// Whether the journal has as many entries as it may have. Doesn't allocate.
    pub fn is_full(&self) -> bool
        ensures { IsTrue result ↔ (self.now.setup.limit ≤ length self.now.journal) }
    {
        self.cluster.is_full()
    }

    /// Makes an act of the actor that sits here. Its entry in the cluster's journal is also the
    /// last receipt.
    ///
    /// # Errors
    ///
    /// In this order: `JournalFull` where the journal has as many entries as it may have;
    /// `NoMemory`. The cluster and the receipts are then as they were.
    pub fn act(&mut self, act: Act) -> Result<Reply, Fault>
        ensures full { (self.old.setup.limit ≤ length self.old.journal)
            ↔ (result ≡ Err JournalFull) }
        ensures replied { IfOk result (λ reply. reply ≡ desk_reply self.old act) }
        ensures after_act { OnOk result (self.new ≡ after_act self.old act) }
        ensures err { OnErr result (self.new ≡ self.old) }
        ensures worked { Worked self.old self.new }
    {
        if self.is_full() {
            return Err(Fault::JournalFull);
        }
        self.receipts.reserve(1)?;
        let copy = act.try_copy(self.alloc)?;
        let at = self.journal_len() as u32;
        let by = self.actor;
        let reply = self.cluster.apply(by, act)?;
        self.receipts.push_reserved(Entry {
            at,
            by,
            act: copy,
            reply,
        });
        Ok(reply)
    }
}
