//! When each process of a cluster was destroyed, by the journal of the cluster.
ghost use Rattle.std.specs.Prelude.{◌≡◌, ◌<◌, ◌≤◌, ℕ, List, length, false};
ghost use Rattle.std.specs.FinSet as sets;
ghost use Rattle.fy_acts.specs.declared.entry.Entry.{Entry};
ghost use Rattle.fy_cluster.specs.Setup.{Setup};
ghost use Rattle.fy_decide.specs.Safety.{all_short};
ghost use Rattle.fy_holders.specs.Beyond.{is_beyond, first_beyond};
ghost use Rattle.fy_holders.specs.Blames.{IsToBlame};
ghost use Rattle.fy_holders.specs.Destroyed.{destroyed_at, heals_since};
ghost use Rattle.fy_holders.specs.Noted.{Covers, IsSetSince, IsSince, blame_by};
ghost use Rattle.fy_holders.specs.Turns.{AreTurnsOfEach, AreTurnsUpTo, IsLastSince};

use crate::beyond::{Note, is_past};
use crate::turns::{is_destroyed_at, last_destroyed};
use fy_cluster::{ClusterState, Config};
use fy_events::Done;
use fy_locality::{ProcId, ProcSet};
use fy_policy::{laws as policy, satisfied};
use std::marker::Model;

/// A heal that was done.
#[derive(Clone, Copy, PartialEq, Eq, Debug)]
pub struct Heal {
    /// The process that was healed.
    pub process: ProcId,
    /// The place of the entry.
    pub entry: u32,
}

/// Whose fault it is that a record is lost.
#[derive(Clone, Copy, PartialEq, Eq, Debug)]
pub enum Blame {
    /// The store's.
    Store,
    /// The store's, or that of who said that the healed processes were whole again.
    StoreOrWhole,
}

/// The processes that were destroyed since each of the positions from one to another.
#[derive(Clone, Copy)]
pub(crate) struct Since {
    pub from: u32,
    pub to: u32,
    pub destroyed: ProcSet,
    pub blame: Blame,
}

/// When each process of a cluster was destroyed, and which heals were done. A position is how many
/// entries stand before it: the last one is the number of all entries.
#[derive(Drop)]
pub struct Outages {
    pub(crate) cluster: ClusterState,
    pub(crate) end: u32,
    pub(crate) turns: Vec<Vec<u32>>,
    pub(crate) heals: Vec<Heal>,
    pub(crate) answers: Vec<Option<Done>>,
    /// What was asked last.
    pub(crate) since: Since,
}

impl Model for Outages {
    ghost use Rattle.std.specs.Coded.{codes};
    ghost use Rattle.fy_locality.specs.contracts.locality.Locality as e;
    ghost use Rattle.fy_policy.specs.TreeCode.{tree_code};
    ghost use Rattle.fy_cluster.specs.Execution.{Execution};
    ghost use Rattle.fy_holders.specs.Noted.{IsKept};

    ghost Value = { Execution };

    ghost coded = { Prim.hlevel (codes, tree_code, e.the_row.coded) };

    ghost view = { λ outages. outages.cluster };

    ghost invariant = { IsKept };
}

/// Whether a set is short of each policy of a configuration.
fn is_short(config: &Config, set: &ProcSet) -> bool
    ensures { result ≡ all_short config.now.processes config.now.policies (sets.contains set.now) }
{
    let map = config.map();
    config
        .policies()
        .iter()
        .all(|policy| !satisfied(policy, map, set))
}

/// Who is to blame where these processes were destroyed.
fn blame_for(config: &Config, destroyed: &ProcSet) -> Blame
    ensures { result ≡ blame_by (all_short config.now.processes config.now.policies
        (sets.contains destroyed.now)) }
{
    if is_short(config, destroyed) {
        Blame::Store
    } else {
        Blame::StoreOrWhole
    }
}

/// The last position at which a process was destroyed, by the turns of each; `None` where that is
/// before another one.
fn last_since(turns: &[Vec<u32>], p: u32, from: u32, end: u32) -> Option<u32>
    requires within { p < length turns.now }
    requires turns { AreTurnsUpTo end turns.now }
    ensures { IsLastSince from end turns.now p result }
{
    match last_destroyed(&turns[p as usize], end) {
        Some(last) if from <= last => Some(last),
        Some(_) => None,
        None => None,
    }
}

/// What is so since a position, by the turns of each process. Positions go up to `end`.
pub(crate) fn since_of(config: &Config, turns: &[Vec<u32>], from: u32, end: u32) -> Since
    requires turns { AreTurnsUpTo end turns.now }
    requires count { length turns.now ≡ length config.now.processes }
    ensures since { (journal : List Entry) → AreTurnsOfEach config.now journal turns.now
        → end ≡ length journal → IsSince config.now journal result }
    ensures covers { from ≤ end → Covers from result }
{
    policy::more_of_map_satisfies();
    policy::test_is_satisfaction();
    let mut destroyed = ProcSet::empty();
    let mut to = end;
    for p in 0..config.map().len() {
        if let Some(last) = last_since(turns, p, from, end) {
            destroyed.put(ProcId(p));
            to = to.min(last);
        }
    }
    let blame = blame_for(config, &destroyed);
    Since {
        from,
        to,
        destroyed,
        blame,
    }
}

/// Makes it what is so since a position. It costs nothing while the answer stays the same.
fn move_to(since: &mut Since, config: &Config, turns: &[Vec<u32>], position: u32, end: u32)
    requires turns { AreTurnsUpTo end turns.now }
    requires count { length turns.now ≡ length config.now.processes }
    ensures since { (journal : List Entry) → AreTurnsOfEach config.now journal turns.now
        → end ≡ length journal → IsSince config.now journal since.old
        → IsSince config.now journal since.new }
    ensures covers { position ≤ end → Covers position since.new }
{
    if position < since.from || since.to < position {
        *since = since_of(config, turns, position, end);
    }
}

impl Outages {
    /// The cluster after all entries.
    pub fn cluster(&self) -> &ClusterState
        ensures { result.now ≡ self.now }
    {
        &self.cluster
    }

    /// Whether a process was destroyed at a position.
    pub fn was_destroyed(&self, process: ProcId, position: u32) -> bool
        ensures there { process.0 < length self.now.setup.processes
            → position ≤ length self.now.journal
            → result ≡ destroyed_at self.now.setup self.now.journal position process.0 }
        ensures nobody { length self.now.setup.processes ≤ process.0 → result ≡ false }
    {
        match self.turns.get(process.0 as usize) {
            Some(turns) => is_destroyed_at(turns, position),
            None => false,
        }
    }

    /// The processes that were destroyed at some position from this one to the last. Where positions
    /// are asked in rising order, it costs what changes.
    pub fn destroyed_since(&mut self, position: u32) -> ProcSet
        ensures destroyed { position ≤ length self.old.journal
            → IsSetSince self.old.setup self.old.journal position result }
        ensures same { self.new ≡ self.old }
    {
        let config = self.cluster.config();
        move_to(&mut self.since, config, &self.turns, position, self.end);
        self.since.destroyed
    }

    /// Whose fault it is where a record is lost that was acknowledged at this position.
    pub fn blame_since(&mut self, position: u32) -> Blame
        ensures blame { position ≤ length self.old.journal
            → IsToBlame self.old.setup self.old.journal position result }
        ensures same { self.new ≡ self.old }
    {
        let config = self.cluster.config();
        move_to(&mut self.since, config, &self.turns, position, self.end);
        self.since.blame
    }

    /// The heals that were done by the entries from this position on.
    pub fn heals_since(&self, position: u32) -> &[Heal]
        ensures { result.now ≡ heals_since self.now.journal position }
    {
        let first = self.heals.partition_point(|heal| heal.entry < position);
        &self.heals[first..]
    }

    /// Whether the note says of its entry that a kill was done that destroys, and the entry's reply
    /// says another thing.
    pub fn is_beyond(&self, note: Note) -> bool
        ensures { result ≡ is_beyond self.now.journal note }
    {
        match self.answers.get(note.entry as usize) {
            Some(answer) => is_past(*answer, note.done),
            None => false,
        }
    }

    /// The entry of the first note that says so.
    pub fn first_beyond(&self, notes: &[Note]) -> Option<u32>
        ensures { result ≡ first_beyond self.now.journal notes.now }
    {
        for note in notes {
            if self.is_beyond(*note) {
                return Some(note.entry);
            }
        }
        None
    }
}
