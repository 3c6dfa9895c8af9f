//! Who plays an actor, by its role.
ghost use Rattle.std.specs.Prelude.{◌≡◌, ◌≤◌, ◌↔◌, length, Err, IfOk, OnOk, OnErr};
ghost use Rattle.fy_cluster.specs.declared.fault.Fault.TheVariants.{JournalFull};
ghost use Rattle.fy_players.specs.Turns.{part_of, player_of, part_before, Does, own_or_none, speaker, part_after, TakesTurn, EndsTurn};

use crate::draws::{Draws, Words};
use crate::faults::{FaultPlayer, Plan};
use crate::knowledge::Note;
use crate::operator::operate;
use crate::picks::NOBODY;
use crate::storage::StoragePlayer;
use fy_acts::{Act, Reply};
use fy_cluster::{Cluster, Fault, Role};
use fy_locality::Map;
use std::alloc::{AllocError, Global};

/// What an actor does, by its role.
pub enum Part {
    /// Stores records, and cares for their copies.
    Stores(StoragePlayer),
    /// Orders kills and clogs.
    Strikes(FaultPlayer),
    /// Protects and unprotects, gives and takes.
    Operates,
}

// Written out and not derived: see `Drop` in docs/DECISIONS.md.
impl Drop for Part {
    fn drop(self) {
        match self {
            Part::Stores(_) => {}
            Part::Strikes(_) => {}
            Part::Operates => {}
        }
    }
}

/// An actor with its part and its stream of words.
pub struct Player {
    actor: u32,
    part: Part,
    draws: Draws,
}

// Written out and not derived: see `Drop` in docs/DECISIONS.md.
impl Drop for Player {
    fn drop(self) {
        let Player {
            actor: _,
            part: _,
            draws: _,
        } = self;
    }
}

/// What an actor of this role begins with.
fn part_of(alloc: Global, role: Role, seed: u64, plan: Plan) -> Part
    ensures { result ≡ part_of seed plan role }
{
    match role {
        Role::Storage => Part::Stores(StoragePlayer::make(alloc)),
        Role::Fault => Part::Strikes(FaultPlayer::make(alloc, seed, plan)),
        Role::Operator => Part::Operates,
    }
}

/// The number of an actor, or once in 256 one that no actor has.
fn own_or_none(actor: u32, words: Words) -> u32
    ensures { result ≡ own_or_none actor words }
{
    if words.fifth / 16_777_216 == 255 {
        NOBODY
    } else {
        actor
    }
}

impl Part {
    /// Draws the round that a fault actor needs for its turn.
    fn ready(&mut self, map: &Map, words: Words) -> Result<(), AllocError>
        ensures { OnOk result (self.new ≡ part_before map.now words self.old) }
    {
        match self {
            Part::Stores(_) => Ok(()),
            Part::Strikes(fault) => fault.ready(map, words),
            Part::Operates => Ok(()),
        }
    }

    /// What the actor does by these words, and what is to be remembered of it.
    fn next(&self, cluster: &Cluster, words: Words) -> Result<(Act, Note), AllocError>
        ensures { IfOk result (Does cluster.now self.now words) }
    {
        let config = cluster.config();
        match self {
            Part::Stores(storage) => storage.next(cluster, words),
            Part::Strikes(fault) => {
                let act = fault.next(config.map(), words)?;
                Ok((act, Note::Plain))
            }
            Part::Operates => Ok((operate(config, words), Note::Plain)),
        }
    }

    /// The number by which the actor acts: a fault actor always by its own.
    fn speaker(&self, actor: u32, words: Words) -> u32
        ensures { result ≡ speaker actor words self.now }
    {
        match self {
            Part::Stores(_) => own_or_none(actor, words),
            Part::Strikes(_) => actor,
            Part::Operates => own_or_none(actor, words),
        }
    }

    /// Learns the reply.
    fn learn(&mut self, note: Note, reply: Reply) -> Result<(), AllocError>
        ensures { OnOk result (self.new ≡ part_after self.old note reply) }
    {
        match self {
            Part::Stores(storage) => storage.learn(note, reply),
            Part::Strikes(fault) => {
                fault.learn();
                Ok(())
            }
            Part::Operates => Ok(()),
        }
    }
}

impl Player {
    /// The actor with this number, before its first turn. Its words are those of the stream with
    /// its number.
    pub fn make(alloc: Global, seed: u64, plan: Plan, actor: u32, role: Role) -> Player
        ensures { result ≡ player_of seed plan actor role }
    {
        Player {
            actor,
            part: part_of(alloc, role, seed, plan),
            draws: Draws::make(seed, u64::from(actor)),
        }
    }

    /// Takes a turn: does one act, by the next words of its stream, and learns the reply. Once in
    /// 256 who stores or operates acts by a number that no actor has.
    ///
    /// # Errors
    ///
    /// In this order: `JournalFull` where the journal is at its limit, and the cluster is unchanged;
    /// `NoMemory`, and the cluster is unchanged or has the act of this turn.
    pub fn turn(&mut self, cluster: &mut Cluster) -> Result<(), Fault>
        ensures full { (cluster.old.setup.limit ≤ length cluster.old.journal)
            ↔ (result ≡ Err JournalFull) }
        ensures kept { result ≡ Err JournalFull → cluster.new ≡ cluster.old }
        ensures taken { OnOk result (TakesTurn (self.old, cluster.old) (self.new, cluster.new)) }
        ensures ended { OnErr result (EndsTurn self.old cluster.old cluster.new) }
    {
        if cluster.is_full() {
            return Err(Fault::JournalFull);
        }
        let words = self.draws.words();
        self.part.ready(cluster.config().map(), words)?;
        let (act, note) = self.part.next(cluster, words)?;
        let reply = cluster.apply(self.part.speaker(self.actor, words), act)?;
        self.part.learn(note, reply)?;
        Ok(())
    }
}
