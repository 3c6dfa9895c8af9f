//! Fault actors: kills and clogs, by a plan.
ghost use Rattle.std.specs.Prelude.{◌≡◌, ◌≤◌, ◌/◌, max, length, IfOk, OnOk};
ghost use Rattle.fy_locality.specs.declared.key.Key.TheVariants.{Process};
ghost use Rattle.fy_locality.specs.Locality.{values_of};
ghost use Rattle.fy_kinds.specs.declared.kind.Kind.TheVariants.{RebootProcess};
ghost use Rattle.fy_kinds.specs.Kinds.{rank};
ghost use Rattle.fy_players.specs.Faults.{IsKill, Mixes, Strikes, choice_of, mixed_kind, rolling_kind, rolling_target, round_of, readied, round_act, fault_of, one_turn_more};

use crate::draws::Words;
use crate::picks::{pick_floor, pick_key, pick_target, pick_tear, pick_ticks, target_at};
use crate::rounds::{attrition_round, swizzle_round};
use fy_acts::Act;
use fy_kinds::{KillOrder, Kind, Target};
use fy_locality::{Key, Map};
use std::alloc::{AllocError, Global};
use std::marker::Model;

/// How fault actors draw their orders.
#[derive(Clone, Copy, PartialEq, Eq, Debug)]
pub enum Plan {
    /// Kills of each kind and clogs, of processes, machines, zones, halls and data centres.
    Mixed,
    /// In each round every machine is emptied, or at least rebooted.
    Attrition,
    /// In each round some processes are clogged, and then freed.
    Swizzle,
    /// Each process in turn: rebooted, then rebooted with its machine, then emptied.
    Rolling,
}

/// A fault actor: the seed from which its rounds are drawn, its plan, how many turns it took, and
/// the acts of the round that is under way, with how many of them were made. It keeps its
/// allocator.
pub struct FaultPlayer {
    alloc: Global,
    seed: u64,
    plan: Plan,
    turns: u32,
    round: Vec<Act>,
    made: usize,
}

impl Model for FaultPlayer {
    ghost use Rattle.std.specs.Coded.{codes};
    ghost use Rattle.fy_players.specs.Faults.{FaultState};

    ghost Value = { FaultState };

    ghost view = { λ f. record {
      seed = f.seed;
      plan = f.plan;
      turns = f.turns;
      round = record { acts = f.round.items; made = f.made };
    } };
}

// Written out and not derived: see `Drop` in docs/DECISIONS.md.
impl Drop for FaultPlayer {
    fn drop(self) {
        let FaultPlayer {
            alloc: _,
            seed: _,
            plan: _,
            turns: _,
            round: _,
            made: _,
        } = self;
    }
}

/// What a fault actor of a mixed plan chooses to do.
#[derive(Clone, Copy, PartialEq, Eq, Debug)]
enum Choice {
    Kill,
    Clog,
    Unclog,
    /// What a fault actor may not do.
    Stray,
}

/// What a word chooses.
fn choice_of(word: u32) -> Choice
    ensures { result ≡ choice_of word }
{
    let k = word % 64;
    if k < 53 {
        Choice::Kill
    } else if k < 59 {
        Choice::Clog
    } else if k < 63 {
        Choice::Unclog
    } else {
        Choice::Stray
    }
}

/// The kind of a kill: mostly one that empties a disk, and now and then one for good.
fn mixed_kind(word: u32) -> Kind
    ensures { result ≡ mixed_kind word }
{
    let k = word % 100;
    if k < 10 {
        Kind::RebootProcess
    } else if k < 45 {
        Kind::Reboot
    } else if k < 99 {
        Kind::RebootAndDelete
    } else {
        Kind::KillInstantly
    }
}

/// An order to kill of these parts.
fn kill(target: Target, kind: Kind, floor: Kind, tear: u64) -> Act
    requires { rank floor ≤ rank kind }
    ensures { IsKill target kind floor tear result }
{
    let Ok(order) = KillOrder::make(target, kind, floor, tear) else {
        unreachable!();
    };
    Act::Kill { order }
}

/// Any kill or clog, and once in 64 what a fault actor may not do.
fn mixed(map: &Map, words: Words) -> Act
    ensures { Mixes map.now words (choice_of words.choice) result }
{
    let target = pick_target(words.second, pick_key(words.first), map);
    match choice_of(words.choice) {
        Choice::Kill => {
            let kind = mixed_kind(words.third);
            let floor = pick_floor(words.fourth, kind);
            kill(target, kind, floor, pick_tear(words.high, words.low))
        }
        Choice::Clog => {
            let ticks = pick_ticks(words.third);
            Act::Clog { target, ticks }
        }
        Choice::Unclog => Act::Unclog { target },
        Choice::Stray => Act::Tick { ticks: 1 },
    }
}

/// The acts of a round, drawn from the stream that the last two words name.
fn draw_round(
    alloc: Global,
    map: &Map,
    seed: u64,
    plan: Plan,
    words: Words,
) -> Result<Vec<Act>, AllocError>
    ensures { IfOk result (λ acts. acts.items ≡ round_of map.now seed words plan) }
{
    let stream = pick_tear(words.high, words.low);
    match plan {
        Plan::Attrition => attrition_round(alloc, map, seed, stream),
        Plan::Swizzle => swizzle_round(alloc, map, seed, stream, pick_ticks(words.third)),
        Plan::Mixed | Plan::Rolling => Ok(Vec::new(alloc)),
    }
}

/// An order to kill the next process.
fn roll(map: &Map, turns: u32) -> Act
    ensures { IsKill (rolling_target map.now turns)
        (rolling_kind (turns / max 1 (length (values_of map.now Process)))) RebootProcess 0 result }
{
    let target = rolling_target(map, turns);
    let count = map.value_count(Key::Process).max(1);
    let kind = rolling_kind(turns / count);
    kill(target, kind, Kind::RebootProcess, 0)
}

/// The kinds of a rolling plan, one each time around.
fn rolling_kind(around: u32) -> Kind
    ensures { result ≡ rolling_kind around }
{
    let rest = around % 3;
    if rest == 0 {
        Kind::RebootProcess
    } else if rest == 1 {
        Kind::Reboot
    } else {
        Kind::RebootAndDelete
    }
}

/// The processes in turn.
fn rolling_target(map: &Map, turns: u32) -> Target
    ensures { result ≡ rolling_target map.now turns }
{
    let count = map.value_count(Key::Process).max(1);
    target_at(Some(turns % count), Key::Process, map)
}

impl FaultPlayer {
    /// A fault actor that took no turn yet.
    pub fn make(alloc: Global, seed: u64, plan: Plan) -> FaultPlayer
        ensures { result ≡ fault_of seed plan }
    {
        FaultPlayer {
            alloc,
            seed,
            plan,
            turns: 0,
            round: Vec::new(alloc),
            made: 0,
        }
    }

    /// Draws a round where no act of the last one is left.
    ///
    /// # Errors
    ///
    /// `AllocError` where an allocation fails.
    pub fn ready(&mut self, map: &Map, words: Words) -> Result<(), AllocError>
        ensures { OnOk result (self.new ≡ readied map.now words self.old) }
    {
        if self.made >= self.round.len() {
            self.round = draw_round(self.alloc, map, self.seed, self.plan, words)?;
            self.made = 0;
        }
        Ok(())
    }

    /// The next act of the round; where it has none, what a fault actor may not do.
    fn next_of_round(&self) -> Result<Act, AllocError>
        ensures { IfOk result (λ made. made ≡ round_act self.now.round) }
    {
        match self.round.get(self.made) {
            Some(act) => act.try_copy(self.alloc),
            None => Ok(Act::Tick { ticks: 1 }),
        }
    }

    /// The act of this turn.
    ///
    /// # Errors
    ///
    /// `AllocError` where an allocation fails.
    pub fn next(&self, map: &Map, words: Words) -> Result<Act, AllocError>
        ensures { IfOk result (λ made. Strikes map.now self.now words self.now.plan made) }
    {
        match self.plan {
            Plan::Mixed => Ok(mixed(map, words)),
            Plan::Attrition | Plan::Swizzle => self.next_of_round(),
            Plan::Rolling => Ok(roll(map, self.turns)),
        }
    }

    /// Counts the turn.
    pub fn learn(&mut self)
        ensures { self.new ≡ one_turn_more self.old }
    {
        self.turns = self.turns.saturating_add(1);
        if self.made < self.round.len() {
            self.made += 1;
        }
    }
}
