//! The engine behind `faultyard simulate`: the actors of a cluster take their turns on one thread,
//! and the audit of what came of it goes out.
ghost use Rattle.std.specs.Prelude.{◌≡◌, ◌<◌, ◌%◌, ◌⊎◌, ◌++◌, length, replicate, slice_get, true, All, IfOk, IfErr, OnOk, Err};
ghost use Rattle.std.specs.Io.KnownBytes.{Appends};
ghost use Rattle.fy_lines.specs.Prefixes.{AppendsProperPrefix};
ghost use Rattle.fy_streams.specs.Outputs.{IsOutputStop};
ghost use Rattle.fy_simulate.specs.Simulate.{lots_of, lots_from, players_from, stage_of, opening, ActorTakes, OneTurn, IsSimulated, HasSimulatedAudit};

use fy_cluster::{Cluster, Config, Fault, Role};
use fy_players::{Draws, Plan, Player};
use fy_streams::{Stop, write_audit};
use std::alloc::{AllocError, Global};
use std::io::Write;

/// The stream from which it is drawn whose turn it is. No actor has this number.
const TURN_STREAM: u64 = 64;

/// How many lots an actor of a role has: so much more often it is its turn.
fn lots_of(role: Role) -> u32
    ensures { result ≡ lots_of role }
{
    match role {
        Role::Storage => 24,
        Role::Fault => 2,
        Role::Operator => 1,
    }
}

/// Puts so many lots of an actor behind the others.
fn push_lots(lots: &mut Vec<u32>, actor: u32, count: u32) -> Result<(), AllocError>
    ensures { OnOk result (lots.new.items ≡ lots.old.items ++ replicate count actor) }
{
    for _ in 0..count {
        lots.push(actor)?;
    }
    Ok(())
}

/// The number of each actor, once for each of its lots.
fn all_lots(alloc: Global, config: &Config) -> Result<Vec<u32>, AllocError>
    ensures { IfOk result (λ lots. lots.items ≡ lots_from 0 config.now.roles) }
{
    let mut lots = Vec::new(alloc);
    for actor in 0..config.actors() {
        let Some(role) = config.role(actor) else {
            unreachable!();
        };
        push_lots(&mut lots, actor, lots_of(role))?;
    }
    Ok(lots)
}

/// Each actor before its first turn, by number.
fn all_players(
    alloc: Global,
    config: &Config,
    seed: u64,
    plan: Plan,
) -> Result<Vec<Player>, AllocError>
    ensures { IfOk result (λ players. players.items ≡ players_from seed plan 0 config.now.roles) }
{
    let mut players = Vec::new(alloc);
    for actor in 0..config.actors() {
        let Some(role) = config.role(actor) else {
            unreachable!();
        };
        players.push(Player::make(alloc, seed, plan, actor, role))?;
    }
    Ok(players)
}

/// Whose lot a word draws.
fn draw_actor(lots: &[u32], word: u32) -> Option<u32>
    requires { 0 < length lots.now }
    ensures { result ≡ slice_get lots.now (word % length lots.now) }
{
    lots.get(word as usize % lots.len()).copied()
}

/// Lets the actor with a number take its turn.
fn take_turn(players: &mut [Player], actor: u32, cluster: &mut Cluster) -> Result<(), Fault>
    requires { actor < length players.old }
    ensures { OnOk result (ActorTakes actor (players.old, cluster.old) (players.new, cluster.new)) }
{
    players[actor as usize].turn(cluster)
}

/// A simulation under way.
struct Simulation {
    lots: Vec<u32>,
    turns: Draws,
    players: Vec<Player>,
    cluster: Cluster,
}

// Written out and not derived: see `Drop` in docs/DECISIONS.md.
impl Drop for Simulation {
    fn drop(self) {
        let Simulation {
            lots: _,
            turns: _,
            players: _,
            cluster: _,
        } = self;
    }
}

impl Simulation {
    /// A simulation before its first turn.
    fn open(alloc: Global, config: &Config, seed: u64, plan: Plan) -> Result<Simulation, AllocError>
        ensures lots { IfOk result (λ made. made.lots.items ≡ lots_from 0 config.now.roles) }
        ensures stage { IfOk result (λ made. stage_of made ≡ opening config.now seed plan) }
    {
        let copy = config.try_copy(alloc)?;
        Ok(Simulation {
            lots: all_lots(alloc, config)?,
            turns: Draws::make(seed, TURN_STREAM),
            players: all_players(alloc, config, seed, plan)?,
            cluster: Cluster::make(alloc, copy)?,
        })
    }

    /// Lets the actor whose lot is drawn take its turn.
    fn turn(&mut self) -> Result<(), Fault>
        requires some { 0 < length self.old.lots.items }
        requires theirs { All (λ actor. actor < length self.old.players.items) self.old.lots.items }
        ensures lots { OnOk result (self.new.lots.items ≡ self.old.lots.items) }
        ensures count { OnOk result
            (length self.new.players.items ≡ length self.old.players.items) }
        ensures taken { OnOk result
            (OneTurn self.old.lots.items (stage_of self.old) (stage_of self.new)) }
    {
        let word = self.turns.word();
        let Some(actor) = draw_actor(&self.lots, word) else {
            unreachable!();
        };
        take_turn(self.players.as_mut_slice(), actor, &mut self.cluster)
    }

    /// The cluster, as the turns so far left it.
    fn into_cluster(self) -> Cluster
        ensures { result ≡ self.cluster }
    {
        let Simulation {
            lots: _,
            turns: _,
            players: _,
            cluster,
        } = self;
        cluster
    }
}

/// The cluster once so many turns were taken, or as many as its journal may have entries.
fn play(
    alloc: Global,
    config: &Config,
    seed: u64,
    plan: Plan,
    acts: u64,
) -> Result<Cluster, AllocError>
    ensures { IfOk result (λ cluster. IsSimulated config.now seed plan acts cluster.journal) }
{
    config.invariant();
    let mut simulation = Simulation::open(alloc, config, seed, plan)?;
    let limit = u64::from(config.journal_limit());
    let count = acts.min(limit);
    for _ in 0..count {
        // The journal has room for each turn: only an allocation can fail.
        simulation.turn().or(Err(AllocError))?;
    }
    let cluster = simulation.into_cluster();
    cluster.survives();
    Ok(cluster)
}

/// Lets the actors of a cluster of this configuration take so many turns, or as many as its journal
/// may have entries, and writes the audit. Whose turn it is and what it does is drawn from the
/// seed, for each actor and for the turns from a stream of its own; fault actors follow the plan.
///
/// All turns are taken before the first byte is written. An `Ok` is always `true`: the engines that
/// check an audit say `false` of one that isn't legal.
///
/// # Errors
///
/// `NoMemory` where an allocation fails: nothing is out, or a front of the audit and never all of
/// it. `Write` where the writer fails or takes no byte: a front of the audit is out, and never all
/// of it.
pub fn run_simulate<W: Write>(
    alloc: Global,
    config: &Config,
    seed: u64,
    plan: Plan,
    acts: u64,
    writer: &mut W,
) -> Result<bool, Stop>
    ensures done { IfOk result (λ done. (done ≡ true) × HasSimulatedAudit config.now seed plan acts
        (Appends (W.contents writer.old) (W.contents writer.new))) }
    ensures front_out { result ≡ Err Stop.Write → HasSimulatedAudit config.now seed plan acts
        (AppendsProperPrefix (W.contents writer.old) (W.contents writer.new)) }
    ensures no_memory { result ≡ Err Stop.NoMemory →
        (W.contents writer.new ≡ W.contents writer.old)
        ⊎ HasSimulatedAudit config.now seed plan acts
        (AppendsProperPrefix (W.contents writer.old) (W.contents writer.new)) }
    ensures no_other { IfErr result IsOutputStop }
{
    let cluster = play(alloc, config, seed, plan, acts)?;
    write_audit(alloc, cluster.journal(), writer)
}
