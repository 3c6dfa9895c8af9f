//! The engine behind `faultyard swarm`: every actor of a cluster is let loose on a thread of its
//! own, and the audit of what came of it goes out.
ghost use Rattle.std.specs.Prelude.{◌≡◌, ◌≢◌, ◌<◌, ◌⊎◌, ◌++◌, ℕ, List, length, map, true, false, All, Contains, IfOk, IfErr, IsOk, Some, Err, slice_get};
ghost use Rattle.std.specs.List.{AllZip};
ghost use Rattle.std.specs.Io.KnownBytes.{Appends};
ghost use Rattle.fy_lines.specs.Prefixes.{AppendsProperPrefix};
ghost use Rattle.fy_shared.specs.Yard.{SeatState, new_seat, new_seats, Settled, Missing};
ghost use Rattle.fy_shared.specs.Posts.{Ran};
ghost use Rattle.fy_shared.specs.declared.posts.End.TheVariants.{Failed};
ghost use Rattle.fy_cluster.specs.declared.fault.Fault.TheVariants.{NoMemory};
ghost use Rattle.fy_swarm.specs.Swarm.{IsSwarm, HasSwarmAudit, AllFinished, is_active, most_turns};
ghost use Rattle.fy_streams.specs.Outputs.{IsOutputStop};

use crate::cast::player_of;
use fy_actors::FaultActor;
use fy_actors::laws::parts_are_kept;
use fy_cluster::{Cluster, Config, Fault};
use fy_shared::{CloseFault, Closed, End, Gate, Post, Seat, Shared, run_actors};
use fy_streams::{Stop, write_audit};
use std::alloc::{AllocError, Global};
use std::boxed::Box;
use std::io::Write;
use std::sync::Wait;
use std::thread::Threads;

/// How many turns an actor takes at most.
const MOST_TURNS: u32 = 1000;

/// A gate that is always open.
struct OpenGate;

impl Gate for OpenGate {
    ghost shuts = { λ _ _ _. ⊥ };

    fn before(&self, _actor: u32, _turn: u32) -> bool {
        true
    }
}

/// A cluster of the configuration that its actors share, and a seat for each, by number.
fn open(alloc: Global, config: &Config) -> Result<(Shared, Vec<Seat>), AllocError>
    ensures setup { IfOk result (λ made. made.0.setup ≡ config.now) }
    ensures seats { IfOk result
        (λ made. made.1.items ≡ new_seats made.0 0 (length config.now.roles)) }
{
    let config = config.try_copy(alloc)?;
    let cluster = Cluster::make(alloc, config)?;
    match Shared::open(alloc, cluster) {
        Ok(open) => Ok(open),
        Err(_) => Err(AllocError),
    }
}

/// Runs each post until it has ended.
fn run_posts<R: Threads + Wait + Sync>(rt: &R, shared: &Shared, posts: &mut Vec<Post>)
    requires { All (λ post. post.seat.of ≡ Some shared.now) posts.old.items }
    ensures theirs { All (λ post. post.seat.of ≡ Some shared.now) posts.new.items }
    ensures ran { AllZip (λ old new. Ran shared.now (λ _ _. ⊥) most_turns old.seat new.seat
        (part (old.actor.vtable, old.actor.value)) (part (new.actor.vtable, new.actor.value))
        new.end) posts.old.items posts.new.items }
    ensures same { length posts.new.items ≡ length posts.old.items }
{
    run_actors(rt, shared, posts.as_mut_slice(), &OpenGate, MOST_TURNS);
}

/// The seats that are back, and behind them those of posts that were run.
///
/// # Errors
///
/// `AllocError` where an allocation fails, also one of a post.
fn collect_seats(posts: Vec<Post>, back: Vec<Seat>) -> Result<Vec<Seat>, AllocError>
    ensures { IfOk result (λ seats.
        (seats.items ≡ back.items ++ map (λ post. post.seat) posts.items)
        × All (λ post. post.end ≢ Failed NoMemory) posts.items) }
{
    let mut seats = back;
    for post in posts {
        let Post {
            seat,
            actor: _,
            end,
        } = post;
        if end == End::Failed(Fault::NoMemory) {
            return Err(AllocError);
        }
        seats.push(seat)?;
    }
    Ok(seats)
}

/// Lets each actor loose at its seat, on a thread of its own, and gives the seats back once all
/// have ended; who isn't let loose keeps its seat as it is. A full journal ends an actor, as do a
/// thousand turns.
///
/// # Errors
///
/// `AllocError` where an allocation fails, also one of an actor.
fn run_players<R: Threads + Wait + Sync>(
    rt: &R,
    alloc: Global,
    config: &Config,
    seed: u64,
    shared: &Shared,
    seats: Vec<Seat>,
) -> Result<Vec<Seat>, AllocError>
    requires { seats.items ≡ new_seats shared.now 0 (length config.now.roles) }
    ensures theirs { IfOk result (λ back.
        All (λ seat. seat.of ≡ Some shared.now) back.items) }
    ensures rested { IfOk result (λ back. (a : ℕ) → a < length config.now.roles →
        is_active (slice_get config.now.roles a) ≡ false →
        Contains back.items (new_seat shared.now a)) }
    ensures played { IfOk result (λ back.
        AllFinished config.now seed shared.now back.items) }
{
    let mut posts = Vec::new(alloc);
    let mut back = Vec::with_capacity(alloc, seats.len())?;
    for seat in seats {
        let Some(player) = player_of(alloc, config, seed, seat.actor())? else {
            back.push(seat)?;
            continue;
        };
        let actor: Box<dyn FaultActor + Send> = Box::new(alloc, player)?;
        let end = End::NotRun;
        posts.push(Post { seat, actor, end })?;
    }
    run_posts(rt, shared, &mut posts);
    collect_seats(posts, back)
}

/// Closes the cluster that the actors shared. It is always closed, since every seat is handed in.
fn close(shared: Shared, seats: Vec<Seat>) -> Result<Cluster, Stop>
    requires theirs { All (λ seat. seat.of ≡ Some shared) seats.items }
    requires whole { ¬ Missing (length shared.setup.roles) seats.items }
    ensures closes { IsOk result }
    ensures settled { IfOk result (λ cluster. (left : List SeatState)
        × Settled shared seats.items cluster left) }
{
    match shared.close(seats) {
        Ok(Closed { cluster, seats: _ }) => Ok(cluster),
        Err(CloseFault::SeatsMissing(_, _)) => Err(Stop::SwarmClose),
        Err(CloseFault::NoMemory(_, _)) => Err(Stop::NoMemory),
    }
}

/// The cluster once its actors have done what they do.
fn run_all_actors<R: Threads + Wait + Sync>(
    rt: &R,
    alloc: Global,
    config: &Config,
    seed: u64,
) -> Result<Cluster, Stop>
    ensures swarm { IfOk result (λ cluster. IsSwarm config.now seed cluster.journal) }
    ensures no_other { IfErr result (λ stop. stop ≡ Stop.NoMemory) }
{
    let (shared, seats) = open(alloc, config)?;
    let seats = run_players(rt, alloc, config, seed, &shared, seats)?;
    parts_are_kept();
    close(shared, seats)
}

/// Lets every actor of a cluster of this configuration loose, each on a thread of its own, and
/// writes the audit of what came of it. In which order their acts are made is up to the threads.
///
/// A storage actor forms a team of all processes, stores four payloads there and moves data, by 200
/// acts in all. Of the fault actors by number, the first, third, .. clogs processes for ten ticks
/// and frees them again, and the second, fourth, .. kills two machines, but not the last one: by
/// `KillInstantly`, or where that is barred by a milder kind down to `Reboot`. Whom they clog and
/// kill is drawn from the seed, for each actor from a stream of its own. Operators do nothing.
///
/// All have ended before the first byte is written: each has made the acts of its plan or its rule,
/// in order and to their end, unless it made a thousand or the journal is full, which is no error.
/// An `Ok` is always `true`: the engines that check an audit say `false` of one that isn't legal.
///
/// # Errors
///
/// `NoMemory` where an allocation fails, also one of an actor: nothing is out, or a front of the
/// audit and never all of it. `Write` where the writer fails or takes no byte: a front of the audit
/// is out, and never all of it. It is never `SwarmClose`: every seat is handed in, so the cluster
/// is closed.
pub fn run_swarm<R: Threads + Wait + Sync, W: Write>(
    rt: &R,
    alloc: Global,
    config: &Config,
    seed: u64,
    writer: &mut W,
) -> Result<bool, Stop>
    ensures done { IfOk result (λ done. (done ≡ true) × HasSwarmAudit config.now seed
        (Appends (W.contents writer.old) (W.contents writer.new))) }
    ensures front_out { result ≡ Err Stop.Write → HasSwarmAudit config.now seed
        (AppendsProperPrefix (W.contents writer.old) (W.contents writer.new)) }
    ensures no_memory { result ≡ Err Stop.NoMemory →
        (W.contents writer.new ≡ W.contents writer.old)
        ⊎ HasSwarmAudit config.now seed
        (AppendsProperPrefix (W.contents writer.old) (W.contents writer.new)) }
    ensures no_other { IfErr result IsOutputStop }
{
    let cluster = run_all_actors(rt, alloc, config, seed)?;
    write_audit(alloc, cluster.journal(), writer)
}
