//! Actors that take their turns in threads.
ghost use Rattle.std.specs.Prelude.{◌≡◌, All, Some};
ghost use Rattle.std.specs.List.{AllZip};
ghost use Rattle.fy_shared.specs.Posts.{Ran};
ghost use denote.Param.Send.{IsSync};

use crate::yard::{Seat, Shared};
use fy_actors::laws::{answers_tell, parts_are_kept};
use fy_actors::{FaultActor, Turn};
use fy_cluster::Fault;
use std::boxed::Box;
use std::sync::Wait;
use std::thread;
use std::thread::Threads;

/// Who decides whether a post goes on. What holds where it shuts an actor out of a turn is known of
/// it; a gate that says nothing of it may always shut.
pub trait Gate: Sync {
    ghost use Rattle.std.specs.Prelude.{ℕ, IsFalse};

    ghost shuts: { Self → ℕ → ℕ → Type 0 } = { λ _ _ _. Unit {0} };

    /// Whether the actor may take its turn with this number, from 0. It is asked before each turn
    /// and while no turn is held, so it may take its time without holding up others.
    fn before(&self, actor: u32, turn: u32) -> bool
        ensures { IsFalse result → shuts self.now actor turn };
}

/// How a post ended.
#[derive(Clone, Copy, PartialEq, Eq, Debug)]
pub enum End {
    /// The post wasn't run yet.
    NotRun,
    /// The post's actor wants no further turn.
    Ended,
    /// The post took as many turns as it might.
    Limit,
    /// The gate let it take no further turn.
    Shut,
    /// A turn had this fault.
    Failed(Fault),
}

/// An actor at its seat, and how its last run ended.
#[derive(Drop)]
pub struct Post {
    pub seat: Seat,
    pub actor: Box<dyn FaultActor + Send>,
    pub end: End,
}

/// Runs a post to its end.
fn run_post<R: Wait, G: Gate>(rt: &R, shared: &Shared, post: &mut Post, gate: &G, max: u32)
    requires { post.old.seat.of ≡ Some shared.now }
    ensures { Ran shared.now (G.shuts gate.now) max post.old.seat post.new.seat
        (part post.old.actor) (part post.new.actor) post.new.end }
{
    let Post { seat, actor, end } = post;
    *end = take_turns(rt, shared, seat, actor, gate, max);
}

/// Takes turns until the actor, the gate, the limit or a fault ends it.
fn take_turns<R: Wait, G: Gate>(
    rt: &R,
    shared: &Shared,
    seat: &mut Seat,
    actor: &mut Box<dyn FaultActor + Send>,
    gate: &G,
    max: u32,
) -> End
    requires { seat.old.of ≡ Some shared.now }
    ensures { Ran shared.now (G.shuts gate.now) max seat.old seat.new (part actor.old)
        (part actor.new) result }
{
    parts_are_kept();
    answers_tell();
    let number = seat.actor();
    for turn in 0..max {
        if !gate.before(number, turn) {
            return End::Shut;
        }
        match shared.turn(rt, seat, actor) {
            Ok(Turn::More) => {}
            Ok(Turn::Ended) => return End::Ended,
            Err(fault) => return End::Failed(fault),
        }
    }
    End::Limit
}

/// Runs each post in a thread of its own, or one after the other where no thread can be started,
/// and returns once all have ended. Before each turn the gate is asked; no post takes more than
/// `max` turns, and with a `max` of 0 no gate is asked. Each seat has to be one of this cluster's.
///
/// Each post keeps its seat, with its receipts and those of its turns behind them. Its end says how
/// the run ended, whatever stood there before. After a turn the seat has seen a legal journal that
/// begins with all that it had seen, in which its actor's entries are its receipts. Without a turn
/// the seat is as it was, and the end is `Shut` or `Limit`.
///
/// An actor that is known to play a part has kept to it: each of its acts is the one that came
/// next, by the journal before it. At `Ended` no act is left, at `Limit` it has made `max` acts
/// more, and it fails by `JournalFull` only where the journal is full. At `Shut` the gate was asked
/// of the post's actor and of a turn below `max`, and such an actor has made an act in each turn
/// before.
pub fn run_actors<R: Threads + Wait + Sync, G: Gate>(
    rt: &R,
    shared: &Shared,
    posts: &mut [Post],
    gate: &G,
    max: u32,
)
    requires { All (λ post. post.seat.of ≡ Some shared.now) posts.old }
    ensures { AllZip (λ old new. Ran shared.now (G.shuts gate.now) max old.seat new.seat
        (part old.actor) (part new.actor) new.end) posts.old posts.new }
{
    if posts.is_empty() {
        return;
    }
    let threads = posts.len();
    let work = |_: usize, post: &mut Post|
        requires { IsSync R.row × IsSync G.row × (post.now.seat.of ≡ Some shared.now) }
        ensures { Ran shared.entry.now (G.shuts gate.entry.now) max post.entry.now.seat
            post.exit.now.seat (part post.entry.now.actor) (part post.exit.now.actor)
            post.exit.now.end }
    { run_post(rt, shared, post, gate, max) };
    thread::for_each_mut(rt, posts, threads, &work);
}
