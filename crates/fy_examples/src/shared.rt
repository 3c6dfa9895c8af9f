//! A shared cluster: an order from a seat, two seats that meet, a post with an actor of its own,
//! and the close.
ghost use Rattle.std.specs.Prelude.{◌≡◌, ◌≤◌, All, IfOk, Some, length};

use crate::single::config_for;
use fy_actors::{FaultActor, StorageDriver, Turn};
use fy_acts::{Act, Reply};
use fy_cluster::{Cluster, Role};
use fy_locality::ProcId;
use fy_shared::laws::new_seats_are_its_own;
use fy_shared::{End, Gate, Post, Receipt, Seat, Shared, run_actors};
use fy_team::Members;
use std::alloc::Global;
use std::boxed::Box;
use std::sync::Wait;
use std::test::Fail;

/// A cluster of one process that is shared, with a seat for each of these roles.
fn opened(alloc: Global, roles: &[Role]) -> Result<(Shared, Vec<Seat>), Fail>
    ensures { IfOk result (λ made. All (λ seat. seat.of ≡ Some made.0) made.1.items) }
{
    new_seats_are_its_own();
    let cluster = Cluster::make(alloc, config_for(alloc, roles)?)?;
    match Shared::open(alloc, cluster) {
        Ok(open) => Ok(open),
        Err(_) => Err(Fail::from("no memory")),
    }
}

#[test]
fn an_order_is_made_from_a_seat(rt: HostRuntime) -> Result<(), Fail> {
    let (shared, mut seats) = opened(rt.alloc(), &[Role::Storage])?;
    let Some(seat) = seats.get_mut(0) else {
        return Err(Fail::from("no seat"));
    };
    let receipt = shared.order(&rt, seat, Act::Tick { ticks: 1 })?;
    let reply = Reply::Time { now: 1 };
    assert_eq!(rt; receipt, Receipt { at: 0, reply });
    let Ok(closed) = shared.close(seats) else {
        return Err(Fail::from("a seat is missing"));
    };
    assert_eq!(rt; closed.cluster.journal().len(), 1);
    Ok(())
}

/// What is ordered from a seat that has met another: its entry stands behind all that the other had
/// seen.
fn met_and_ordered<R: Wait>(
    rt: &R,
    shared: &Shared,
    one: &mut Seat,
    other: &mut Seat,
) -> Result<Receipt, Fail>
    requires one { one.old.of ≡ Some shared.now }
    requires other { other.old.of ≡ Some shared.now }
    ensures { IfOk result (λ receipt. length one.old.seen ≤ receipt.at) }
{
    let met = shared.meet(one, other);
    prove!(met.is_ok());
    let receipt = shared.order(rt, other, Act::Tick { ticks: 1 })?;
    Ok(receipt)
}

#[test]
fn a_seat_knows_what_it_is_told(rt: HostRuntime) -> Result<(), Fail> {
    let (shared, mut seats) = opened(rt.alloc(), &[Role::Storage, Role::Storage])?;
    let (Some(mut other), Some(mut one)) = (seats.pop(), seats.pop()) else {
        return Err(Fail::from("no two seats"));
    };
    let first = shared.order(&rt, &mut one, Act::Tick { ticks: 1 })?;
    let second = met_and_ordered(&rt, &shared, &mut one, &mut other)?;
    prove!(first.at < second.at);
    assert_eq!(rt; (first.at, second.at), (0, 1));
    assert_eq!(rt; second.reply, Reply::Time { now: 2 });
    Ok(())
}

/// Lets every turn be taken.
struct Open;

impl Gate for Open {
    fn before(&self, _actor: u32, _turn: u32) -> bool {
        true
    }
}

/// A post at this seat, of an actor that forms a team of the one process.
fn posted(alloc: Global, shared: &Shared, seat: Seat) -> Result<Vec<Post>, Fail>
    requires { seat.of ≡ Some shared.now }
    ensures { IfOk result (λ posts. All (λ post. post.seat.of ≡ Some shared.now) posts.items) }
{
    let members = Members::make(alloc, &[ProcId(0)])?;
    let driver = StorageDriver::make(alloc, members, 0, Vec::new(alloc), 1);
    let actor: Box<dyn FaultActor + Send> = Box::new(alloc, driver)?;
    let end = End::NotRun;
    let mut posts = Vec::new(alloc);
    posts.push(Post { seat, actor, end })?;
    Ok(posts)
}

#[test]
fn a_turn_is_taken_from_a_seat(rt: HostRuntime) -> Result<(), Fail> {
    let alloc = rt.alloc();
    let (shared, mut seats) = opened(alloc, &[Role::Storage])?;
    let Some(seat) = seats.get_mut(0) else {
        return Err(Fail::from("no seat"));
    };
    let members = Members::make(alloc, &[ProcId(0)])?;
    let driver = StorageDriver::make(alloc, members, 0, Vec::new(alloc), 1);
    let mut actor: Box<dyn FaultActor + Send> = Box::new(alloc, driver)?;
    let before = seat.receipts().len();
    let turn = shared.turn(&rt, seat, &mut actor)?;
    prove!(before <= seat.receipts().len());
    assert_eq!(rt; (turn, seat.receipts().len()), (Turn::Ended, 1));
    Ok(())
}

#[test]
fn a_post_is_run_to_its_end(rt: HostRuntime) -> Result<(), Fail> {
    let (shared, mut seats) = opened(rt.alloc(), &[Role::Storage])?;
    let Some(seat) = seats.pop() else {
        return Err(Fail::from("no seat"));
    };
    let mut posts = posted(rt.alloc(), &shared, seat)?;
    run_actors(&rt, &shared, &mut posts, &Open, 9);
    let post = posts.first().ok_or("no post")?;
    assert_eq!(rt; post.end, End::Ended);
    let formed = Reply::Formed { team: 0 };
    let told = post.seat.receipts().first().map(|entry| entry.reply);
    assert_eq!(rt; told, Some(formed));
    Ok(())
}
