//! Words of a seed, and the orders of plans that are drawn from them.
ghost use Rattle.std.specs.Prelude.{◌≡◌, ◌≢◌, ◌<◌, ◌≤◌, List, length, All, IfOk, IfErr, IfSome, IfNone, Some};
ghost use Rattle.fy_players.specs.declared.faults.Plan.{Plan};
ghost use Rattle.fy_acts.specs.declared.act.Act.TheVariants as act;
ghost use Rattle.std.specs.Ptr.{null_ptr};
ghost use Rattle.fy_kinds.specs.declared.kind.Kind.{Kind};
ghost use Rattle.fy_kinds.specs.Kinds.{rank};
ghost use Rattle.fy_actors.specs.Schedules.{swizzle_acts, attrition_acts};
ghost use Rattle.fy_c.specs.Killing.{AreKinds};
ghost use Rattle.fy_c.specs.Numbers.{key_number, kind_number};
ghost use Rattle.fy_c.specs.Planning.{Draws, with_zeros, order_of, orders_of, clog_of, unclog_of, kill_of, no_order, IsSwizzleOf, machines_of, IsAttritionOf, Gives, Plans, PlansAttrition, plan_number, AreOrdersOf, FillsWithOrders};
ghost use Rattle.fy_c.specs.Statuses.{Answers, ending};
ghost use Rattle.fy_c.specs.declared.planning.FyOrder.{FyOrder};

use crate::handle::FyGuard;
use crate::killing::kinds_of;
use crate::numbers::kind_number;
use crate::status::{Status, number_of};
use fy_actors::{AttritionPlan, SwizzlePlan, draw_attrition, draw_swizzle, process_target, words};
use fy_acts::Act;
use fy_kinds::{KillOrder, Kind, Target};
use fy_locality::{Key, Map, Name, ProcId};
use fy_players::{Orders, Plan};
use std::alloc::{AllocError, Global};

/// How many bytes the value of an order has: a name of the most characters, and a zero behind it.
pub const VALUE_BYTES: usize = 33;

/// Writes as many words as there is room for: the first of a stream of the seed.
///
/// # Errors
///
/// `NoMemory`: nothing is written then.
#[tactic(auto, using(crate::proofs::Drawn::word_count))]
#[unsafe(no_mangle)]
pub extern "C" fn fy_words(alloc: Global, seed: u64, stream: u64, room: &mut [u32]) -> u32
    ensures { Answers result (Draws seed stream room.old room.new) }
{
    let Ok(drawn) = words(alloc, seed, stream, room.len()) else {
        return Status::NoMemory.number();
    };
    room.copy_from_slice(&drawn);
    Status::Done.number()
}

/// An order of a plan. A number that its act has no use for is 0.
#[repr(C)]
#[derive(Clone, Copy)]
pub struct FyOrder {
    /// For how many ticks a clog lasts.
    pub ticks: u64,
    /// Which unsynced writes a reboot keeps.
    pub tear: u64,
    /// What is ordered: 1 is a kill, 2 a clog, 3 the end of one; 0 where nothing is.
    pub act: u32,
    /// The number of the target's key.
    pub key: u32,
    /// The number of a kill's kind.
    pub kind: u32,
    /// The number of a kill's floor.
    pub floor: u32,
    /// The target's value, with zeros behind it.
    pub value: [u8; VALUE_BYTES],
}

/// The number of what is no order.
const NO_ORDER: u32 = 0;

/// The number of a kill.
const ORDER_KILL: u32 = 1;

/// The number of a clog.
const ORDER_CLOG: u32 = 2;

/// The number of the end of a clog.
const ORDER_UNCLOG: u32 = 3;

/// The number of a key.
fn key_number(key: Key) -> u32
    ensures { result ≡ key_number key }
{
    match key {
        Key::Process => 1,
        Key::Machine => 2,
        Key::Zone => 3,
        Key::DataHall => 4,
        Key::DataCenter => 5,
    }
}

/// A name's bytes, with zeros behind them.
fn with_zeros(name: &Name) -> [u8; VALUE_BYTES]
    ensures { result ≡ with_zeros name.now }
{
    let text = name.as_bytes();
    let mut value = [0; VALUE_BYTES];
    value[..text.len()].copy_from_slice(text);
    value
}

/// The order of a clog of this many ticks, or of the end of one.
fn order_of_clog(act: u32, target: Target, ticks: u64) -> FyOrder
    ensures { result ≡ record {
      ticks = ticks;
      tear = 0;
      act = act;
      key = key_number target.key;
      kind = 0;
      floor = 0;
      value = with_zeros target.value;
    } }
{
    FyOrder {
        ticks,
        tear: 0,
        act,
        key: key_number(target.key),
        kind: 0,
        floor: 0,
        value: with_zeros(&target.value),
    }
}

/// The order to clog a process.
fn clog(map: &Map, p: ProcId, ticks: u64) -> FyOrder
    requires { p.0 < length map.now }
    ensures { result ≡ clog_of map.now ticks p }
{
    order_of_clog(ORDER_CLOG, process_target(map, p), ticks)
}

/// The order to end the clogs of a process.
fn unclog(map: &Map, p: ProcId) -> FyOrder
    requires { p.0 < length map.now }
    ensures { result ≡ unclog_of map.now p }
{
    order_of_clog(ORDER_UNCLOG, process_target(map, p), 0)
}

/// The order of a kill by this kind, down to this floor.
fn order_to_kill(target: Target, kind: Kind, floor: Kind, tear: u64) -> FyOrder
    ensures { result ≡ record {
      ticks = 0;
      tear = tear;
      act = 1;
      key = key_number target.key;
      kind = kind_number kind;
      floor = kind_number floor;
      value = with_zeros target.value;
    } }
{
    FyOrder {
        ticks: 0,
        tear,
        act: ORDER_KILL,
        key: key_number(target.key),
        kind: kind_number(kind),
        floor: kind_number(floor),
        value: with_zeros(&target.value),
    }
}

/// The order to kill a machine.
fn kill(machine: &Name, kind: Kind, floor: Kind, tear: u64) -> FyOrder
    ensures { result ≡ kill_of kind floor tear machine.now }
{
    let (key, value) = (Key::Machine, *machine);
    order_to_kill(Target { key, value }, kind, floor, tear)
}

/// The orders to clog each process of a plan and then to end the clog of each.
fn swizzle_orders(
    alloc: Global,
    map: &Map,
    plan: &SwizzlePlan,
    ticks: u64,
) -> Result<Vec<FyOrder>, AllocError>
    requires clogs { All (λ p. p.0 < length map.now) plan.now.clogs.items }
    requires frees { All (λ p. p.0 < length map.now) plan.now.frees.items }
    ensures { IfOk result (λ orders.
        orders.items ≡ orders_of (swizzle_acts map.now plan.now ticks)) }
{
    let mut orders = Vec::new(alloc);
    for p in plan.clogs.iter() {
        orders.push(clog(map, *p, ticks))?;
    }
    for p in plan.frees.iter() {
        orders.push(unclog(map, *p))?;
    }
    Ok(orders)
}

/// The orders of a swizzle that is drawn.
///
/// # Errors
///
/// `NoMemory`.
fn swizzle(
    alloc: Global,
    map: &Map,
    seed: u64,
    stream: u64,
    ticks: u64,
) -> Result<Vec<FyOrder>, Status>
    ensures drawn { IfOk result (λ orders. IsSwizzleOf map.now seed stream ticks orders.items) }
    ensures none { IfErr result (λ status. (orders : List FyOrder) →
        Plans (IsSwizzleOf map.now seed stream ticks) orders orders 0 status) }
{
    let plan = draw_swizzle(alloc, map, seed, stream)?;
    Ok(swizzle_orders(alloc, map, &plan, ticks)?)
}

/// Writes the orders of a plan to the front of a buffer where they fit; tells how many there are.
///
/// # Errors
///
/// Why there is no plan, and 0 is told; `Short` where the buffer has room for fewer.
fn give(
    plan: Result<Vec<FyOrder>, Status>,
    buffer: &mut [FyOrder],
    told: &mut usize,
) -> Result<(), Status>
    ensures given { IfOk plan (λ orders.
        Gives orders.items buffer.old buffer.new told.new (ending result)) }
    ensures none { IfErr plan (λ status. (ending result ≡ status)
        × (told.new ≡ 0) × (buffer.new ≡ buffer.old)) }
{
    *told = 0;
    let orders = plan?;
    *told = orders.len();
    if buffer.len() < orders.len() {
        return Err(Status::Short);
    }
    buffer[..orders.len()].copy_from_slice(&orders);
    Ok(())
}

/// Writes the orders of a swizzle to the front of a buffer: those of the first, third, .. fault
/// actor of a swarm whose number is the stream, where they clog for 10 ticks. How many there are
/// goes to `told`.
///
/// # Errors
///
/// In order: `NoMemory`, and 0 goes to `told`; `Short` where the buffer has room for fewer. Nothing
/// is written to the buffer then.
#[unsafe(no_mangle)]
pub extern "C" fn fy_swizzle_plan(
    alloc: Global,
    guard: &mut FyGuard,
    seed: u64,
    stream: u64,
    ticks: u64,
    orders: &mut [FyOrder],
    told: &mut usize,
) -> u32
    requires { guard.old.at ≢ null_ptr }
    ensures kept { guard.new.value ≡ guard.old.value }
    ensures place { guard.new.at ≡ guard.old.at }
    ensures planned { Answers result (Plans
        (IsSwizzleOf guard.old.value.setup.processes seed stream ticks)
        orders.old orders.new told.new) }
{
    let plan = swizzle(alloc, guard.cluster().config().map(), seed, stream, ticks);
    number_of(give(plan, orders, told))
}

/// Which machines are killed, and how, as C asks for it.
#[derive(Clone, Copy)]
struct Asked {
    seed: u64,
    stream: u64,
    to_kill: u32,
    to_leave: u32,
    kind: u32,
    floor: u32,
    tear: u64,
}

/// The machines that are asked for, drawn from a stream of the seed.
fn draw_machines(alloc: Global, map: &Map, asked: Asked) -> Result<AttritionPlan, AllocError>
    ensures { IfOk result (λ plan. plan.machines.items ≡ machines_of map.now asked) }
{
    let Asked {
        seed,
        stream,
        to_kill,
        to_leave,
        ..
    } = asked;
    draw_attrition(alloc, map, seed, stream, to_kill, to_leave)
}

/// The order to kill each machine.
fn kill_orders(
    alloc: Global,
    machines: &[Name],
    kind: Kind,
    floor: Kind,
    tear: u64,
) -> Result<Vec<FyOrder>, AllocError>
    ensures { (ordered : rank floor ≤ rank kind) → IfOk result (λ orders.
        orders.items ≡ orders_of (attrition_acts kind floor tear ordered machines.now)) }
{
    let mut orders = Vec::new(alloc);
    for machine in machines {
        orders.push(kill(machine, kind, floor, tear))?;
    }
    Ok(orders)
}

/// The orders of the attrition that is asked for.
///
/// # Errors
///
/// In order: `Argument` where a number is that of no kind; `Floor` where the floor is above the
/// kind; `NoMemory`.
fn attrition(alloc: Global, map: &Map, asked: Asked) -> Result<Vec<FyOrder>, Status>
    ensures drawn { IfOk result (λ orders.
        (kind : Kind) × (floor : Kind) × (are : AreKinds asked.kind asked.floor kind floor)
        × IsAttritionOf map.now asked kind floor are.ordered orders.items) }
    ensures none { IfErr result (λ status. (orders : List FyOrder) →
        PlansAttrition map.now asked orders orders 0 status) }
{
    let (kind, floor) = kinds_of(asked.kind, asked.floor)?;
    let plan = draw_machines(alloc, map, asked)?;
    Ok(kill_orders(alloc, &plan.machines, kind, floor, asked.tear)?)
}

/// Writes the orders of an attrition to the front of a buffer: those of the second, fourth, ..
/// fault actor of a swarm whose number is the stream, where they kill 2 machines and leave 1, by
/// `KillInstantly` with the floor `Reboot` and the tear 0. How many there are goes to `told`.
///
/// # Errors
///
/// In order: `Argument` where a number is that of no kind; `Floor` where the floor is above the
/// kind; `NoMemory`: 0 goes to `told`. `Short` where the buffer has room for fewer. Nothing is
/// written to the buffer then.
#[unsafe(no_mangle)]
pub extern "C" fn fy_attrition_plan(
    alloc: Global,
    guard: &mut FyGuard,
    seed: u64,
    stream: u64,
    to_kill: u32,
    to_leave: u32,
    kind: u32,
    floor: u32,
    tear: u64,
    orders: &mut [FyOrder],
    told: &mut usize,
) -> u32
    requires { guard.old.at ≢ null_ptr }
    ensures kept { guard.new.value ≡ guard.old.value }
    ensures place { guard.new.at ≡ guard.old.at }
    ensures planned { Answers result (PlansAttrition guard.old.value.setup.processes
        (record {
          seed = seed;
          stream = stream;
          to_kill = to_kill;
          to_leave = to_leave;
          kind = kind;
          floor = floor;
          tear = tear;
        }) orders.old orders.new told.new) }
{
    let asked = Asked {
        seed,
        stream,
        to_kill,
        to_leave,
        kind,
        floor,
        tear,
    };
    let plan = attrition(alloc, guard.cluster().config().map(), asked);
    number_of(give(plan, orders, told))
}

/// The plan that a program in C gives by its number.
fn plan_of(number: u32) -> Option<Plan>
    ensures some { IfSome result (λ plan. number ≡ plan_number plan) }
    ensures none { IfNone result ((plan : Plan) → number ≢ plan_number plan) }
{
    match number {
        1 => Some(Plan::Mixed),
        2 => Some(Plan::Attrition),
        3 => Some(Plan::Swizzle),
        4 => Some(Plan::Rolling),
        _ => None,
    }
}

/// An order that is none.
fn no_order() -> FyOrder
    ensures { result ≡ no_order }
{
    FyOrder {
        ticks: 0,
        tear: 0,
        act: NO_ORDER,
        key: 0,
        kind: 0,
        floor: 0,
        value: [0; VALUE_BYTES],
    }
}

/// The order of a kill.
fn order_of_kill(order: KillOrder) -> FyOrder
    ensures { result ≡ order_of (act.Kill order) }
{
    order_to_kill(order.target(), order.kind(), order.floor(), order.tear())
}

/// The order of an act.
fn order_of(act: &Act) -> FyOrder
    ensures { result ≡ order_of act.now }
{
    match *act {
        Act::Kill { order } => order_of_kill(order),
        Act::Clog { target, ticks } => order_of_clog(ORDER_CLOG, target, ticks),
        Act::Unclog { target } => order_of_clog(ORDER_UNCLOG, target, 0),
        _ => no_order(),
    }
}

/// The orders of the first turns of the fault actor with this number.
fn plan_orders(
    alloc: Global,
    map: &Map,
    plan: Plan,
    seed: u64,
    actor: u32,
    count: usize,
) -> Result<Vec<FyOrder>, AllocError>
    ensures { IfOk result (λ orders. AreOrdersOf map.now plan seed actor count orders.items) }
{
    let mut turns = Orders::make(alloc, seed, plan, actor);
    let mut orders = Vec::new(alloc);
    for _ in 0..count {
        let act = turns.next(map)?;
        orders.push(order_of(&act))?;
    }
    Ok(orders)
}

/// Writes as many orders as there is room for: those of the first turns that the fault actor with
/// this number takes in a simulation by this plan and seed, one a turn. A turn that orders nothing
/// has an order whose act is 0.
///
/// # Errors
///
/// In order: `Argument` where the number is that of no plan; `NoMemory`. Nothing is written then.
#[unsafe(no_mangle)]
pub extern "C" fn fy_plan_orders(
    alloc: Global,
    guard: &mut FyGuard,
    plan: u32,
    seed: u64,
    actor: u32,
    orders: &mut [FyOrder],
) -> u32
    requires { guard.old.at ≢ null_ptr }
    ensures kept { guard.new.value ≡ guard.old.value }
    ensures place { guard.new.at ≡ guard.old.at }
    ensures filled { Answers result (FillsWithOrders guard.old.value.setup.processes plan seed actor
        orders.old orders.new) }
{
    let Some(plan) = plan_of(plan) else {
        return Status::Argument.number();
    };
    let map = guard.cluster().config().map();
    let Ok(made) = plan_orders(alloc, map, plan, seed, actor, orders.len()) else {
        return Status::NoMemory.number();
    };
    orders.copy_from_slice(&made);
    Status::Done.number()
}
