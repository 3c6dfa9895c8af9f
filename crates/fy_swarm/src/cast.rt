//! Who plays an actor of a swarm, by its role and number.
ghost use Rattle.std.specs.Prelude.{◌≡◌, ◌<◌, ◌≤◌, length, IfOk, if◌then◌else◌};
ghost use Rattle.fy_actors.specs.Schedules.{begun, swizzle_acts, attrition_acts};
ghost use Rattle.fy_actors.specs.Plans.{IsSwizzle, machines_to_kill, everyone, plan_words};
ghost use Rattle.fy_actors.specs.declared.plans.SwizzlePlan.{SwizzlePlan as Plan};
ghost use Rattle.fy_kinds.specs.Kinds.{rank};
ghost use Rattle.fy_kinds.specs.declared.kind.Kind.TheVariants as kind;
ghost use Rattle.fy_swarm.specs.Swarm.{payloads, storing, is_fault, faults_before, Plays};

use crate::player::Player;
use fy_actors::{AttritionFault, Schedule, StorageDriver, draw_attrition, draw_swizzle, everyone};
use fy_cluster::{Config, Role};
use fy_disk::Payload;
use fy_kinds::Kind;
use fy_locality::Map;
use fy_team::Members;
use std::alloc::{AllocError, Global};

/// How many acts a storage actor makes in all.
const STORAGE_ACTS: u32 = 200;

/// For how many ticks a process is clogged.
const CLOG_TICKS: u64 = 10;

/// How many machines are killed at most, and how many are left at least.
const TO_KILL: u32 = 2;

const TO_LEAVE: u32 = 1;

/// Four payloads of a byte each, 0 to 3.
#[tactic(auto, using(crate::proofs::Playing::one_payload_more))]
fn payloads(alloc: Global) -> Result<Vec<Payload>, AllocError>
    ensures { IfOk result (λ made. made.items ≡ payloads) }
{
    let mut made = Vec::new(alloc);
    for byte in 0..4u8 {
        made.push(Payload::make(alloc, &[byte])?)?;
    }
    Ok(made)
}

/// Who stores four payloads in a team of all processes, under the first policy.
fn storage(alloc: Global, map: &Map) -> Result<StorageDriver, AllocError>
    ensures { IfOk result (λ driver. driver ≡ storing map.now) }
{
    // A map has at most 1024 processes, so all of them may be members.
    let _few = map.len();
    let Ok(members) = Members::from_vec(everyone(alloc, map)?) else {
        unreachable!();
    };
    let payloads = payloads(alloc)?;
    Ok(StorageDriver::make(alloc, members, 0, payloads, STORAGE_ACTS))
}

/// Who clogs the processes that the words of this actor choose and frees them again.
fn swizzle(alloc: Global, map: &Map, seed: u64, actor: u32) -> Result<Schedule, AllocError>
    ensures { IfOk result (λ made. (plan : Plan)
        × IsSwizzle (plan_words map.now seed actor) (everyone map.now) plan
        × (made ≡ begun (swizzle_acts map.now plan 10))) }
{
    let plan = draw_swizzle(alloc, map, seed, actor as u64)?;
    Schedule::swizzle(alloc, map, &plan, CLOG_TICKS)
}

/// Who kills the machines that the words of this actor choose.
fn attrition(alloc: Global, map: &Map, seed: u64, actor: u32) -> Result<Schedule, AllocError>
    ensures { (ordered : rank kind.Reboot ≤ rank kind.KillInstantly) → IfOk result (λ made.
        made ≡ begun (attrition_acts kind.KillInstantly kind.Reboot 0 ordered
        (machines_to_kill (plan_words map.now seed actor) map.now 2 1))) }
{
    let plan = draw_attrition(alloc, map, seed, actor as u64, TO_KILL, TO_LEAVE)?;
    match Schedule::attrition(alloc, &plan, Kind::KillInstantly, Kind::Reboot, 0) {
        Ok(made) => Ok(made),
        Err(AttritionFault::NoMemory) => Err(AllocError),
        Err(AttritionFault::Floor) => unreachable!(),
    }
}

/// How much an actor of this role adds to the number of fault actors.
fn fault_count(role: Role) -> u32
    ensures count { result ≡ (if is_fault role then 1 else 0) }
    ensures few { result ≤ 1 }
{
    match role {
        Role::Fault => 1,
        Role::Storage => 0,
        Role::Operator => 0,
    }
}

/// How many of the actors before this one are fault actors.
fn faults_before(config: &Config, actor: u32) -> u32
    requires { actor ≤ length config.now.roles }
    ensures { result ≡ faults_before config.now.roles actor }
{
    let mut count = 0;
    for other in 0..actor {
        let Some(role) = config.role(other) else {
            unreachable!();
        };
        count += fault_count(role);
    }
    count
}

/// Who plays this actor of a cluster of the configuration, or nobody, where it is an operator. Its
/// role says what it does, and its words, which are drawn from the seed, to whom.
///
/// Asks that there is such an actor.
///
/// # Errors
///
/// `AllocError` only where an allocation fails.
pub fn player_of(
    alloc: Global,
    config: &Config,
    seed: u64,
    actor: u32,
) -> Result<Option<Player>, AllocError>
    requires { actor < length config.now.roles }
    ensures { IfOk result (Plays config.now seed actor) }
{
    let map = config.map();
    let Some(role) = config.role(actor) else {
        unreachable!();
    };
    match role {
        Role::Storage => Ok(Some(Player::Stores(storage(alloc, map)?))),
        Role::Operator => Ok(None),
        Role::Fault => {
            if faults_before(config, actor) % 2 == 0 {
                Ok(Some(Player::Swizzles(swizzle(alloc, map, seed, actor)?)))
            } else {
                Ok(Some(Player::Kills(attrition(alloc, map, seed, actor)?)))
            }
        }
    }
}
