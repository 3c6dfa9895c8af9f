//! What the entries before say of messages: which were sent, and which are in flight.
#![tactic(auto, using(crate::proofs::Pasts::past_next, crate::proofs::Pasts::past_none))]

ghost use Rattle.std.specs.Prelude.{◌≡◌, IfOk};
ghost use Rattle.fy_net.specs.Net.{is_ack_from};
ghost use Rattle.fy_cluster.specs.History.{History, some_is, sent, is_removed, in_flight, in_flight_count};
ghost use Rattle.fy_cluster.specs.Replies.{is_full};
ghost use Rattle.fy_check_by_rules.specs.Past.{as_step, history_of};

use crate::past::Past;
use crate::step::FoundStep;
use fy_acts::Act;
use fy_cluster::effects::is_accepted;
use fy_locality::ProcId;
use fy_net::{Body, MOST_IN_FLIGHT};
use std::alloc::AllocError;

/// The messages, by number.
pub(crate) fn sent(before: &Past) -> Result<Vec<Body>, AllocError>
    ensures { IfOk result (λ bodies. bodies.items ≡ sent (history_of before.now)) }
{
    let mut sent = Vec::new(before.alloc);
    for step in before.steps {
        sent.extend_from_slice(&step.sends)?;
    }
    Ok(sent)
}

/// Whether there is such a message and the process says it: it has synced a record.
fn is_ack_from(body: Option<Body>, p: ProcId) -> bool
    ensures { result ≡ some_is (is_ack_from p.0) body }
{
    match body {
        Some(Body::Synced { from, .. }) => from.0 == p.0,
        Some(Body::Store { .. }) | None => false,
    }
}

/// Whether the step took the message out of the network: a Deliver or Lose the one that it names, a
/// Heal each word that its process had sent. The messages sent before the step are given.
fn removes(bodies: &[Body], step: &FoundStep, message: u64) -> bool
    ensures { (h : History) → sent h ≡ bodies.now
        → result ≡ (as_step h step.now).removes message }
{
    if !is_accepted(step.entry.reply) {
        return false;
    }
    match step.entry.act {
        Act::Deliver { message: taken } => taken == message,
        Act::Lose { message: taken } => taken == message,
        Act::Heal { process } => is_ack_from(bodies.get(message as usize).copied(), process),
        _ => false,
    }
}

/// Whether some step took the message out of the network.
fn is_removed(before: &Past, message: u64) -> Result<bool, AllocError>
    ensures { IfOk result (λ taken. taken ≡ is_removed (history_of before.now) message) }
{
    let mut sent = Vec::new(before.alloc);
    let mut taken = false;
    for step in before.steps {
        taken = removes(&sent, step, message) || taken;
        sent.extend_from_slice(&step.sends)?;
    }
    Ok(taken)
}

/// Whether the message was sent, and nothing took it out.
pub(crate) fn in_flight(before: &Past, message: u64) -> Result<bool, AllocError>
    ensures { IfOk result (λ flies. flies ≡ in_flight (history_of before.now) message) }
{
    let count = sent(before)?.len();
    if message as usize >= count {
        return Ok(false);
    }
    Ok(!is_removed(before, message)?)
}

/// How many messages are in flight.
#[tactic(auto, using(crate::proofs::Lists::count_next))]
fn in_flight_count(before: &Past) -> Result<usize, AllocError>
    ensures { IfOk result (λ count. count ≡ in_flight_count (history_of before.now)) }
{
    let sent = sent(before)?.len();
    let mut count = 0;
    for message in 0..sent {
        if in_flight(before, message as u64)? {
            count += 1;
        }
    }
    Ok(count)
}

/// Whether so many messages more would be more than may be in flight.
pub(crate) fn is_full(before: &Past, more: usize) -> Result<bool, AllocError>
    ensures { IfOk result (λ full. full ≡ is_full (history_of before.now) more) }
{
    let count = in_flight_count(before)?;
    Ok(count > MOST_IN_FLIGHT || more > MOST_IN_FLIGHT - count)
}
