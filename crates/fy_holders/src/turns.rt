//! The turns of a process: the positions at which it was destroyed and healed, one after the other.
//! The first one destroys it.
ghost use Rattle.std.specs.Prelude.{◌≡◌, length, IfOk, OnOk};
ghost use Rattle.fy_holders.specs.Turns.{is_odd, turned, AreTurns, IsLast, Rise, WithTurns, AreEmpty};

use fy_locality::ProcSet;
use std::alloc::{AllocError, Global};

/// No turns of so many processes.
pub(crate) fn no_turns(alloc: Global, count: u32) -> Result<Vec<Vec<u32>>, AllocError>
    ensures { IfOk result (λ turns. AreEmpty count turns.items) }
{
    let mut turns = Vec::new(alloc);
    for _ in 0..count {
        turns.push(Vec::new(alloc))?;
    }
    Ok(turns)
}

/// Notes that these processes turn at a position.
pub(crate) fn note_turns(
    turns: &mut Vec<Vec<u32>>,
    turned: &ProcSet,
    position: u32,
) -> Result<(), AllocError>
    ensures count { length turns.new.items ≡ length turns.old.items }
    ensures noted { OnOk result (WithTurns turned.now position turns.old.items turns.new.items) }
{
    let mut rest = *turned;
    while let Some(p) = rest.least() {
        rest.drop_one(p);
        let at = p.0 as usize;
        if at < turns.len() {
            turns[at].push(position)?;
        }
    }
    Ok(())
}

/// Whether so many turns leave a process destroyed.
fn is_odd(count: usize) -> bool
    ensures { result ≡ is_odd count }
{
    count % 2 == 1
}

/// Whether a process with these turns was destroyed at a position.
pub(crate) fn is_destroyed_at(turns: &[u32], position: u32) -> bool
    requires { Rise 0 turns.now }
    ensures { result ≡ turned turns.now position }
{
    is_odd(turns.partition_point(|turn| *turn <= position))
}

/// The last position at which a process with these turns was destroyed, where there are positions
/// up to `end`.
pub(crate) fn last_destroyed(turns: &[u32], end: u32) -> Option<u32>
    requires { AreTurns end turns.now }
    ensures { IsLast end turns.now result }
{
    let count = turns.len();
    if is_odd(count) {
        return Some(end);
    }
    if count == 0 {
        return None;
    }
    Some(turns[count - 1] - 1)
}
