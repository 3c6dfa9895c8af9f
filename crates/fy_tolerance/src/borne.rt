//! Gathers all that a cluster bears, by loss, by policy and by group, for the two writers of its
//! text. Nothing is written here.
ghost use Rattle.std.specs.Prelude.{◌≡◌, IfOk};
ghost use Rattle.std.specs.List.{AllZip};
ghost use Rattle.fy_tolerance.specs.Bears.{IsBorne, IsFindings, IsTolerance, least_any};

use crate::groups::{Group, borne_alone, group_of};
use crate::tolerance::{Tolerance, tolerance_of};
use fy_decide::{DeadBook, Loss};
use fy_locality::{Key, Map, ProcSet};
use fy_policy::Policy;
use std::alloc::{AllocError, Global};

/// All that is borne of one kind of loss.
#[derive(Drop)]
pub struct Borne {
    pub loss: Loss,
    /// Any so many processes may be lost together.
    pub any: u32,
    /// What each policy bears.
    pub tolerances: Vec<Tolerance>,
    /// Of each process whether it alone may be lost.
    pub processes: Vec<bool>,
    pub machines: Group,
    pub zones: Group,
    pub halls: Group,
    pub data_centers: Group,
}

/// All that a cluster bears, and who is left in it.
#[derive(Drop)]
pub struct Findings {
    pub left: ProcSet,
    pub emptied: Borne,
    pub gone: Borne,
}

/// What each policy bears of a kind of loss, in the order of the policies. The map and the policies
/// are those that the book was made of.
///
/// # Errors
///
/// An allocation failed.
pub fn tolerances_of(
    alloc: Global,
    dead: &DeadBook,
    map: &Map,
    policies: &[Policy],
    loss: Loss,
) -> Result<Vec<Tolerance>, AllocError>
    requires map { map.now ≡ dead.now.processes }
    requires policies { policies.now ≡ dead.now.policies }
    ensures { IfOk result (λ all. AllZip (λ policy one. IsTolerance dead.now policy loss one)
        dead.now.policies all.items) }
{
    let mut tolerances = Vec::new(alloc);
    for index in 0..policies.len() {
        tolerances.push(tolerance_of(alloc, dead, map, policies, index, loss)?)?;
    }
    Ok(tolerances)
}

/// The least of the numbers of the policies, and of how many processes there are.
pub fn least_any(processes: u32, tolerances: &[Tolerance]) -> u32
    ensures { result ≡ least_any processes tolerances.now }
{
    let mut least = processes;
    for one in tolerances {
        least = least.min(one.any);
    }
    least
}

/// All that a cluster bears of a kind of loss. The map and the policies are those that the book
/// was made of.
///
/// # Errors
///
/// An allocation failed.
pub(crate) fn borne_of(
    alloc: Global,
    dead: &DeadBook,
    map: &Map,
    policies: &[Policy],
    loss: Loss,
) -> Result<Borne, AllocError>
    requires map { map.now ≡ dead.now.processes }
    requires policies { policies.now ≡ dead.now.policies }
    ensures { IfOk result (IsBorne dead.now loss) }
{
    let tolerances = tolerances_of(alloc, dead, map, policies, loss)?;
    let any = least_any(map.len(), &tolerances);
    Ok(Borne {
        loss,
        any,
        tolerances,
        processes: borne_alone(alloc, dead, map, Key::Process, loss)?,
        machines: group_of(alloc, dead, map, Key::Machine, loss)?,
        zones: group_of(alloc, dead, map, Key::Zone, loss)?,
        halls: group_of(alloc, dead, map, Key::DataHall, loss)?,
        data_centers: group_of(alloc, dead, map, Key::DataCenter, loss)?,
    })
}

/// All that a cluster bears. The map and the policies are those that the book was made of.
///
/// # Errors
///
/// An allocation failed.
pub fn findings_of(
    alloc: Global,
    dead: &DeadBook,
    map: &Map,
    policies: &[Policy],
) -> Result<Findings, AllocError>
    requires map { map.now ≡ dead.now.processes }
    requires policies { policies.now ≡ dead.now.policies }
    ensures { IfOk result (IsFindings dead.now) }
{
    Ok(Findings {
        left: dead.left(),
        emptied: borne_of(alloc, dead, map, policies, Loss::Emptied)?,
        gone: borne_of(alloc, dead, map, policies, Loss::Gone)?,
    })
}
