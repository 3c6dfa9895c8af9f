//! The act `CopyTo`: a process that has a record synced sends it to another. Only a message is
//! sent; the record is on the other's disk once that is delivered, and synced once that process
//! syncs.
ghost use Rattle.std.specs.Prelude.{◌≡◌};
ghost use Rattle.fy_acts.specs.declared.act.Act.TheVariants.{CopyTo};
ghost use Rattle.fy_cluster.specs.Standing.{Point, Refines, StepsToOrOom, IsReachable};

use crate::Fault;
use crate::machine::Machine;
use crate::messages::reply_to_net_fault;
use fy_acts::{Refusal, Reply};
use fy_locality::{Map, ProcId};
use fy_net::Body;

impl Machine {
    /// Carries out a CopyTo: sends a record from a process that has it synced to another, member of
    /// its team or not. The network's room is made before the send.
    pub(crate) fn copy_record(
        &mut self,
        map: &Map,
        from: ProcId,
        rec: u32,
        to: ProcId,
    ) -> Result<Reply, Fault>
        ghost point: { Point }
        requires stands { Refines point.setup point.before self.old }
        requires map { map.now ≡ point.setup.processes }
        requires reachable { IsReachable point.setup point.before }
        ensures { StepsToOrOom point (CopyTo from rec to) result self.new }
    {
        let Some(_team) = self.teams.team_of(rec) else {
            return Ok(Reply::No(Refusal::NoRecord));
        };
        if from.0.max(to.0) >= map.len() {
            return Ok(Reply::No(Refusal::NoProcess));
        }
        if !self.dead.left().contains(to) {
            return Ok(Reply::No(Refusal::Gone));
        }
        if !self.up.contains(from) {
            return Ok(Reply::No(Refusal::NotUp));
        }
        if !self.disks.has_synced(rec, from) {
            return Ok(Reply::No(Refusal::NoCopy));
        }
        if let Err(fault) = self.net.reserve(1) {
            return reply_to_net_fault(fault);
        }
        let message = self.net.send(Body::Store { rec, to });
        Ok(Reply::Sent { message })
    }
}
