//! The acts Form, Begin and Resend: a team forms, a record begins, a record is sent once more.
ghost use Rattle.std.specs.Prelude.{◌≡◌, ◌≤◌, ◌<◌, map, length};
ghost use Rattle.std.specs.List.{All};
ghost use Rattle.fy_net.specs.declared.message.Body.TheVariants.{Store};
ghost use Rattle.fy_acts.specs.declared.act.Act.TheVariants.{Form, Begin, Resend};
ghost use Rattle.fy_cluster.specs.History.{stores_of};
ghost use Rattle.fy_cluster.specs.Standing.{Point, Refines, StepsToOrOom, IsReachable, Sends, reply_to_team_fault};

use crate::machine::Machine;
use crate::messages::reply_to_net_fault;
use crate::{Config, Fault};
use fy_acts::{Refusal, Reply};
use fy_disk::Payload;
use fy_locality::ProcId;
use fy_net::{Body, Net};
use fy_team::{Members, TeamFault};

/// The reply, or the fault, that a fault of the teams stands for.
fn reply_to_fault(fault: TeamFault) -> Result<Reply, Fault>
    ensures { result ≡ reply_to_team_fault fault }
{
    match fault {
        TeamFault::TooMany => Ok(Reply::No(Refusal::TooMany)),
        TeamFault::NoPolicy => Ok(Reply::No(Refusal::NoPolicy)),
        TeamFault::NoProcess => Ok(Reply::No(Refusal::NoProcess)),
        TeamFault::Gone => Ok(Reply::No(Refusal::Gone)),
        TeamFault::TeamShort { policy } => Ok(Reply::No(Refusal::TeamShort { policy })),
        TeamFault::NoTeam => Ok(Reply::No(Refusal::NoTeam)),
        TeamFault::Payload => Ok(Reply::No(Refusal::Payload)),
        TeamFault::NoMemory => Err(Fault::NoMemory),
    }
}

/// Sends a store of a record to each of these processes.
fn send_stores(net: &mut Net, members: &[ProcId], rec: u32)
    requires room { length members.now ≤ net.old.room }
    requires there { All (λ p. p.0 < length net.old.until) members.now }
    ensures { Sends net.old (stores_of rec members.now) net.new }
{
    for p in members {
        let _number = net.send(Body::Store { rec, to: *p });
    }
}

impl Machine {
    /// Forms a team of these members, under the policy with this number.
    pub(crate) fn form(
        &mut self,
        config: &Config,
        members: Members,
        policy: u32,
    ) -> Result<Reply, Fault>
        ghost point: { Point }
        requires stands { Refines point.setup point.before self.old }
        requires config { config.now ≡ point.setup }
        ensures { StepsToOrOom point (Form members policy) result self.new }
    {
        let gone = config.map().everyone().difference(&self.dead.left());
        match self
            .teams
            .form(config.map(), config.policies(), &gone, members, policy)
        {
            Ok(team) => Ok(Reply::Formed { team }),
            Err(fault) => reply_to_fault(fault),
        }
    }

    /// Begins a record for a team, and sends a store to each member. The payload is the machine's
    /// own.
    pub(crate) fn begin(&mut self, team: u32, payload: Payload) -> Result<Reply, Fault>
        ghost point: { Point }
        requires stands { Refines point.setup point.before self.old }
        requires reachable { IsReachable point.setup point.before }
        ensures { StepsToOrOom point (Begin team payload) result self.new }
    {
        fy_policy::laws::test_is_satisfaction();
        fy_team::laws::a_record_begins_unmarked();
        if let Err(fault) = self.teams.may_begin(team, &payload) {
            return reply_to_fault(fault);
        }
        self.disks.open(self.teams.record_count())?;
        let count = match self.teams.members(team) {
            Some(members) => members.as_slice().len(),
            None => unreachable!(),
        };
        if let Err(fault) = self.net.reserve(count) {
            return reply_to_net_fault(fault);
        }
        let rec = match self.teams.begin(team, payload) {
            Ok(rec) => rec,
            Err(fault) => return reply_to_fault(fault),
        };
        let first = self.net.sent();
        match self.teams.members(team) {
            Some(members) => send_stores(&mut self.net, members.as_slice(), rec),
            None => unreachable!(),
        }
        Ok(Reply::Begun { rec, first })
    }

    /// Sends a record to a member of its team once more.
    pub(crate) fn resend(&mut self, rec: u32, process: ProcId) -> Result<Reply, Fault>
        ghost point: { Point }
        requires stands { Refines point.setup point.before self.old }
        requires reachable { IsReachable point.setup point.before }
        ensures { StepsToOrOom point (Resend rec process) result self.new }
    {
        fy_policy::laws::test_is_satisfaction();
        let Some(team) = self.teams.team_of(rec) else {
            return Ok(Reply::No(Refusal::NoRecord));
        };
        let Some(members) = self.teams.members(team) else {
            unreachable!();
        };
        if !members.has(process) {
            return Ok(Reply::No(Refusal::NotMember));
        }
        if self.teams.acked(rec) {
            return Ok(Reply::No(Refusal::Acked));
        }
        if let Err(fault) = self.net.reserve(1) {
            return reply_to_net_fault(fault);
        }
        let message = self.net.send(Body::Store { rec, to: process });
        Ok(Reply::Sent { message })
    }
}
