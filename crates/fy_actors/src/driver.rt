//! Storing payloads and moving data.
ghost use Rattle.std.specs.Prelude.{◌≡◌, ◌-◌, ◌^◌, ◌<◌, Some, IfOk, IsTrue};
ghost use Rattle.fy_actors.specs.Desk.{Worked};
ghost use Rattle.fy_actors.specs.Drives.{next_move, begin_or_move, next_act, team_after, is_refused, goes_on, Drives};
ghost use Rattle.fy_actors.specs.Parts.{PlaysTurn};
ghost use Rattle.fy_actors.specs.Parts.Part.{Stores};
ghost use Rattle.fy_actors.specs.declared.driver.Team.TheVariants.{Unformed};

use crate::{Desk, FaultActor, Turn};
use fy_acts::{Act, Reply};
use fy_cluster::{Fault, Sight};
use fy_disk::Payload;
use fy_team::Members;
use std::alloc::{AllocError, Global};
use std::marker::Model;

/// What became of a driver's team.
#[derive(Clone, Copy, PartialEq, Eq, Debug)]
enum Team {
    Unformed,
    /// The team was formed and has this number.
    Formed { team: u32 },
    Refused,
}

impl Team {
    /// What becomes of the team by the reply to an act.
    fn after(self, reply: Reply) -> Team
        ensures { result ≡ team_after self reply }
    {
        match (self, reply) {
            (Team::Unformed, Reply::Formed { team }) => Team::Formed { team },
            (Team::Unformed, _) => Team::Refused,
            (team, _) => team,
        }
    }

    /// Whether the team was refused.
    fn is_refused(self) -> bool
        ensures { result ≡ is_refused self }
    {
        self == Team::Refused
    }
}

/// An actor that forms a team, begins a record for each of its payloads, and then moves data: it
/// delivers what can be delivered, else syncs what isn't synced, else starts who is down, else lets
/// a tick pass. It makes so many acts in all, and keeps its allocator.
pub struct StorageDriver {
    alloc: Global,
    members: Members,
    policy: u32,
    payloads: Vec<Payload>,
    acts: u32,
    team: Team,
    made: u32,
}

impl Model for StorageDriver {
    ghost use Rattle.std.specs.Coded.{codes};
    ghost use Rattle.fy_actors.specs.Drives.{Drive};

    ghost Value = { Drive };

    ghost view = { λ d. record {
      members = d.members;
      policy = d.policy;
      payloads = d.payloads.items;
      acts = d.acts;
      team = d.team;
      made = d.made;
    } };
}

// Written out and not derived: see `Drop` in docs/DECISIONS.md.
impl Drop for StorageDriver {
    fn drop(self) {
        let StorageDriver {
            alloc: _,
            members: _,
            policy: _,
            payloads: _,
            acts: _,
            team: _,
            made: _,
        } = self;
    }
}

/// The act that moves data next, the first that is possible: it delivers the least message, syncs
/// the least process, starts the least one, or lets so many ticks pass.
pub fn next_move(sight: Sight, ticks: u64) -> Act
    ensures { result ≡ next_move sight ticks }
{
    if let Some(message) = sight.deliverable {
        return Act::Deliver { message };
    }
    if let Some(process) = sight.unsynced {
        return Act::Sync { process };
    }
    match sight.sleeping {
        Some(process) => Act::Up { process },
        None => Act::Tick { ticks },
    }
}

impl StorageDriver {
    /// The actor that forms a team of these members under the policy with this number, begins a
    /// record for each payload, and makes `acts` acts in all. Where the team is refused it makes no
    /// further act; a refused begin isn't tried again. Doesn't allocate.
    pub fn make(
        alloc: Global,
        members: Members,
        policy: u32,
        payloads: Vec<Payload>,
        acts: u32,
    ) -> StorageDriver
        ensures { result ≡ record {
          members = members;
          policy = policy;
          payloads = payloads.items;
          acts = acts;
          team = Unformed;
          made = 0;
        } }
    {
        StorageDriver {
            alloc,
            members,
            policy,
            payloads,
            acts,
            team: Team::Unformed,
            made: 0,
        }
    }

    /// The act that comes next, where one is left.
    fn next(&self, sight: Sight) -> Result<Act, AllocError>
        requires { IsTrue (goes_on self.now) }
        ensures { IfOk result (λ act. next_act self.now sight ≡ Some act) }
    {
        match self.team {
            Team::Unformed => {
                let members = self.members.try_copy(self.alloc)?;
                let policy = self.policy;
                Ok(Act::Form { members, policy })
            }
            Team::Formed { team } => self.begin_or_move(team, sight),
            Team::Refused => unreachable!(),
        }
    }

    /// Begins the record of the payload that comes next; moves data where none is left.
    fn begin_or_move(&self, team: u32, sight: Sight) -> Result<Act, AllocError>
        ensures { IfOk result (λ act. act ≡ begin_or_move self.now sight team) }
    {
        match self.payloads.get(self.made.saturating_sub(1) as usize) {
            Some(payload) => {
                let payload = payload.try_copy(self.alloc)?;
                Ok(Act::Begin { team, payload })
            }
            None => Ok(next_move(sight, 1)),
        }
    }

    /// Whether acts are left.
    fn goes_on(&self) -> bool
        ensures test { result ≡ goes_on self.now }
        ensures few { IsTrue result → self.now.made < 2 ^ 32 - 1 }
    {
        !self.team.is_refused() && self.made < self.acts
    }

    /// Makes the act that comes next by what the desk shows.
    #[tactic(auto, using(crate::proofs::Working::none_left, crate::proofs::Working::held_up))]
    fn drive(&mut self, desk: &mut Desk) -> Result<Turn, Fault>
        ensures turn { Drives (self.old, desk.old) (self.new, desk.new) result }
        ensures worked { Worked desk.old desk.new }
    {
        let sight = desk.sight();
        if !self.goes_on() {
            return Ok(Turn::Ended);
        }
        if desk.is_full() {
            return Err(Fault::JournalFull);
        }
        let act = self.next(sight)?;
        let reply = desk.act(act)?;
        self.team = self.team.after(reply);
        self.made += 1;
        Ok(if self.goes_on() {
            Turn::More
        } else {
            Turn::Ended
        })
    }
}

impl FaultActor for StorageDriver {
    ghost use Rattle.fy_actors.specs.Parts.Part.{Stores as Playing};

    ghost part = { λ drive. Playing drive };

    /// Makes the act that comes next by what the desk shows. After a fault it is still the next
    /// one.
    fn turn(&mut self, desk: &mut Desk) -> Result<Turn, Fault>
        ensures turn { Drives (self.old, desk.old) (self.new, desk.new) result }
        ensures plays { PlaysTurn (Stores self.old, desk.old) (Stores self.new, desk.new) result }
        ensures worked { Worked desk.old desk.new }
    {
        self.drive(desk)
    }
}
