//! What a storage actor keeps in mind from turn to turn.
ghost use Rattle.std.specs.Prelude.{◌≡◌, OnOk};
ghost use Rattle.fy_players.specs.Knowledge.{no_knowledge, first_sent, mending_after, with_sent, learned};

use fy_acts::{Refusal, Reply};
use fy_locality::ProcId;
use fy_team::Members;
use std::alloc::{AllocError, Global};
use std::marker::Model;

/// A team that was formed, with the members that it had then.
pub(crate) struct Known {
    pub(crate) team: u32,
    pub(crate) members: Members,
}

// Written out and not derived: see `Drop` in docs/DECISIONS.md.
impl Drop for Known {
    fn drop(self) {
        let Known {
            team: _,
            members: _,
        } = self;
    }
}

/// A member that is to be replaced, and a record that its heir was found to lack.
#[derive(Clone, Copy, PartialEq, Eq, Debug)]
pub struct Mending {
    pub team: u32,
    pub out: ProcId,
    pub into: ProcId,
    pub lacks: Option<u32>,
}

/// What is to be remembered of an act, by its reply.
#[derive(Drop)]
pub enum Note {
    /// Nothing but the messages that it sent.
    Plain,
    /// The team of these members.
    Forms { members: Members },
    /// A record of the known team at this place.
    Begins { place: usize },
    /// How far a replacement has come.
    Mends { mending: Mending },
}

/// The last record that was begun, and the place of its team among those that are known.
#[derive(Clone, Copy, PartialEq, Eq, Debug)]
pub(crate) struct Latest {
    pub(crate) rec: u32,
    pub(crate) place: usize,
}

/// What a storage actor knows by the replies that it got.
pub(crate) struct Knowledge {
    pub(crate) teams: Vec<Known>,
    pub(crate) latest: Option<Latest>,
    pub(crate) newest: u64,
    pub(crate) mending: Option<Mending>,
}

impl Model for Knowledge {
    ghost use Rattle.std.specs.Coded.{codes};
    ghost use Rattle.fy_players.specs.Knowledge.{Knowledge};

    ghost Value = { Knowledge };

    ghost view = { λ k. record {
      teams = k.teams.items;
      latest = k.latest;
      newest = k.newest;
      mending = k.mending;
    } };
}

// Written out and not derived: see `Drop` in docs/DECISIONS.md.
impl Drop for Knowledge {
    fn drop(self) {
        let Knowledge {
            teams: _,
            latest: _,
            newest: _,
            mending: _,
        } = self;
    }
}

/// The first message that a reply says was sent, if one was.
fn first_sent(reply: Reply) -> Option<u64>
    ensures { result ≡ first_sent reply }
{
    match reply {
        Reply::Begun { rec: _, first } => Some(first),
        Reply::Sent { message } => Some(message),
        Reply::Synced { first, count: _ } => Some(first),
        _ => None,
    }
}

/// What is left to do of a replacement, by the reply to its last act.
fn mending_after(mending: Mending, reply: Reply) -> Option<Mending>
    ensures { result ≡ mending_after mending reply }
{
    let Mending {
        team,
        out,
        into,
        lacks: _,
    } = mending;
    let lacks = match reply {
        Reply::No(Refusal::StillNeeds { rec }) => Some(rec),
        Reply::Sent { message: _ } => None,
        _ => return None,
    };
    Some(Mending {
        team,
        out,
        into,
        lacks,
    })
}

impl Knowledge {
    /// Nothing is known yet.
    pub(crate) fn make(alloc: Global) -> Knowledge
        ensures { result ≡ no_knowledge }
    {
        Knowledge {
            teams: Vec::new(alloc),
            latest: None,
            newest: 0,
            mending: None,
        }
    }

    /// Learns of the messages that a reply says were sent.
    fn learn_sent(&mut self, reply: Reply)
        ensures { self.new ≡ with_sent self.old reply }
    {
        if let Some(first) = first_sent(reply) {
            self.newest = first;
        }
    }

    /// Learns the reply to an act.
    ///
    /// # Errors
    ///
    /// `AllocError` where an allocation fails.
    pub(crate) fn learn(&mut self, note: Note, reply: Reply) -> Result<(), AllocError>
        ensures { OnOk result (self.new ≡ learned self.old note reply) }
    {
        self.learn_sent(reply);
        match (note, reply) {
            (Note::Forms { members }, Reply::Formed { team }) => {
                self.teams.push(Known { team, members })?;
            }
            (Note::Begins { place }, Reply::Begun { rec, first: _ }) => {
                self.latest = Some(Latest { rec, place });
            }
            (Note::Mends { mending }, reply) => {
                self.mending = mending_after(mending, reply);
            }
            _ => {}
        }
        Ok(())
    }
}
