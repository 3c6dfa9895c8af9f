//! What the cluster replies.
use fy_kinds::{Rule, Verdict};

/// The reply to an act. Records, teams and messages are known by their numbers, each counted from
/// 0.
#[derive(Clone, Copy, PartialEq, Eq, Debug)]
pub enum Reply {
    /// To a kill: the kind that struck, if one did, and the rule that bars the ordered kind, if one
    /// does.
    Verdict(Verdict),
    /// To a clog, or to the end of one: the rule that bars it. With none it was done.
    Ruled { rule: Option<Rule> },
    /// A team was formed and has this number.
    Formed { team: u32 },
    /// A record was begun and has this number. Its stores have numbers from `first` on, one for
    /// each member.
    Begun { rec: u32, first: u64 },
    /// A store was delivered.
    Stored,
    /// A process's acknowledgement was delivered: whether the record is acknowledged now.
    Marked { acked: bool },
    /// A store was sent and has this number.
    Sent { message: u64 },
    /// So many writes were synced. Their acknowledgements have numbers from `first` on, one for
    /// each write.
    Synced { first: u64, count: u32 },
    /// The time now, in ticks from 0 to 2^40.
    Time { now: u64 },
    /// The act was done.
    Done,
    /// The act is refused, and nothing but the journal changed.
    No(Refusal),
}

/// Why an act is refused. Of several reasons the first in the act's own order is named.
#[derive(Clone, Copy, PartialEq, Eq, Debug)]
pub enum Refusal {
    /// No actor has the number of who acts.
    Stranger,
    /// The actor's role may not make this act.
    WrongRole,
    /// 4096 teams, or 65,536 records, are there already.
    TooMany,
    /// There is no policy with this number.
    NoPolicy,
    /// There is no process with this number.
    NoProcess,
    /// A process is gone for good.
    Gone,
    /// The members don't satisfy the policy with this number.
    TeamShort { policy: u32 },
    /// There is no team with this number.
    NoTeam,
    /// The payload has more than 256 bytes.
    Payload,
    /// More than 65,536 messages would be in flight.
    NetFull,
    /// No message in flight has this number.
    NoMessage,
    /// The message's process is clogged.
    Clogged,
    /// The process isn't up.
    NotUp,
    /// There is no record with this number.
    NoRecord,
    /// The process is no member of the record's team.
    NotMember,
    /// The record is acknowledged, and its payload forgotten by the client.
    Acked,
    /// The process is up already.
    IsUp,
    /// The time would be past 2^40 ticks.
    ClockEnd,
    /// There is no actor with the number that the act names.
    NoActor,
    /// 4096 grants are there already.
    Full,
    /// The actor has no grant at this place.
    NoSuch,
    /// The process hasn't synced the record that is to be copied from it.
    NoCopy,
    /// The process that is to come into the team is a member of it already.
    IsMember,
    /// The process isn't destroyed.
    NotDestroyed,
    /// The process hasn't synced this record, which is acknowledged and of the team in question.
    StillNeeds { rec: u32 },
}
