//! Storage actors: teams, records, messages, and the care of members.
ghost use Rattle.std.specs.Prelude.{◌≡◌, ◌≤◌, ◌++◌, ◌∷◌, [], ℕ, IfOk, OnOk, if◌then◌else◌};
ghost use Rattle.std.specs.FinSet as sets;
ghost use Rattle.fy_cluster.specs.History.{left};
ghost use Rattle.fy_cluster.specs.Execution.{history_of};
ghost use Rattle.fy_cluster.specs.Sights.{Sees};
ghost use Rattle.fy_players.specs.Knowledge.{no_knowledge, learned};
ghost use Rattle.fy_players.specs.Storage.{choice_of, is_on_step, is_taken, spread, team_at, member_of, member_at, forms, is_behind, begins_at, begins, late, resends, mostly, hands_over, refills, new_mending, mending_of, mends, replaces, tends_by, tends, copies, stores};
ghost use Rattle.fy_acts.specs.declared.act.Act.TheVariants as act;
ghost use Rattle.fy_players.specs.Picks.{ticks_of};

use crate::draws::Words;
use crate::knowledge::{Knowledge, Known, Latest, Mending, Note};
use crate::picks::{NOBODY, TICKS_AT_ONCE, pick, pick_bytes, pick_place, pick_process, pick_ticks};
use fy_actors::next_move;
use fy_acts::{Act, Reply};
use fy_cluster::{Cluster, Sight, Status};
use fy_disk::Payload;
use fy_locality::{Map, ProcId, ProcSet};
use fy_team::Members;
use std::alloc::{AllocError, Global};
use std::marker::Model;

/// How many messages may be sent behind the first that can be delivered before no record is begun.
const MOST_BEHIND: u64 = 300;

/// What a storage actor chooses to do.
#[derive(Clone, Copy, PartialEq, Eq, Debug)]
enum Choice {
    Form,
    Begin,
    /// Delivers, else syncs, else starts a process, else lets ticks pass.
    Move,
    DeliverLate,
    Lose,
    Resend,
    Sync,
    Start,
    Tend,
    Replace,
    Copy,
    Wait,
}

/// What a word chooses.
fn choice_of(word: u32) -> Choice
    ensures { result ≡ choice_of word }
{
    let k = word % 32;
    if k < 1 {
        Choice::Form
    } else if k < 3 {
        Choice::Begin
    } else if k < 17 {
        Choice::Move
    } else if k < 18 {
        Choice::DeliverLate
    } else if k < 19 {
        Choice::Lose
    } else if k < 20 {
        Choice::Resend
    } else if k < 23 {
        Choice::Sync
    } else if k < 24 {
        Choice::Start
    } else if k < 29 {
        Choice::Tend
    } else if k < 30 {
        Choice::Replace
    } else if k < 31 {
        Choice::Copy
    } else {
        Choice::Wait
    }
}

/// A storage actor, by what it knows: it forms teams, begins records, delivers, loses, resends,
/// syncs, copies, replaces, heals and lets time pass. It keeps its allocator.
pub struct StoragePlayer {
    alloc: Global,
    known: Knowledge,
}

impl Model for StoragePlayer {
    ghost use Rattle.std.specs.Coded.{codes};
    ghost use Rattle.fy_players.specs.Knowledge.{Knowledge as Mind};

    ghost Value = { Mind };

    ghost view = { λ s. s.known };
}

// Written out and not derived: see `Drop` in docs/DECISIONS.md.
impl Drop for StoragePlayer {
    fn drop(self) {
        let StoragePlayer { alloc: _, known: _ } = self;
    }
}

/// Whether a process is a whole number of steps behind the first.
fn is_on_step(first: u32, step: u32, p: u32) -> bool
    requires { 1 ≤ step }
    ensures { result ≡ is_on_step first step p }
{
    first <= p && (p - first) % step == 0
}

/// Whether a process is one of these, and on a step.
fn is_taken(cluster: &Cluster, those: &ProcSet, first: u32, step: u32, process: ProcId) -> bool
    requires step { 1 ≤ step }
    requires left { (q : ℕ) → sets.contains those.now q
        ≡ left cluster.now.setup (history_of cluster.now) q }
    ensures { result ≡ is_taken cluster.now first step process }
{
    let _shown = cluster;
    is_on_step(first, step, process.0) && those.contains(process)
}

/// Puts a process behind the others, where it is taken.
fn push_where(members: &mut Vec<ProcId>, process: ProcId, taken: bool) -> Result<(), AllocError>
    ensures { OnOk result (members.new.items
        ≡ (if taken then members.old.items ++ process ∷ [] else members.old.items)) }
{
    if taken {
        members.push(process)?;
    }
    Ok(())
}

/// Every `step`-th process from `first` on, of those that are left.
fn spread(alloc: Global, cluster: &Cluster, first: u32, step: u32) -> Result<Members, AllocError>
    requires { 1 ≤ step }
    ensures { IfOk result (λ members. members ≡ spread cluster.now first step) }
{
    let left = cluster.left();
    let mut members = Vec::new(alloc);
    for p in 0..cluster.config().map().len() {
        let taken = is_taken(cluster, &left, first, step, ProcId(p));
        push_where(&mut members, ProcId(p), taken)?;
    }
    let Ok(members) = Members::from_vec(members) else {
        unreachable!();
    };
    Ok(members)
}

/// The number of the known team at a place.
fn team_at(teams: &[Known], place: usize) -> u32
    ensures { result ≡ team_at teams.now place }
{
    match teams.get(place) {
        Some(known) => known.team,
        None => NOBODY,
    }
}

/// A member that a word picks.
fn member_of(members: &[ProcId], word: u32) -> ProcId
    ensures { result ≡ member_of members.now word }
{
    match pick_place(word, members.len()) {
        Some(place) => members[place],
        None => ProcId(NOBODY),
    }
}

/// A member that the known team at a place had.
fn member_at(teams: &[Known], place: usize, word: u32) -> ProcId
    ensures { result ≡ member_at teams.now place word }
{
    match teams.get(place) {
        Some(known) => member_of(known.members.as_slice(), word),
        None => ProcId(NOBODY),
    }
}

/// The process that is shown, or once in four any.
fn mostly(shown: Option<ProcId>, words: Words, map: &Map) -> ProcId
    ensures { result ≡ mostly shown words map.now }
{
    let any = pick_process(words.second, map);
    if words.first % 4 == 0 {
        return any;
    }
    match shown {
        Some(process) => process,
        None => any,
    }
}

/// Syncs the process that is shown, or any.
fn sync(sight: Sight, words: Words, map: &Map) -> Act
    ensures { result ≡ act.Sync (mostly sight.unsynced words map.now) }
{
    let process = mostly(sight.unsynced, words, map);
    Act::Sync { process }
}

/// Starts the process that is shown, or any.
fn start(sight: Sight, words: Words, map: &Map) -> Act
    ensures { result ≡ act.Up (mostly sight.sleeping words map.now) }
{
    let process = mostly(sight.sleeping, words, map);
    Act::Up { process }
}

/// Lets some ticks pass.
fn wait(words: Words) -> Act
    ensures { result ≡ act.Tick (ticks_of words.first) }
{
    let ticks = pick_ticks(words.first);
    Act::Tick { ticks }
}

/// Copies an acknowledged record from who keeps it.
fn hand_over(cluster: &Cluster, rec: u32, to: ProcId) -> Act
    ensures { result ≡ hands_over cluster.now rec to }
{
    match cluster.keeper(rec) {
        Some(from) => Act::CopyTo { from, rec, to },
        None => Act::Heal { process: to },
    }
}

/// Gives a destroyed process the next record that it needs, and heals it once it needs none.
fn refill(cluster: &Cluster, process: ProcId) -> Act
    ensures { result ≡ refills cluster.now process }
{
    match cluster.needed(process) {
        Some(rec) => hand_over(cluster, rec, process),
        None => Act::Heal { process },
    }
}

/// The next act of a replacement: the heir is given what it lacks, and else takes the place.
fn mend(cluster: &Cluster, mending: Mending) -> Act
    ensures { result ≡ mends cluster.now mending }
{
    let Mending {
        team,
        out,
        into,
        lacks,
    } = mending;
    match lacks {
        Some(rec) => hand_over(cluster, rec, into),
        None => Act::Replace { team, out, into },
    }
}

impl Knowledge {
    /// Whether too many messages were sent behind the first that can be delivered.
    fn is_behind(&self, sight: Sight) -> bool
        ensures { result ≡ is_behind self.now sight }
    {
        match sight.deliverable {
            Some(message) => self.newest.saturating_sub(message) > MOST_BEHIND,
            None => false,
        }
    }

    /// Begins a record of the known team at a place.
    fn begin_at(&self, payload: Payload, place: Option<usize>) -> (Act, Note)
        ensures { result ≡ begins_at self.now payload place }
    {
        match place {
            Some(place) => {
                let team = team_at(&self.teams, place);
                (Act::Begin { team, payload }, Note::Begins { place })
            }
            None => {
                let team = NOBODY;
                (Act::Begin { team, payload }, Note::Plain)
            }
        }
    }

    /// One of the last 64 messages.
    fn late(&self, words: Words) -> u64
        ensures { result ≡ late self.now words }
    {
        self.newest.saturating_sub(u64::from(words.first % 64))
    }

    /// Delivers one of the last messages.
    fn deliver_late(&self, words: Words) -> Act
        ensures { result ≡ act.Deliver (late self.now words) }
    {
        let message = self.late(words);
        Act::Deliver { message }
    }

    /// Loses one of the last messages.
    fn lose_late(&self, words: Words) -> Act
        ensures { result ≡ act.Lose (late self.now words) }
    {
        let message = self.late(words);
        Act::Lose { message }
    }

    /// Sends one of the last records again, to a member of the last one's team.
    fn resend(&self, words: Words) -> Act
        ensures { result ≡ resends self.now words self.now.latest }
    {
        let Some(Latest { rec, place }) = self.latest else {
            return Act::Resend {
                rec: NOBODY,
                process: ProcId(NOBODY),
            };
        };
        let process = member_at(&self.teams, place, words.second);
        let rec = rec.saturating_sub(words.first % 4);
        Act::Resend { rec, process }
    }

    /// A replacement that begins: a member of a known team, and any process in its place.
    fn new_mending(&self, cluster: &Cluster, words: Words, place: Option<usize>) -> Mending
        ensures { result ≡ new_mending cluster.now self.now words place }
    {
        let (team, out) = match place {
            Some(place) => {
                let out = member_at(&self.teams, place, words.second);
                (team_at(&self.teams, place), out)
            }
            None => (NOBODY, ProcId(NOBODY)),
        };
        let into = pick_process(words.third, cluster.config().map());
        Mending {
            team,
            out,
            into,
            lacks: None,
        }
    }

    /// The replacement that isn't done, or a new one.
    fn mending_of(&self, cluster: &Cluster, words: Words) -> Mending
        ensures { result ≡ mending_of cluster.now self.now words }
    {
        let place = pick_place(words.first, self.teams.len());
        let new = self.new_mending(cluster, words, place);
        if words.fifth % 16 == 0 {
            return new;
        }
        match self.mending {
            Some(mending) => mending,
            None => new,
        }
    }

    /// Copies one of the last records from any process to any.
    fn copy(&self, cluster: &Cluster, words: Words) -> Act
        ensures { result ≡ copies cluster.now self.now words }
    {
        let map = cluster.config().map();
        let rec = match self.latest {
            Some(latest) => latest.rec.saturating_sub(words.first % 16),
            None => NOBODY,
        };
        let from = pick_process(words.second, map);
        let to = pick_process(words.third, map);
        Act::CopyTo { from, rec, to }
    }

    /// Puts another process in the place of a member, and gives it first what it lacks.
    fn replace(&self, cluster: &Cluster, words: Words) -> (Act, Note)
        ensures { result ≡ replaces cluster.now self.now words }
    {
        let mending = self.mending_of(cluster, words);
        (mend(cluster, mending), Note::Mends { mending })
    }

    /// Cares for a member by its state.
    fn tend_by(
        &self,
        cluster: &Cluster,
        words: Words,
        process: ProcId,
        status: Status,
    ) -> (Act, Note)
        ensures { result ≡ tends_by cluster.now self.now words process status }
    {
        if words.fourth % 8 == 0 {
            (Act::Heal { process }, Note::Plain)
        } else if status.gone {
            self.replace(cluster, words)
        } else if status.up {
            if status.destroyed {
                (refill(cluster, process), Note::Plain)
            } else {
                (Act::Sync { process }, Note::Plain)
            }
        } else {
            (Act::Up { process }, Note::Plain)
        }
    }

    /// Cares for a member of a known team.
    fn tend(&self, cluster: &Cluster, sight: Sight, words: Words) -> (Act, Note)
        ensures { result ≡ tends cluster.now sight self.now words }
    {
        let Some(place) = pick_place(words.first, self.teams.len()) else {
            return (next_move(sight, TICKS_AT_ONCE), Note::Plain);
        };
        let process = member_at(&self.teams, place, words.second);
        match cluster.status(process) {
            Some(status) => self.tend_by(cluster, words, process, status),
            None => (next_move(sight, TICKS_AT_ONCE), Note::Plain),
        }
    }
}

impl StoragePlayer {
    /// A storage actor that knows nothing yet.
    pub fn make(alloc: Global) -> StoragePlayer
        ensures { result ≡ no_knowledge }
    {
        StoragePlayer {
            alloc,
            known: Knowledge::make(alloc),
        }
    }

    /// Forms a team of processes that stand evenly apart.
    fn form(&self, cluster: &Cluster, words: Words) -> Result<(Act, Note), AllocError>
        ensures { IfOk result (λ made. made ≡ forms cluster.now words) }
    {
        let config = cluster.config();
        config.invariant();
        let step = (config.map().len() / (1 + words.first % 7)).max(1);
        let members = spread(self.alloc, cluster, words.second % step, step)?;
        let policy = pick(words.third, config.policies().len() as u32);
        let copy = members.try_copy(self.alloc)?;
        Ok((Act::Form { members, policy }, Note::Forms { members: copy }))
    }

    /// Begins a record, or moves data where too much is on its way.
    fn begin(&self, sight: Sight, words: Words) -> Result<(Act, Note), AllocError>
        ensures { IfOk result (λ made. made ≡ begins sight self.now words) }
    {
        if self.known.is_behind(sight) {
            return Ok((next_move(sight, TICKS_AT_ONCE), Note::Plain));
        }
        let payload = Payload::from_vec(pick_bytes(self.alloc, words.second)?);
        let place = pick_place(words.first, self.known.teams.len());
        Ok(self.known.begin_at(payload, place))
    }

    /// The act of this turn, and what is to be remembered of it.
    ///
    /// # Errors
    ///
    /// `AllocError` where an allocation fails.
    pub fn next(&self, cluster: &Cluster, words: Words) -> Result<(Act, Note), AllocError>
        ensures { IfOk result (λ made. (sight : Sight)
            × Sees cluster.now.setup (history_of cluster.now) sight
            × (made ≡ stores cluster.now sight self.now words)) }
    {
        let sight = cluster.sight();
        let map = cluster.config().map();
        match choice_of(words.choice) {
            Choice::Form => self.form(cluster, words),
            Choice::Begin => self.begin(sight, words),
            Choice::Move => Ok((next_move(sight, TICKS_AT_ONCE), Note::Plain)),
            Choice::DeliverLate => Ok((self.known.deliver_late(words), Note::Plain)),
            Choice::Lose => Ok((self.known.lose_late(words), Note::Plain)),
            Choice::Resend => Ok((self.known.resend(words), Note::Plain)),
            Choice::Sync => Ok((sync(sight, words, map), Note::Plain)),
            Choice::Start => Ok((start(sight, words, map), Note::Plain)),
            Choice::Tend => Ok(self.known.tend(cluster, sight, words)),
            Choice::Replace => Ok(self.known.replace(cluster, words)),
            Choice::Copy => Ok((self.known.copy(cluster, words), Note::Plain)),
            Choice::Wait => Ok((wait(words), Note::Plain)),
        }
    }

    /// Learns the reply to the act of the turn.
    ///
    /// # Errors
    ///
    /// `AllocError` where an allocation fails.
    pub fn learn(&mut self, note: Note, reply: Reply) -> Result<(), AllocError>
        ensures { OnOk result (self.new ≡ learned self.old note reply) }
    {
        self.known.learn(note, reply)
    }
}
