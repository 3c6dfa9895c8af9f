//! What the lines so far say.
ghost use Rattle.std.specs.Prelude.{◌≡◌, ◌<◌, ◌+◌, IfOk, IfErr, IfSome, OnOk, Err, length};
ghost use Rattle.fy_history.specs.Names.{number_of, with_text};
ghost use Rattle.fy_history.specs.Progress.{state_of, at_first, with_name, client_at, with_client, add_write, add_read, begin_with, begin_write, begin_read, has_asked, begin_ask, begin_as, end_of, after, pending_write, pending_read, end_write, found_names, answer_of, times_of, end_read, end_as, is_behind, last_of, enter, traced_names, trace_of, find, end_writes, take_event, take, Takes, Makes, IsHistoryOf};
ghost use Rattle.fy_history.specs.Views.{ask_view, outcome_view, found_view, event_view, line_view};
ghost use Rattle.fy_history.specs.declared.TheConstants.{MOST_HISTORY_LINES};

use crate::fault::{HistoryFault, NotTaken};
use crate::line::{Ask, Event, Found, Line, Outcome};
use crate::{Answer, DiskLine, End, EntryLine, History, Names, Place, Read, Trace, Write};
use fy_events::Done;
use indexmap::{IndexMap, IndexSet};
use std::alloc::Global;

/// What is known of the cluster that a history is of.
#[derive(Clone, Copy, PartialEq, Eq, Debug)]
pub struct Known {
    /// How many processes it has.
    pub processes: u32,
    /// How many entries its audit has.
    pub entries: u32,
}

/// What a client is doing.
#[derive(Clone, Copy, PartialEq, Eq, Debug)]
pub(crate) enum Client {
    /// Nothing.
    Idle,
    /// The write of this place.
    Writes(usize),
    /// The read of this place.
    Reads(usize),
    /// It isn't used any more.
    Gone,
}

/// What the lines so far say.
#[derive(Drop)]
pub(crate) struct Progress {
    names: Names,
    writes: Vec<Write>,
    reads: Vec<Read>,
    entries: Vec<EntryLine>,
    disks: Vec<DiskLine>,
    written: Option<Place>,
    lines: u32,
    /// What each client is doing of which a line told.
    clients: IndexMap<u32, Client>,
    /// The keys that were written, each with the value.
    pairs: IndexSet<(u32, u32)>,
    /// When the last line happened.
    nanos: u64,
}

/// A line that isn't taken for a fault.
fn faulty(fault: HistoryFault) -> Result<(), NotTaken>
    ensures { result ≡ Err (NotTaken.Faulty fault) }
{
    Err(NotTaken::Faulty(fault))
}

/// How a write ended.
fn end_of(outcome: Outcome<&str>) -> End
    ensures { result ≡ end_of (outcome_view outcome.entry) }
{
    match outcome {
        Outcome::Done { .. } => End::Done,
        Outcome::Failed => End::Undone,
        Outcome::Refused => End::Refused,
        Outcome::Unknown => End::Unknown,
    }
}

/// What a client does after something ended so.
fn after(outcome: Outcome<&str>) -> Client
    ensures { result ≡ after (outcome_view outcome.entry) }
{
    match outcome {
        Outcome::Done { .. } | Outcome::Failed => Client::Idle,
        Outcome::Refused | Outcome::Unknown => Client::Gone,
    }
}

/// How many times a read found its value that ended so.
fn times_of(outcome: Outcome<&str>) -> u32
    ensures { result ≡ times_of (outcome_view outcome.entry) }
{
    match outcome {
        Outcome::Done { times, .. } => times,
        Outcome::Failed | Outcome::Refused | Outcome::Unknown => 1,
    }
}

impl Known {
    /// Whether the cluster has the process that was asked.
    fn has_asked(&self, node: Option<u16>) -> bool
        ensures { result ≡ has_asked self.now node }
    {
        match node {
            Some(node) => u32::from(node) < self.processes,
            None => true,
        }
    }
}

impl Progress {
    /// No line was read.
    pub(crate) fn new(alloc: Global) -> Progress
        ensures { state_of result ≡ at_first }
    {
        Progress {
            names: Names::new(alloc),
            writes: Vec::new(alloc),
            reads: Vec::new(alloc),
            entries: Vec::new(alloc),
            disks: Vec::new(alloc),
            written: None,
            lines: 0,
            clients: IndexMap::new(alloc),
            pairs: IndexSet::new(alloc),
            nanos: 0,
        }
    }

    /// How many lines were read.
    pub(crate) fn lines(&self) -> u32
        ensures { result ≡ self.now.lines }
    {
        self.lines
    }

    /// What all lines say.
    pub(crate) fn finish(self) -> History
        ensures { IsHistoryOf (state_of self) result }
    {
        let Progress {
            names,
            writes,
            reads,
            entries,
            disks,
            written,
            lines,
            clients: _,
            pairs: _,
            nanos: _,
        } = self;
        History {
            names,
            writes,
            reads,
            entries,
            disks,
            written,
            lines,
        }
    }

    /// The number of a text, which has one from now on.
    fn name(&mut self, text: &str) -> Result<u32, NotTaken>
        ensures number { IfOk result (λ number. number ≡ number_of self.old.names text.now) }
        ensures names { OnOk result (self.new.names ≡ with_text self.old.names text.now) }
        ensures state { OnOk result (state_of self.new ≡ with_name (state_of self.old) text.now) }
        ensures memory { IfErr result (λ stop. stop ≡ NotTaken.NoMemory) }
    {
        match self.names.number(text) {
            Ok(number) => Ok(number),
            Err(_) => Err(NotTaken::NoMemory),
        }
    }

    /// What a client is doing.
    fn client(&self, client: u32) -> Client
        ensures { result ≡ client_at (state_of self.now) client }
    {
        match self.clients.get(&client) {
            Some(doing) => *doing,
            None => Client::Idle,
        }
    }

    /// Notes what a client does from now on.
    fn set_client(&mut self, client: u32, doing: Client) -> Result<(), NotTaken>
        ensures { Makes (with_client (state_of self.old) client doing) (state_of self.new) result }
    {
        match self.clients.insert(client, doing) {
            Ok(_) => Ok(()),
            Err(_) => Err(NotTaken::NoMemory),
        }
    }

    /// Puts a write behind the others.
    fn add_write(&mut self, write: Write) -> Result<(), NotTaken>
        ensures { Makes (add_write (state_of self.old) write) (state_of self.new) result }
    {
        if self.pairs.insert((write.key, write.value)).is_err() {
            return Err(NotTaken::NoMemory);
        }
        match self.writes.push(write) {
            Ok(()) => Ok(()),
            Err(_) => Err(NotTaken::NoMemory),
        }
    }

    /// Puts a read behind the others.
    fn add_read(&mut self, read: Read) -> Result<(), NotTaken>
        ensures { Makes (add_read (state_of self.old) read) (state_of self.new) result }
    {
        match self.reads.push(read) {
            Ok(()) => Ok(()),
            Err(_) => Err(NotTaken::NoMemory),
        }
    }

    /// Takes a write that begins, whose texts have numbers.
    fn begin_with(&mut self, client: u32, write: Write) -> Result<(), NotTaken>
        ensures { Takes (begin_with (state_of self.old) client write) (state_of self.new) result }
    {
        if self.pairs.contains(&(write.key, write.value)) {
            return faulty(HistoryFault::Value);
        }
        if self.written.is_some() {
            return faulty(HistoryFault::Order);
        }
        let place = self.writes.len();
        self.set_client(client, Client::Writes(place))?;
        self.add_write(write)
    }

    /// Takes a write that begins.
    fn begin_write(
        &mut self,
        client: u32,
        key: &str,
        value: &str,
        began: Place,
    ) -> Result<(), NotTaken>
        ensures { Takes (begin_write (state_of self.old) client key.now value.now began)
            (state_of self.new) result }
    {
        let key = self.name(key)?;
        let value = self.name(value)?;
        self.begin_with(
            client,
            Write {
                key,
                value,
                began,
                ended: None,
                end: End::Open,
            },
        )
    }

    /// Takes a read that begins.
    fn begin_read(
        &mut self,
        client: u32,
        key: &str,
        node: Option<u16>,
        began: Place,
    ) -> Result<(), NotTaken>
        ensures { Makes (begin_read (state_of self.old) client key.now node began)
            (state_of self.new) result }
    {
        let key = self.name(key)?;
        let place = self.reads.len();
        self.set_client(client, Client::Reads(place))?;
        self.add_read(Read {
            key,
            node,
            began,
            ended: None,
            answer: Answer::Unanswered,
            times: 1,
        })
    }

    /// Takes what an idle client begins.
    fn begin_ask(
        &mut self,
        known: Known,
        client: u32,
        ask: Ask<&str>,
        began: Place,
    ) -> Result<(), NotTaken>
        ensures { Takes (begin_ask known (state_of self.old) client (ask_view ask.entry) began)
            (state_of self.new) result }
    {
        match ask {
            Ask::Write { key, value } => self.begin_write(client, key, value, began),
            Ask::Read { key, node } => {
                if known.has_asked(node) {
                    self.begin_read(client, key, node, began)
                } else {
                    faulty(HistoryFault::Node)
                }
            }
        }
    }

    /// Takes what a client begins.
    fn begin(
        &mut self,
        known: Known,
        client: u32,
        ask: Ask<&str>,
        began: Place,
    ) -> Result<(), NotTaken>
        ensures { Takes (begin_as (client_at (state_of self.old) client) known (state_of self.old)
            client (ask_view ask.entry) began) (state_of self.new) result }
    {
        match self.client(client) {
            Client::Idle => self.begin_ask(known, client, ask, began),
            _ => faulty(HistoryFault::Client),
        }
    }

    /// The write of a place, if it gives this value to this key.
    fn pending_write(&self, place: usize, key: &str, value: &str) -> Option<Write>
        ensures write { result ≡ pending_write (state_of self.now) place key.now value.now }
        ensures within { IfSome result (λ _. place < length self.now.writes.items) }
    {
        let write = *self.writes.get(place)?;
        if self.names.text(write.key) == key && self.names.text(write.value) == value {
            Some(write)
        } else {
            None
        }
    }

    /// The read of a place, if it asks this for this key.
    fn pending_read(&self, place: usize, key: &str, node: Option<u16>) -> Option<Read>
        ensures read { result ≡ pending_read (state_of self.now) place key.now node }
        ensures within { IfSome result (λ _. place < length self.now.reads.items) }
    {
        let read = *self.reads.get(place)?;
        if self.names.text(read.key) == key && read.node == node {
            Some(read)
        } else {
            None
        }
    }

    /// Takes the end of the write of a place.
    fn end_write(&mut self, place: usize, write: Write, ended: Place, outcome: Outcome<&str>)
        requires { place < length self.old.writes.items }
        ensures { state_of self.new
            ≡ end_write (state_of self.old) place write ended (outcome_view outcome.entry) }
    {
        self.writes[place] = Write {
            ended: Some(ended),
            end: end_of(outcome),
            ..write
        };
    }

    /// What a read was answered that ended so.
    fn answer_of(&mut self, outcome: Outcome<&str>) -> Result<Answer, NotTaken>
        ensures answer { IfOk result (λ answer.
            answer ≡ answer_of self.old.names (outcome_view outcome.entry)) }
        ensures state { OnOk result (state_of self.new ≡ record (state_of self.old) {
          names = found_names self.old.names (outcome_view outcome.entry);
        }) }
        ensures memory { IfErr result (λ stop. stop ≡ NotTaken.NoMemory) }
    {
        match outcome {
            Outcome::Done {
                found: Some(found),
                ..
            } => Ok(Answer::Value(self.name(found)?)),
            Outcome::Done { found: None, .. } => Ok(Answer::Nothing),
            Outcome::Failed | Outcome::Refused | Outcome::Unknown => Ok(Answer::Unanswered),
        }
    }

    /// Takes the end of the read of a place.
    fn end_read(
        &mut self,
        place: usize,
        read: Read,
        ended: Place,
        outcome: Outcome<&str>,
    ) -> Result<(), NotTaken>
        requires { place < length self.old.reads.items }
        ensures { Makes (end_read (state_of self.old) place read ended (outcome_view outcome.entry))
            (state_of self.new) result }
    {
        let answer = self.answer_of(outcome)?;
        self.reads[place] = Read {
            ended: Some(ended),
            answer,
            times: times_of(outcome),
            ..read
        };
        Ok(())
    }

    /// Takes the end of what a client has begun.
    fn end(
        &mut self,
        client: u32,
        ask: Ask<&str>,
        ended: Place,
        outcome: Outcome<&str>,
    ) -> Result<(), NotTaken>
        ensures { Takes (end_as (client_at (state_of self.old) client) (state_of self.old)
            client (ask_view ask.entry) ended (outcome_view outcome.entry))
            (state_of self.new) result }
    {
        match (self.client(client), ask) {
            (Client::Writes(place), Ask::Write { key, value }) => {
                match self.pending_write(place, key, value) {
                    Some(write) => self.end_write(place, write, ended, outcome),
                    None => return faulty(HistoryFault::Client),
                }
            }
            (Client::Reads(place), Ask::Read { key, node }) => {
                match self.pending_read(place, key, node) {
                    Some(read) => self.end_read(place, read, ended, outcome)?,
                    None => return faulty(HistoryFault::Client),
                }
            }
            _ => return faulty(HistoryFault::Client),
        }
        self.set_client(client, after(outcome))
    }

    /// Whether an entry is behind that of the entry line before.
    fn is_behind(&self, entry: u32) -> bool
        ensures { result ≡ is_behind (last_of self.now.entries.items) entry }
    {
        match self.entries.last() {
            Some(last) => last.entry < entry,
            None => true,
        }
    }

    /// Takes an entry of the audit.
    fn enter(
        &mut self,
        known: Known,
        at: Place,
        entry: u32,
        does: Option<Done>,
    ) -> Result<(), NotTaken>
        ensures { Takes (enter known (state_of self.old) at entry does) (state_of self.new) result }
    {
        if !self.is_behind(entry) || known.entries <= entry {
            return faulty(HistoryFault::Entry);
        }
        match self.entries.push(EntryLine { at, entry, does }) {
            Ok(()) => Ok(()),
            Err(_) => Err(NotTaken::NoMemory),
        }
    }

    /// What was found on a disk, with numbers in place of texts.
    fn trace_of(&mut self, found: Found<&str>) -> Result<Trace, NotTaken>
        ensures trace { IfOk result (λ trace.
            trace ≡ trace_of self.old.names (found_view found.entry)) }
        ensures state { OnOk result (state_of self.new ≡ record (state_of self.old) {
          names = traced_names self.old.names (found_view found.entry);
        }) }
        ensures memory { IfErr result (λ stop. stop ≡ NotTaken.NoMemory) }
    {
        match found {
            Found::Has { key, value } => {
                let key = self.name(key)?;
                let value = self.name(value)?;
                Ok(Trace::Has { key, value })
            }
            Found::All => Ok(Trace::All),
            Found::Some => Ok(Trace::Some),
            Found::Stands { key } => {
                let key = self.name(key)?;
                Ok(Trace::Stands { key })
            }
            Found::NothingElse => Ok(Trace::NothingElse),
        }
    }

    /// Takes what was found on a disk.
    fn find(&mut self, known: Known, node: u16, found: Found<&str>) -> Result<(), NotTaken>
        ensures { Takes (find known (state_of self.old) node (found_view found.entry))
            (state_of self.new) result }
    {
        if self.written.is_none() {
            return faulty(HistoryFault::Order);
        }
        if known.processes <= u32::from(node) {
            return faulty(HistoryFault::Node);
        }
        let trace = self.trace_of(found)?;
        match self.disks.push(DiskLine { node, trace }) {
            Ok(()) => Ok(()),
            Err(_) => Err(NotTaken::NoMemory),
        }
    }

    /// Takes that no write begins from here on.
    fn end_writes(&mut self, at: Place) -> Result<(), NotTaken>
        ensures { Takes (end_writes (state_of self.old) at) (state_of self.new) result }
    {
        if self.written.is_some() {
            return faulty(HistoryFault::Order);
        }
        self.written = Some(at);
        Ok(())
    }

    /// Takes what a line says happened.
    fn take_event(&mut self, known: Known, at: Place, event: Event<&str>) -> Result<(), NotTaken>
        ensures { Takes (take_event known (state_of self.old) at (event_view event.entry))
            (state_of self.new) result }
    {
        match event {
            Event::Begins { client, ask } => self.begin(known, client, ask, at),
            Event::Ends {
                client,
                ask,
                outcome,
            } => self.end(client, ask, at, outcome),
            Event::Entry { entry, does } => self.enter(known, at, entry, does),
            Event::Written => self.end_writes(at),
            Event::Disk { node, found } => self.find(known, node, found),
        }
    }

    /// Takes a line. After an error nothing more is taken.
    ///
    /// # Errors
    ///
    /// `Faulty` with the line's first fault; `NoMemory` where an allocation fails before.
    pub(crate) fn take(&mut self, known: Known, line: Line<&str>) -> Result<(), NotTaken>
        requires { self.old.lines < MOST_HISTORY_LINES }
        ensures taken { Takes (take known (state_of self.old) (line_view line.entry))
            (state_of self.new) result }
        ensures lines { OnOk result (self.new.lines ≡ self.old.lines + 1) }
    {
        if line.index != u64::from(self.lines) {
            return faulty(HistoryFault::Index);
        }
        if line.nanos < self.nanos {
            return faulty(HistoryFault::Time);
        }
        let lines = self.lines;
        let at = Place {
            line: lines,
            nanos: line.nanos,
        };
        self.take_event(known, at, line.event)?;
        self.nanos = line.nanos;
        self.lines = lines + 1;
        Ok(())
    }
}
