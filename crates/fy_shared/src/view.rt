//! What a seat knows.
use fy_acts::Entry;
use fy_cluster::Config;
use std::collections::LinkedList;

/// What a seat at the table knows. No value of it is made.
pub struct View {
    /// False of a spent seat.
    pub live: bool,
    /// What the cluster began with.
    pub setup: Config,
    /// How many parts there are, and how many of them this seat has.
    pub all: u64,
    pub parts: u64,
    /// The seat makes the other seats, and the next one is this actor's.
    pub opens: bool,
    pub made: u64,
    /// False of a note.
    pub seated: bool,
    pub actor: u64,
    /// 1 while the seat has a ticket, else 0.
    pub waits: u64,
    pub ticket: u64,
    /// The seat has the desk.
    pub holds: bool,
    /// The journal as far as the seat has seen it.
    pub seen: LinkedList<Entry>,
    /// What a note brought.
    pub told: LinkedList<Entry>,
    /// The seat's receipts.
    pub mine: LinkedList<Entry>,
    /// Of each seat that was joined into it: the actor, its receipts, and what it had seen.
    pub kept: LinkedList<(u64, (LinkedList<Entry>, LinkedList<Entry>))>,
}
