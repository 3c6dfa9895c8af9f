//! The rule of the turnstile, and its steps.
ghost use Rattle.fy_shared.specs.Turnstile.{KeepsTurns, first_view, Drawn, Looked, Counted, Advanced, Met, after_split, next_seat, note_of, told_by, joined_by, spent_view};

use crate::view::View;
use atomic_table::{Join, Play, Seat, Split, Table, TableRule};
use fy_actors::Desk;
use fy_cluster::Config;
use std::alloc::Global;
use std::snapshot::Snapshot;

/// What holds between any two steps.
pub struct InTurn;

impl TableRule<Option<Desk>, View, Snapshot<Config>> for InTurn {
    ghost holds = { λ _. KeepsTurns };

    ghost first = { λ key. first_view key.value };
}

/// Draws a ticket.
pub struct Draw;

impl Play<Option<Desk>, View> for Draw {
    ghost then = { Drawn };
}

/// Looks whose turn it is, and takes the desk where it is one's own.
pub struct Look;

impl Play<Option<Desk>, View> for Look {
    ghost then = { Looked };
}

/// Stores how many entries the journal has. The event: from here on the new entries stand.
pub struct Count;

impl Play<Option<Desk>, View> for Count {
    ghost then = { Counted };
}

/// Gives the desk back, and lets the next ticket be served.
pub struct Advance;

impl Play<Option<Desk>, View> for Advance {
    ghost then = { Advanced };
}

/// Takes the longer of what was seen and what a note told.
pub struct Meet;

impl Play<Option<Desk>, View> for Meet {
    ghost then = { Met };
}

/// Makes the seat of the next actor.
pub struct MakeNext;

impl Split<View> for MakeNext {
    ghost left = { after_split };

    ghost right = { next_seat };
}

/// Copies what was seen, and brings it to another seat.
pub struct Note;

impl Split<View> for Note {
    ghost left = { λ v. v };

    ghost right = { note_of };
}

impl Join<View> for Note {
    ghost both = { told_by };

    ghost spent = { spent_view };
}

/// Joins a seat into one that keeps its receipts.
pub struct Ends;

impl Join<View> for Ends {
    ghost both = { joined_by };

    ghost spent = { spent_view };
}

/// Three words (how many entries the journal has, the next ticket, the ticket that is served) and a
/// slot for the desk.
pub type Turnstile = Table<Option<Desk>, View, Snapshot<Config>, InTurn, Global>;

/// An actor's place at the turnstile. It has no bytes.
pub type Place = Seat<Option<Desk>, View>;
