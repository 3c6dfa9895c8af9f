//! Kills beyond the guard: what was done for an order, and its reply doesn't say.
ghost use Rattle.std.specs.Prelude.{◌≡◌};
ghost use Rattle.fy_holders.specs.Beyond.{is_past};

use fy_events::Done;

/// What a note says was done for an entry.
#[derive(Clone, Copy, PartialEq, Eq, Debug)]
pub struct Note {
    /// The place of the entry.
    pub entry: u32,
    /// What was done.
    pub done: Done,
}

/// Whether a kill was done that destroys, and the reply says another thing.
pub(crate) fn is_past(answer: Option<Done>, done: Done) -> bool
    ensures { result ≡ is_past answer done }
{
    match (answer, done) {
        (Some(answer), Done::Kill(kind)) => kind.is_destroying() && done != answer,
        _ => false,
    }
}
