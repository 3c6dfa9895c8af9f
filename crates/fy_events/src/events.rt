//! Whole files of events.
ghost use Rattle.std.specs.Prelude.{◌≡◌, IfOk, IfErr, Ok, Err, None};
ghost use Rattle.fy_events.specs.Events.{EventsOf, EventsAnswers, Rises};

use crate::event::{NoAnswer, read_line};
use crate::{Event, EventFault, MOST_EVENTS_BYTES};
use fy_lines::first_line;
use json::Scratch;
use std::alloc::{AllocFailed, Global};

/// Why a file of events is refused.
#[derive(Clone, Copy, PartialEq, Eq, Debug)]
pub enum EventsFault {
    /// The file has more than 268,435,456 bytes.
    TooLong,
    /// The first faulty line, counted from 1, and its first fault.
    Line { number: u32, fault: EventFault },
    /// An allocation for the events failed.
    NoMemory,
}

impl<T: Drop> From<AllocFailed<T>> for EventsFault {
    ghost use Rattle.std.specs.Prelude.{◌≡◌};
    ghost use Rattle.fy_events.specs.declared.events.EventsFault.TheVariants.{NoMemory};

    ghost from_gives = { λ _ fault. fault ≡ NoMemory };

    fn from(_refused: AllocFailed<T>) -> EventsFault {
        EventsFault::NoMemory
    }
}

/// The events of so many entries of an audit. A line that has no `entry` is passed over. The last
/// line may lack its line feed, and no bytes are no lines.
///
/// # Errors
///
/// In this order: `TooLong`; `Line` for the first faulty line; `NoMemory` where an allocation fails
/// before.
pub fn read_events(alloc: Global, bytes: &[u8], count: u32) -> Result<Vec<Event>, EventsFault>
    ensures read { IfOk result (λ events. EventsOf count bytes.now (Ok events.items)) }
    ensures refused { IfErr result (λ fault. EventsAnswers count bytes.now (Err fault)) }
    ensures rise { IfOk result (λ events. Rises count None events.items) }
{
    if bytes.len() > MOST_EVENTS_BYTES {
        return Err(EventsFault::TooLong);
    }
    let mut scratch = Scratch::new(alloc);
    let mut events = Vec::new(alloc);
    let mut last = None;
    let mut rest = bytes;
    let mut number = 0;
    while !rest.is_empty() {
        let (line, next) = first_line(rest);
        number += 1;
        match read_line(alloc, count, last, line, &mut scratch) {
            Ok(Some(event)) => {
                events.push(event)?;
                last = Some(event);
            }
            Ok(None) => {}
            Err(NoAnswer::Faulty(fault)) => return Err(EventsFault::Line { number, fault }),
            Err(NoAnswer::NoMemory) => return Err(EventsFault::NoMemory),
        }
        rest = next;
    }
    Ok(events)
}
