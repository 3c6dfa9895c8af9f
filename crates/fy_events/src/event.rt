//! What a line of a file of events says of an entry.
ghost use Rattle.std.specs.Prelude.{◌≡◌, codes, option_map, option_and_then, IfOk, IfErr, IfSome, ◌<◌, Ok, Err};
ghost use Rattle.json.specs.Value.{value_view};
ghost use Rattle.json.specs.Find.{get, as_number};
ghost use Rattle.fy_events.specs.Events.{done_named, done_from, done_of, follows, told, LineOf, IsNext};
ghost use Rattle.fy_events.specs.declared.TheConstants.{MOST_MICROS};
ghost use Rattle.fy_events.specs.Stops.{IfFaulty};
ghost use Rattle.fy_events.specs.Micros.{micros_from, whole_from};

use crate::micros::{micros_from, whole_from};
use fy_kinds::Kind;
use json::{Error, Scratch, Value};
use std::alloc::{AllocError, Global};

/// What was done for an entry, as its event says.
#[derive(Clone, Copy, PartialEq, Eq, Debug)]
pub enum Done {
    /// It says nothing of it.
    Untold,
    /// Nothing was done.
    Nothing,
    /// Processes were killed so.
    Kill(Kind),
    /// Processes were clogged.
    Clog,
}

/// When an entry came, and what was done.
#[derive(Clone, Copy, PartialEq, Eq, Debug)]
pub struct Event {
    /// The entry's place in the audit.
    pub entry: u32,
    /// When it came, in microseconds.
    pub micros: u64,
    /// What was done.
    pub done: Done,
}

/// Why a line is refused, the first that holds.
#[derive(Clone, Copy, PartialEq, Eq, Debug)]
pub enum EventFault {
    /// The line is no JSON object.
    Syntax,
    /// Its `entry` is no whole number, or the audit has no such entry.
    Entry,
    /// It has no `t`, or that is no number of seconds from 0 to below 1,000,000.
    Time,
    /// Its `does` is neither null nor a kind.
    Does,
    /// Its entry isn't behind that of the event before, or its time is before that event's.
    Order,
}

/// Why a line gives no answer.
#[derive(Clone, Copy)]
pub(crate) enum NoAnswer {
    /// The line is faulty.
    Faulty(EventFault),
    /// An allocation failed while it was read.
    NoMemory,
}

/// What is written so.
fn done_named(text: &str) -> Option<Done>
    ensures { result ≡ done_named text.now }
{
    if text == "Clog" {
        return Some(Done::Clog);
    }
    Some(Done::Kill(Kind::named(text)?))
}

/// What `does` says.
fn done_from(value: &Value<'_>) -> Option<Done>
    ensures { result ≡ done_from (value_view value.now) }
{
    if value.is_null() {
        return Some(Done::Nothing);
    }
    done_named(value.as_str()?)
}

/// What was done, as the member `does` of an event says it: nothing of it where there is no such
/// member. `None` where it says neither null nor a kind.
pub fn done_of(value: Option<&Value<'_>>) -> Option<Done>
    ensures { result ≡ done_of (option_map (λ found. value_view found.now) value.entry) }
{
    match value {
        None => Some(Done::Untold),
        Some(value) => done_from(value),
    }
}

/// Whether an event may stand behind the one before.
fn follows(last: Option<Event>, event: Event) -> bool
    ensures { result ≡ follows last event }
{
    match last {
        None => true,
        Some(last) => last.entry < event.entry && last.micros <= event.micros,
    }
}

/// The number of an entry, of which there are so many.
fn entry_in(value: &Value<'_>, count: u32) -> Option<u32>
    ensures value { result ≡ option_and_then (whole_from count)
        (as_number (value_view value.now)) }
    ensures low { IfSome result (λ entry. entry < count) }
{
    whole_from(value.as_number()?, count)
}

/// The time of an event.
fn micros_in(value: &Value<'_>) -> Option<u64>
    ensures value { result ≡ option_and_then micros_from
        (option_and_then as_number (get (codes "t") (value_view value.now))) }
    ensures early { IfSome result (λ micros. micros < MOST_MICROS) }
{
    micros_from(value.get("t")?.as_number()?)
}

/// What a value says of an entry.
fn told(count: u32, last: Option<Event>, value: &Value<'_>) -> Result<Option<Event>, EventFault>
    ensures said { result ≡ told count last (value_view value.now) }
    ensures next { IfOk result (λ found. IfSome found (IsNext count last)) }
{
    let Value::Object(_) = value else {
        return Err(EventFault::Syntax);
    };
    let Some(entry) = value.get("entry") else {
        return Ok(None);
    };
    let Some(entry) = entry_in(entry, count) else {
        return Err(EventFault::Entry);
    };
    let Some(micros) = micros_in(value) else {
        return Err(EventFault::Time);
    };
    let Some(done) = done_of(value.get("does")) else {
        return Err(EventFault::Does);
    };
    let event = Event {
        entry,
        micros,
        done,
    };
    if follows(last, event) {
        Ok(Some(event))
    } else {
        Err(EventFault::Order)
    }
}

/// What a line says of one of so many entries, behind the event before.
///
/// # Errors
///
/// `Faulty` with the line's first fault; `NoMemory` where an allocation fails before.
pub(crate) fn read_line(
    alloc: Global,
    count: u32,
    last: Option<Event>,
    line: &[u8],
    scratch: &mut Scratch,
) -> Result<Option<Event>, NoAnswer>
    ensures ok { IfOk result (λ found. LineOf count last line.now (Ok found)) }
    ensures err { IfErr result (λ stop. IfFaulty stop
        (λ fault. LineOf count last line.now (Err fault))) }
    ensures next { IfOk result (λ found. IfSome found (IsNext count last)) }
{
    match Value::from_slice(alloc, line, scratch) {
        Ok(value) => match told(count, last, &value) {
            Ok(found) => Ok(found),
            Err(fault) => Err(NoAnswer::Faulty(fault)),
        },
        Err(error) => match error {
            Error::OutOfMemory => Err(NoAnswer::NoMemory),
            Error::Invalid => Err(NoAnswer::Faulty(EventFault::Syntax)),
            Error::TooLong | Error::DuplicateKey => unreachable!(),
        },
    }
}
