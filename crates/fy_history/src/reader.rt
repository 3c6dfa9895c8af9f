//! Whole histories, read line by line.
ghost use Rattle.std.specs.Prelude.{◌≡◌, ◌≤◌, ◌<◌, ◌+◌, IfOk, IfErr, IfSome, OnOk, Ok, Err, length, true, false};
ghost use Rattle.std.specs.Io.KnownBytes.{IsAtEnd};
ghost use Rattle.fy_lines.specs.Readings.{ReadsLine};
ghost use Rattle.json.specs.Value.{value_view};
ghost use Rattle.fy_history.specs.Histories.{told, LineOf, IsRead, TellsLine, IfFaulty, NoLine, IsRefused, unread, untaken};
ghost use Rattle.fy_history.specs.Progress.{state_of, Takes};
ghost use Rattle.fy_history.specs.declared.TheConstants.{MOST_HISTORY_LINES, MOST_HISTORY_LINE_BYTES};

use crate::fault::{HistoryFault, HistoryStop, NotTaken};
use crate::line::line_of;
use crate::progress::{Known, Progress};
use crate::{History, MOST_HISTORY_LINE_BYTES, MOST_HISTORY_LINES};
use fy_lines::{InputFault, next_line};
use json::{Error, Scratch, Value};
use std::alloc::Global;
use std::io::BufRead;

/// Takes a value as a line.
fn take_value(known: Known, value: &Value<'_>, progress: &mut Progress) -> Result<(), NotTaken>
    requires { progress.old.lines < MOST_HISTORY_LINES }
    ensures taken { Takes (told known (state_of progress.old) (value_view value.now))
        (state_of progress.new) result }
    ensures lines { OnOk result (progress.new.lines ≡ progress.old.lines + 1) }
{
    match line_of(value) {
        Some(line) => progress.take(known, line),
        None => Err(NotTaken::Faulty(HistoryFault::Syntax)),
    }
}

/// Takes a line as it stands there.
fn take_line(
    alloc: Global,
    known: Known,
    bytes: &[u8],
    scratch: &mut Scratch,
    progress: &mut Progress,
) -> Result<(), NotTaken>
    requires { progress.old.lines < MOST_HISTORY_LINES }
    ensures ok { OnOk result
        (LineOf known (state_of progress.old) bytes.now (Ok (state_of progress.new))) }
    ensures lines { OnOk result (progress.new.lines ≡ progress.old.lines + 1) }
    ensures err { IfErr result (λ stop. IfFaulty stop
        (λ fault. LineOf known (state_of progress.old) bytes.now (Err fault))) }
{
    match Value::from_slice(alloc, bytes, scratch) {
        Ok(value) => take_value(known, &value, progress),
        Err(error) => match error {
            Error::OutOfMemory => Err(NotTaken::NoMemory),
            Error::Invalid => Err(NotTaken::Faulty(HistoryFault::Syntax)),
            Error::TooLong | Error::DuplicateKey => unreachable!(),
        },
    }
}

/// The stop where the next line, of this number, isn't read.
fn unread(number: u32, fault: InputFault) -> HistoryStop
    ensures { result ≡ unread number fault }
{
    match fault {
        InputFault::TooLong => HistoryStop::Line {
            number,
            fault: HistoryFault::TooLong,
        },
        InputFault::Reader => HistoryStop::Reader,
        InputFault::NoMemory => HistoryStop::NoMemory,
    }
}

/// The stop where a line of this number isn't taken.
fn untaken(number: u32, why: NotTaken) -> HistoryStop
    ensures { result ≡ untaken number why }
{
    match why {
        NotTaken::Faulty(fault) => HistoryStop::Line { number, fault },
        NotTaken::NoMemory => HistoryStop::NoMemory,
    }
}

/// Whether there is a next line, which has this number. It goes into the buffer, in place of what
/// that has.
fn read_line<R: BufRead>(
    reader: &mut R,
    line: &mut Vec<u8>,
    number: u32,
) -> Result<bool, HistoryStop>
    ensures line { result ≡ Ok true →
        ReadsLine (R.remaining reader.old) (R.remaining reader.new) line.new.items }
    ensures within { OnOk result (length line.new.items ≤ MOST_HISTORY_LINE_BYTES) }
    ensures end { result ≡ Ok false → IsAtEnd (R.remaining reader.old) }
    ensures err { IfErr result (NoLine (R.remaining reader.old) number) }
{
    match next_line(reader, line, MOST_HISTORY_LINE_BYTES) {
        Ok(read) => Ok(read),
        Err(fault) => Err(unread(number, fault)),
    }
}

/// Takes the next line, which has this number, and of which there may be so many.
fn take_next(
    alloc: Global,
    known: Known,
    bytes: &[u8],
    scratch: &mut Scratch,
    progress: &mut Progress,
) -> Result<(), HistoryStop>
    requires { progress.old.lines ≤ MOST_HISTORY_LINES }
    ensures ok { OnOk result
        (LineOf known (state_of progress.old) bytes.now (Ok (state_of progress.new))) }
    ensures room { OnOk result (progress.old.lines < MOST_HISTORY_LINES) }
    ensures lines { OnOk result (progress.new.lines ≡ progress.old.lines + 1) }
    ensures err { IfErr result (IsRefused known (state_of progress.old) bytes.now) }
{
    let number = progress.lines() + 1;
    if MOST_HISTORY_LINES < number {
        return Err(unread(number, InputFault::TooLong));
    }
    match take_line(alloc, known, bytes, scratch, progress) {
        Ok(()) => Ok(()),
        Err(why) => Err(untaken(number, why)),
    }
}

/// Reads a history line by line, to the end of the reader or to its first faulty line. The last
/// line may lack its line feed, and no bytes are no lines.
///
/// # Errors
///
/// `Line` for the first faulty line; `Reader` where the reader fails before, and `NoMemory` where
/// an allocation does.
pub fn read_history<R: BufRead>(
    alloc: Global,
    known: Known,
    reader: &mut R,
) -> Result<History, HistoryStop>
    ensures read { IfOk result (λ history. IfSome (R.remaining reader.old)
        (λ bytes. IsRead known bytes history)) }
    ensures refused { IfErr result (λ stop. IfSome (R.remaining reader.old)
        (λ bytes. TellsLine known bytes stop)) }
{
    let mut progress = Progress::new(alloc);
    let mut line = Vec::new(alloc);
    let mut scratch = Scratch::new(alloc);
    'lines: loop {
        if !read_line(reader, &mut line, progress.lines() + 1)? {
            return Ok(progress.finish());
        }
        take_next(alloc, known, &line, &mut scratch, &mut progress)?;
    }
}
