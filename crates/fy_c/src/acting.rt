//! Lines in, and the lines of their entries out.
ghost use Rattle.std.specs.Prelude.{◌≡◌, ◌≢◌, length, IsTrue, IsFalse, IfOk, IfErr};
ghost use Rattle.std.specs.Ptr.{null_ptr};
ghost use Rattle.fy_answers.specs.Answers.{IsAnswered};
ghost use Rattle.fy_c.specs.Acting.{IsUnanswered, Tells, IsShort, Acts, HasLine, NotRead, Reads};
ghost use Rattle.fy_c.specs.Statuses.{Answers, ending};

use crate::handle::FyGuard;
use crate::status::{Status, number_of};
use fy_acts::Journal;
use fy_answers::answer;
use fy_audit::push_entry_line;
use std::alloc::Global;

/// How many bytes the line of an entry may have beyond those of the line that asked for it: 128.
pub const MOST_REPLY_BYTES: usize = 128;

/// Answers a line by a text that has room for so many bytes.
///
/// # Errors
///
/// `NoMemory` where that room can't be had, and those of [`answer`].
fn act(alloc: Global, guard: &mut FyGuard, line: &[u8], room: usize) -> Result<Vec<u8>, Status>
    requires { guard.old.at ≢ null_ptr }
    ensures open { guard.new.at ≢ null_ptr }
    ensures answered { IfOk result (λ text.
        IsAnswered guard.old.value guard.new.value line.now text.items) }
    ensures err { IfErr result (IsUnanswered guard.old.value guard.new.value line.now room) }
{
    let mut text = Vec::with_capacity(alloc, room)?;
    answer(alloc, guard.cluster(), line, &mut text)?;
    Ok(text)
}

/// Copies a text into the front of a buffer and says so, where it fits; tells how long it is.
pub(crate) fn tell(text: &[u8], buffer: &mut [u8], told: &mut usize) -> bool
    ensures told { IsTrue result → Tells buffer.old buffer.new told.new text.now }
    ensures short { IsFalse result → IsShort buffer.old (length text.now) told.new }
    ensures kept { IsFalse result → buffer.new ≡ buffer.old }
{
    *told = text.len();
    if buffer.len() < text.len() {
        return false;
    }
    buffer[..text.len()].copy_from_slice(text);
    true
}

/// Answers a line into the front of a buffer, which has to have room for `MOST_REPLY_BYTES` more
/// than the line has.
///
/// # Errors
///
/// In this order: `Short` where the buffer has less room, and `told` is the room it has to have;
/// those of [`answer`]; `Unwritten` where the answer is longer than the buffer.
fn act_into(
    alloc: Global,
    guard: &mut FyGuard,
    line: &[u8],
    buffer: &mut [u8],
    told: &mut usize,
) -> Result<(), Status>
    requires { guard.old.at ≢ null_ptr }
    ensures open { guard.new.at ≢ null_ptr }
    ensures acted { Acts guard.old.value guard.new.value line.now buffer.old buffer.new told.new
        (ending result) }
{
    let room = line.len() + MOST_REPLY_BYTES;
    *told = room;
    if buffer.len() < room {
        return Err(Status::Short);
    }
    let text = act(alloc, guard, line, room)?;
    if tell(&text, buffer, told) {
        Ok(())
    } else {
        Err(Status::Unwritten)
    }
}

/// Reads a line of a script, applies its command, and writes the line of its entry, with its line
/// feed, into the front of a buffer; its length goes to `told`. The buffer has room for 128 bytes
/// more than the line has, whatever the line is.
///
/// # Errors
///
/// `Short` where the buffer is shorter than that, and its length goes to `told`. Then in order:
/// `LineTooLong`, `LineSyntax` and `Floor` for a line that is no command, and `JournalFull`.
/// `NoMemory` can take the place of any but the first. Nothing changed then. `Unwritten` where the
/// act is made and stands in the journal, and its line couldn't be had: it has over 128 bytes more
/// than `line`, and an allocation for it failed or it is longer than the buffer. Its length goes to
/// `told` where it is longer, and after each other error the length that the buffer has to have.
#[unsafe(no_mangle)]
pub extern "C" fn fy_act(
    alloc: Global,
    guard: &mut FyGuard,
    line: &[u8],
    buffer: &mut [u8],
    told: &mut usize,
) -> u32
    requires { guard.old.at ≢ null_ptr }
    ensures open { guard.new.at ≢ null_ptr }
    ensures acted { Answers result (Acts guard.old.value guard.new.value line.now
        buffer.old buffer.new told.new) }
{
    number_of(act_into(alloc, guard, line, buffer, told))
}

/// The line of an entry of a journal.
///
/// # Errors
///
/// In order: `NoEntry`, `NoMemory`.
fn line_of(alloc: Global, journal: &Journal, at: usize) -> Result<Vec<u8>, Status>
    ensures line { IfOk result (λ line. HasLine journal.now.entries at line.items) }
    ensures err { IfErr result (NotRead journal.now.entries at) }
{
    let Some(entry) = journal.entry(at) else {
        return Err(Status::NoEntry);
    };
    let mut line = Vec::new(alloc);
    push_entry_line(&mut line, entry)?;
    Ok(line)
}

/// Writes the line of the entry at a place of a journal into the front of a buffer, and its length
/// to `told`.
///
/// # Errors
///
/// In order: `NoEntry`, `NoMemory`: then `told` stays. `Short` where the buffer is shorter than the
/// line.
fn audit_into(
    alloc: Global,
    journal: &Journal,
    at: usize,
    buffer: &mut [u8],
    told: &mut usize,
) -> Result<(), Status>
    ensures { Reads journal.now.entries at buffer.old buffer.new told.old told.new (ending result) }
{
    let line = line_of(alloc, journal, at)?;
    if tell(&line, buffer, told) {
        Ok(())
    } else {
        Err(Status::Short)
    }
}

/// Writes the line of the entry at a place of the journal, from 0, with its line feed, into the
/// front of a buffer; its length goes to `told`.
///
/// # Errors
///
/// In order: `NoEntry`; `NoMemory`; `Short` where the buffer is shorter than the line, whose length
/// goes to `told`. Nothing else changes, and after the first two `told` doesn't either.
#[unsafe(no_mangle)]
pub extern "C" fn fy_audit(
    alloc: Global,
    guard: &mut FyGuard,
    at: usize,
    buffer: &mut [u8],
    told: &mut usize,
) -> u32
    requires { guard.old.at ≢ null_ptr }
    ensures kept { guard.new.value ≡ guard.old.value }
    ensures place { guard.new.at ≡ guard.old.at }
    ensures read { Answers result (Reads guard.old.value.journal at
        buffer.old buffer.new told.old told.new) }
{
    let journal = guard.cluster().journal();
    number_of(audit_into(alloc, journal, at, buffer, told))
}

/// How many entries the journal has.
#[unsafe(no_mangle)]
pub extern "C" fn fy_journal_len(guard: &mut FyGuard) -> usize
    requires { guard.old.at ≢ null_ptr }
    ensures kept { guard.new.value ≡ guard.old.value }
    ensures place { guard.new.at ≡ guard.old.at }
    ensures len { result ≡ length guard.old.value.journal }
{
    guard.cluster().journal().len()
}
