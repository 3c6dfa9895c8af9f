//! Lines of audits. An entry has one text. A scan reads it; what the scan misses is read as a JSON
//! value, and since a value has many texts, the entry is written again and compared with the line.
ghost use Rattle.std.specs.Prelude.{◌≡◌, ◌↔◌, IfOk, IsTrue};
ghost use Rattle.fy_spelling.specs.EntryLine.{IsTextOf, EntryAnswers};

use crate::Entry;
use crate::fits::{entry_is_representable, reply_fits};
use crate::reading::entry_by_value;
use crate::scan::scan_entry;
use crate::writing::put_entry;
use std::alloc::{AllocError, Global};

/// Why no entry is read of a line of an audit.
#[derive(Clone, Copy, PartialEq, Eq, Debug)]
pub enum EntryFault {
    /// The line is the text of no entry.
    Syntax,
    /// An allocation failed while the line was read.
    NoMemory,
}

impl From<AllocError> for EntryFault {
    ghost use Rattle.fy_spelling.specs.declared.entry_line.EntryFault.TheVariants.{NoMemory};

    ghost from_gives = { λ _ fault. fault ≡ NoMemory };

    fn from(_refused: AllocError) -> EntryFault {
        EntryFault::NoMemory
    }
}

/// Whether the line is the text of the entry. The buffer's bytes are overwritten.
fn is_text_of(line: &[u8], entry: &Entry, room: &mut Vec<u8>) -> Result<bool, AllocError>
    ensures { IfOk result (λ same. IsTrue same ↔ IsTextOf line.now entry.now) }
{
    entry_is_representable(entry);
    room.clear();
    put_entry(room, entry)?;
    Ok(room.as_slice() == line && reply_fits(&entry.reply))
}

/// The entry of a line of an audit, read as a JSON value. The line has no line feed. `room` is a
/// buffer that is overwritten.
///
/// # Errors
///
/// `Syntax` where the line is the text of no entry; `NoMemory` in its place, where an allocation
/// fails.
pub fn read_entry_by_value(
    alloc: Global,
    line: &[u8],
    room: &mut Vec<u8>,
) -> Result<Entry, EntryFault>
    ensures { EntryAnswers line.now result }
{
    let entry = entry_by_value(alloc, line)?;
    match is_text_of(line, &entry, room) {
        Ok(true) => Ok(entry),
        Ok(false) => Err(EntryFault::Syntax),
        Err(AllocError) => Err(EntryFault::NoMemory),
    }
}

/// The entry of a line of an audit. The line has no line feed. `room` is a buffer that is
/// overwritten: one for all lines grows only once.
///
/// # Errors
///
/// `Syntax` where the line is the text of no entry: it is no JSON, has blanks, members in another
/// order, a number with a leading zero or at its bound, kinds twice or in another order, a kill
/// whose floor is above its kind. `NoMemory` in its place, where an allocation fails.
pub fn read_entry(alloc: Global, line: &[u8], room: &mut Vec<u8>) -> Result<Entry, EntryFault>
    ensures { EntryAnswers line.now result }
{
    match scan_entry(alloc, line) {
        Some(entry) => Ok(entry),
        None => read_entry_by_value(alloc, line, room),
    }
}
