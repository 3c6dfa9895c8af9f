//! The text of an audit as it is written: its header, and the line of an entry.
ghost use Rattle.std.specs.Prelude.{◌≡◌, ◌+◌, ◌<◌, ◌++◌, OnOk, OnErr, length, vec_capacity};
ghost use Rattle.fy_audit.specs.AuditText.{header, entry_line};

use crate::{Entry, Version};
use fy_spelling::put_entry;
use std::alloc::AllocError;

/// The line that an audit of a version begins with, with its line feed.
pub fn header_text(version: Version) -> &'static str
    ensures { result.now ≡ header version }
{
    match version {
        Version::First => "{\"audit\":1}\n",
        Version::Second => "{\"audit\":2}\n",
    }
}

/// Puts an entry's line, with its line feed, after what a text has.
///
/// # Errors
///
/// `AllocError` where an allocation fails, and the text's capacity is too small for it; the text
/// then has what it had.
pub fn push_entry_line(text: &mut Vec<u8>, entry: &Entry) -> Result<(), AllocError>
    ensures ok { OnOk result (text.new.items ≡ text.old.items ++ entry_line entry.now) }
    ensures err { OnErr result (text.new.items ≡ text.old.items) }
    ensures full { OnErr result
        (vec_capacity text.old < length text.old.items + length (entry_line entry.now)) }
{
    let length = text.len();
    put_entry(text, entry)?;
    match text.extend_from_slice(b"\n") {
        Ok(()) => Ok(()),
        Err(refused) => {
            // An entry without its line feed is no line.
            text.truncate(length);
            Err(refused)
        }
    }
}
