//! Lines in their one plain spelling, read from front to back with no JSON value between. What is
//! found is what the line says. The scan misses any other spelling, and may miss this one: the line
//! is then read as a JSON value.
ghost use Rattle.std.specs.Prelude.{IfSome};
ghost use Rattle.fy_spelling.specs.Command.{ParsesAs};
ghost use Rattle.fy_spelling.specs.EntryLine.{IsTextOf};

mod acts;
mod lists;
mod replies;
mod tokens;

use crate::fits::{act_fits, u32_fits};
use crate::{Command, Entry};
use acts::act;
use replies::reply;
use std::alloc::Global;
use tokens::{is_exactly, skip, u32_after};

/// The command that a line asks for, where it is in its plain spelling.
pub(crate) fn scan_command(alloc: Global, line: &[u8]) -> Option<Command>
    ensures { IfSome result (λ command. ParsesAs line.now command) }
{
    let (by, rest) = u32_after(line, "{\"by\":")?;
    let Some((act, rest)) = act(alloc, skip(rest, ",\"act\":")?) else {
        return None;
    };
    if !is_exactly(rest, "}") {
        return None;
    }
    u32_fits(by);
    act_fits(&act);
    Some(Command { by, act })
}

/// The entry whose text a line is.
pub(crate) fn scan_entry(alloc: Global, line: &[u8]) -> Option<Entry>
    ensures { IfSome result (λ entry. IsTextOf line.now entry) }
{
    let Some((act, rest)) = act(alloc, skip(line, "{\"act\":")?) else {
        return None;
    };
    let (at, rest) = u32_after(rest, ",\"at\":")?;
    let (by, rest) = u32_after(rest, ",\"by\":")?;
    let reply = reply(rest)?;
    u32_fits(at);
    u32_fits(by);
    act_fits(&act);
    Some(Entry { at, by, act, reply })
}
