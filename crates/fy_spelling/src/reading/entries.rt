//! Entries from JSON values.
ghost use Rattle.std.specs.Prelude.{◌≡◌, IfOk, MatchResult};
ghost use Rattle.serde_json.specs.View.{view};
ghost use Rattle.fy_spelling.specs.EntryLine.{IsTextOf};
ghost use Rattle.fy_spelling.specs.Replied.{entry_from};
ghost use Rattle.fy_acts.specs.declared.entry.Entry.{Entry};
ghost use Rattle.fy_spelling.specs.declared.entry_line.EntryFault.TheVariants.{NoMemory};

use super::replies::reply_of;
use super::{UncheckedAct, act_of, checked_act, value_of};
use crate::parts::{four, u32_of};
use crate::{Entry, EntryFault, Reply};
use serde_json::Value;
use std::alloc::{AllocError, Global};

/// What was asked, where it stands, who asked, and the reply.
type Parts = (UncheckedAct, u32, u32, Reply);

/// The parts of an entry.
fn parts_of(alloc: Global, value: &Value) -> Result<Option<Parts>, AllocError>
    ensures { IfOk result (λ found. found ≡ entry_from (view value.now)) }
{
    let Some((act, at, by, reply)) = four(value, "act", "at", "by", "reply") else {
        return Ok(None);
    };
    let Some(at) = u32_of(at) else {
        return Ok(None);
    };
    let Some(by) = u32_of(by) else {
        return Ok(None);
    };
    let Some(reply) = reply_of(reply) else {
        return Ok(None);
    };
    let Some(asked) = act_of(alloc, act)? else {
        return Ok(None);
    };
    Ok(Some((asked, at, by, reply)))
}

/// The entry that a line may be the text of, if any: it is the text of no other.
pub(crate) fn entry_by_value(alloc: Global, line: &[u8]) -> Result<Entry, EntryFault>
    ensures { (entry : Entry) → IsTextOf line.now entry →
        MatchResult result (λ found. found ≡ entry) (λ fault. fault ≡ NoMemory) }
{
    let Some(value) = value_of(alloc, line)? else {
        return Err(EntryFault::Syntax);
    };
    let Some((asked, at, by, reply)) = parts_of(alloc, &value)? else {
        return Err(EntryFault::Syntax);
    };
    match checked_act(asked) {
        Ok(act) => Ok(Entry { at, by, act, reply }),
        Err(_) => Err(EntryFault::Syntax),
    }
}
