//! Commands, replies and entries from JSON values.
ghost use Rattle.std.specs.Prelude.{◌≡◌, IfOk, IfSome, IfNone, option_map};
ghost use Rattle.serde_json.specs.Data.{Data};
ghost use Rattle.serde_json.specs.View.{view};
ghost use Rattle.fy_spelling.specs.Candidate.{u64_in, process_in, clog_in, order_in, form_in, begin_in, give_in, protection_in, resend_in, take_in, copy_in, replace_in, clog_or_tick_from, message_act_from, rights_act_from, healing_act_from, plain_act_from, named_act_from, act_from, command_from, IsCheckedAct};
ghost use Rattle.fy_spelling.specs.Command.{IsJson, LineAnswers};
ghost use Rattle.fy_spelling.specs.declared.reading.UncheckedAct.TheVariants.{Other};

mod entries;
mod replies;

use crate::parts::{
    five, kind_of, kinds_of, member_list_of, one, payload_of, process_of, scope_of, sole,
    target_in, target_of, three, two, u32_of, u64_of,
};
use crate::{Act, Command, CommandFault, LineFault, MOST_LINE_BYTES};
pub(crate) use entries::entry_by_value;
use fy_grants::Grant;
use fy_kinds::{Floor, KillOrder, Kind, KindSet, Target};
use fy_locality::ProcId;
use serde_json::Value;
use std::alloc::{AllocError, Global};

/// What an act's value asks for.
#[derive(Drop)]
pub(crate) enum UncheckedAct {
    /// A kill, whether or not its floor is above its kind.
    Order {
        target: Target,
        kind: Kind,
        floor: Kind,
        tear: u64,
    },
    /// Any other act.
    Other(Act),
}

/// A number of 64 bits at the one key.
fn u64_in(value: &Value, key: &str) -> Option<u64>
    ensures { result ≡ u64_in key.now (view value.now) }
{
    u64_of(one(value, key)?)
}

/// A process at the key of one.
fn process_in(value: &Value) -> Option<ProcId>
    ensures { result ≡ process_in (view value.now) }
{
    process_of(one(value, "process")?)
}

/// A target and ticks.
fn clog_in(value: &Value) -> Option<(Target, u64)>
    ensures { result ≡ clog_in (view value.now) }
{
    let (key, ticks, value) = three(value, "key", "ticks", "value")?;
    let target = target_of(key, value)?;
    let ticks = u64_of(ticks)?;
    Some((target, ticks))
}

/// An order, whether or not its floor is above its kind.
fn order_in(value: &Value) -> Option<UncheckedAct>
    ensures { result ≡ order_in (view value.now) }
{
    let (floor, key, kind, tear, value) = five(value, "floor", "key", "kind", "tear", "value")?;
    let floor = kind_of(floor)?;
    let target = target_of(key, value)?;
    let kind = kind_of(kind)?;
    let tear = u64_of(tear)?;
    Some(UncheckedAct::Order {
        target,
        kind,
        floor,
        tear,
    })
}

/// The form of a team.
fn form_in(alloc: Global, value: &Value) -> Result<Option<Act>, AllocError>
    ensures { IfOk result (λ found. found ≡ form_in (view value.now)) }
{
    let Some((members, policy)) = two(value, "members", "policy") else {
        return Ok(None);
    };
    let Some(policy) = u32_of(policy) else {
        return Ok(None);
    };
    let Some(members) = member_list_of(alloc, members)? else {
        return Ok(None);
    };
    Ok(Some(Act::Form { members, policy }))
}

/// The begin of a record.
fn begin_in(alloc: Global, value: &Value) -> Result<Option<Act>, AllocError>
    ensures { IfOk result (λ found. found ≡ begin_in (view value.now)) }
{
    let Some((payload, team)) = two(value, "payload", "team") else {
        return Ok(None);
    };
    let Some(team) = u32_of(team) else {
        return Ok(None);
    };
    let Some(payload) = payload_of(alloc, payload)? else {
        return Ok(None);
    };
    Ok(Some(Act::Begin { team, payload }))
}

/// A grant.
fn give_in(value: &Value) -> Option<Act>
    ensures { result ≡ give_in (view value.now) }
{
    let (actor, kinds, scope) = three(value, "actor", "kinds", "scope")?;
    let actor = u32_of(actor)?;
    let kinds = kinds_of(kinds)?;
    let scope = scope_of(scope)?;
    let grant = Grant {
        actor,
        kinds,
        scope,
    };
    Some(Act::Give { grant })
}

/// A process and kinds.
fn protection_in(value: &Value) -> Option<(ProcId, KindSet)>
    ensures { result ≡ protection_in (view value.now) }
{
    let (kinds, process) = two(value, "kinds", "process")?;
    let kinds = kinds_of(kinds)?;
    let process = process_of(process)?;
    Some((process, kinds))
}

/// A record and a process.
fn resend_in(value: &Value) -> Option<Act>
    ensures { result ≡ resend_in (view value.now) }
{
    let (process, rec) = two(value, "process", "record")?;
    let process = process_of(process)?;
    let rec = u32_of(rec)?;
    Some(Act::Resend { rec, process })
}

/// A grant's place.
fn take_in(value: &Value) -> Option<Act>
    ensures { result ≡ take_in (view value.now) }
{
    let (actor, index) = two(value, "actor", "index")?;
    let actor = u32_of(actor)?;
    let index = u32_of(index)?;
    Some(Act::Take { actor, index })
}

/// A copy of a record.
fn copy_in(value: &Value) -> Option<Act>
    ensures { result ≡ copy_in (view value.now) }
{
    let (from, rec, to) = three(value, "from", "record", "to")?;
    let from = process_of(from)?;
    let rec = u32_of(rec)?;
    let to = process_of(to)?;
    Some(Act::CopyTo { from, rec, to })
}

/// The replacement of a member.
fn replace_in(value: &Value) -> Option<Act>
    ensures { result ≡ replace_in (view value.now) }
{
    let (into, out, team) = three(value, "into", "out", "team")?;
    let into = process_of(into)?;
    let out = process_of(out)?;
    let team = u32_of(team)?;
    Some(Act::Replace { team, out, into })
}

/// An act of a target or of ticks, by its name.
fn clog_or_tick_from(name: &str, value: &Value) -> Option<Act>
    ensures { result ≡ clog_or_tick_from name.now (view value.now) }
{
    match name {
        "clog" => {
            let (target, ticks) = clog_in(value)?;
            Some(Act::Clog { target, ticks })
        }
        "unclog" => {
            let target = target_in(value)?;
            Some(Act::Unclog { target })
        }
        "tick" => {
            let ticks = u64_in(value, "ticks")?;
            Some(Act::Tick { ticks })
        }
        _ => None,
    }
}

/// An act of a process or a message, by its name.
fn message_act_from(name: &str, value: &Value) -> Option<Act>
    ensures { result ≡ message_act_from name.now (view value.now) }
{
    match name {
        "deliver" => {
            let message = u64_in(value, "message")?;
            Some(Act::Deliver { message })
        }
        "lose" => {
            let message = u64_in(value, "message")?;
            Some(Act::Lose { message })
        }
        "resend" => resend_in(value),
        "sync" => {
            let process = process_in(value)?;
            Some(Act::Sync { process })
        }
        "up" => {
            let process = process_in(value)?;
            Some(Act::Up { process })
        }
        _ => None,
    }
}

/// An act of rights, by its name.
fn rights_act_from(name: &str, value: &Value) -> Option<Act>
    ensures { result ≡ rights_act_from name.now (view value.now) }
{
    match name {
        "give" => give_in(value),
        "take" => take_in(value),
        "protect" => {
            let (process, kinds) = protection_in(value)?;
            Some(Act::Protect { process, kinds })
        }
        "unprotect" => {
            let (process, kinds) = protection_in(value)?;
            Some(Act::Unprotect { process, kinds })
        }
        _ => None,
    }
}

/// An act of healing, by its name.
fn healing_act_from(name: &str, value: &Value) -> Option<Act>
    ensures { result ≡ healing_act_from name.now (view value.now) }
{
    match name {
        "copy" => copy_in(value),
        "replace" => replace_in(value),
        "heal" => {
            let process = process_in(value)?;
            Some(Act::Heal { process })
        }
        _ => None,
    }
}

/// Any act but a kill, a form and a begin, by its name: one group at most has it.
fn plain_act_from(name: &str, value: &Value) -> Option<Act>
    ensures { result ≡ plain_act_from name.now (view value.now) }
{
    clog_or_tick_from(name, value)
        .or(message_act_from(name, value))
        .or(rights_act_from(name, value))
        .or(healing_act_from(name, value))
}

/// An act that is no kill.
fn other(found: Option<Act>) -> Option<UncheckedAct>
    ensures { result ≡ option_map Other found }
{
    match found {
        Some(act) => Some(UncheckedAct::Other(act)),
        None => None,
    }
}

/// Any act, by its name.
fn named_act_from(
    alloc: Global,
    name: &str,
    value: &Value,
) -> Result<Option<UncheckedAct>, AllocError>
    ensures { IfOk result (λ found. found ≡ named_act_from name.now (view value.now)) }
{
    match name {
        "kill" => Ok(order_in(value)),
        "form" => Ok(other(form_in(alloc, value)?)),
        "begin" => Ok(other(begin_in(alloc, value)?)),
        _ => Ok(other(plain_act_from(name, value))),
    }
}

/// What an act's value asks for.
fn act_of(alloc: Global, value: &Value) -> Result<Option<UncheckedAct>, AllocError>
    ensures { IfOk result (λ found. found ≡ act_from (view value.now)) }
{
    let Some((name, value)) = sole(value) else {
        return Ok(None);
    };
    named_act_from(alloc, name, value)
}

/// Who asks for which act.
fn command_of(alloc: Global, value: &Value) -> Result<Option<(u32, UncheckedAct)>, AllocError>
    ensures { IfOk result (λ found. found ≡ command_from (view value.now)) }
{
    let Some((act, by)) = two(value, "act", "by") else {
        return Ok(None);
    };
    let Some(by) = u32_of(by) else {
        return Ok(None);
    };
    let Some(asked) = act_of(alloc, act)? else {
        return Ok(None);
    };
    Ok(Some((by, asked)))
}

/// The act that is asked for.
///
/// # Errors
///
/// `Floor` where it is a kill whose floor is above its kind.
fn checked_act(asked: UncheckedAct) -> Result<Act, LineFault>
    ensures { IsCheckedAct asked result }
{
    match asked {
        UncheckedAct::Order {
            target,
            kind,
            floor,
            tear,
        } => match KillOrder::make(target, kind, floor, tear) {
            Ok(order) => Ok(Act::Kill { order }),
            Err(Floor) => Err(LineFault::Floor),
        },
        UncheckedAct::Other(act) => Ok(act),
    }
}

/// The JSON value of a line, if it has one.
fn value_of(alloc: Global, line: &[u8]) -> Result<Option<Value>, AllocError>
    ensures found { IfOk result (λ found. IfSome found (λ value. IsJson line.now (view value))) }
    ensures none { IfOk result (λ found. IfNone found ((d : Data) → IsJson line.now d → ⊥)) }
{
    match Value::from_slice(alloc, line) {
        Ok(value) => Ok(Some(value)),
        Err(error) if error.is_memory() => Err(AllocError),
        Err(_) => Ok(None),
    }
}

/// The command of a line of a script, read as a JSON value. The line has no line feed.
///
/// # Errors
///
/// `Line` of `TooLong`, `Syntax` or `Floor`, in order; `NoMemory` in place of any of them but the
/// first, where an allocation fails.
pub fn read_command_by_value(alloc: Global, line: &[u8]) -> Result<Command, CommandFault>
    ensures { LineAnswers line.now result }
{
    if line.len() > MOST_LINE_BYTES {
        return Err(CommandFault::Line(LineFault::TooLong));
    }
    let Some(value) = value_of(alloc, line)? else {
        return Err(CommandFault::Line(LineFault::Syntax));
    };
    let Some((by, asked)) = command_of(alloc, &value)? else {
        return Err(CommandFault::Line(LineFault::Syntax));
    };
    match checked_act(asked) {
        Ok(act) => Ok(Command { by, act }),
        Err(fault) => Err(CommandFault::Line(fault)),
    }
}
