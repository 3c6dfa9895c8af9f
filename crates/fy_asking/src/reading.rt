//! Questions from JSON values.
ghost use Rattle.std.specs.Prelude.{◌≡◌, IfOk, IfSome, IfNone};
ghost use Rattle.serde_json.specs.Data.{Data};
ghost use Rattle.serde_json.specs.View.{view};
ghost use Rattle.fy_spelling.specs.Command.{IsJson};
ghost use Rattle.fy_asking.specs.Asks.{IsCheckedAsk, clog_asked, judge_asked, order_asked, plain_asked, plain_in, question_from, state_asked};
ghost use Rattle.fy_asking.specs.Requests.{AskAnswers};

use crate::Question;
use crate::parts::{
    five, is_empty, kind_of, one, process_of, sole, target_in, target_of, three, two, u32_of,
    u64_of,
};
use fy_kinds::{Floor, KillOrder, Kind, Target};
use fy_questions::Attempt;
use fy_spelling::{CommandFault, LineFault, MOST_LINE_BYTES};
use serde_json::Value;
use std::alloc::{AllocError, Global};

/// What a value asks, where a kill that is judged may have a floor above its kind.
#[derive(Clone, Copy, PartialEq, Eq)]
pub(crate) enum Unchecked {
    /// To judge a kill by an actor.
    Order {
        by: u32,
        target: Target,
        kind: Kind,
        floor: Kind,
        tear: u64,
    },
    /// Any other question.
    Other(Question),
}

/// To judge a kill, whether or not its floor is above its kind.
fn order_in(by: u32, value: &Value) -> Option<Unchecked>
    ensures { result ≡ order_asked by (view value.now) }
{
    let (floor, key, kind, tear, value) = five(value, "floor", "key", "kind", "tear", "value")?;
    let floor = kind_of(floor)?;
    let target = target_of(key, value)?;
    let kind = kind_of(kind)?;
    let tear = u64_of(tear)?;
    Some(Unchecked::Order {
        by,
        target,
        kind,
        floor,
        tear,
    })
}

/// To judge a clog.
fn clog_in(by: u32, value: &Value) -> Option<Unchecked>
    ensures { result ≡ clog_asked by (view value.now) }
{
    let (key, ticks, value) = three(value, "key", "ticks", "value")?;
    let target = target_of(key, value)?;
    let ticks = u64_of(ticks)?;
    Some(Unchecked::Other(Question::Judge {
        by,
        attempt: Attempt::Clog { target, ticks },
    }))
}

/// To judge an act: a kill or a clog.
fn judge_in(value: &Value) -> Option<Unchecked>
    ensures { result ≡ judge_asked (view value.now) }
{
    let (act, by) = two(value, "act", "by")?;
    let by = u32_of(by)?;
    let (name, value) = sole(act)?;
    match name {
        "kill" => order_in(by, value),
        "clog" => clog_in(by, value),
        _ => None,
    }
}

/// Of the state of one process, or of all.
fn state_in(value: &Value) -> Option<Question>
    ensures { result ≡ state_asked (view value.now) }
{
    if is_empty(value) {
        return Some(Question::States);
    }
    let process = process_of(one(value, "process")?)?;
    Some(Question::State { process })
}

/// A question that has no members.
fn plain(value: &Value, question: Question) -> Option<Question>
    ensures { result ≡ plain_in question (view value.now) }
{
    if is_empty(value) {
        Some(question)
    } else {
        None
    }
}

/// A question of numbers or of a target, by its name.
fn named_question_from(name: &str, value: &Value) -> Option<Question>
    ensures { result ≡ plain_asked name.now (view value.now) }
{
    match name {
        "killable" => {
            let by = u32_of(one(value, "actor")?)?;
            Some(Question::Killable { by })
        }
        "state" => state_in(value),
        "targets" => {
            let target = target_in(value)?;
            Some(Question::Targets { target })
        }
        "record" => {
            let rec = u32_of(one(value, "record")?)?;
            Some(Question::Record { rec })
        }
        "needed" => {
            let process = process_of(one(value, "process")?)?;
            Some(Question::Needed { process })
        }
        "cluster" => plain(value, Question::Cluster),
        "sight" => plain(value, Question::Sight),
        "bears" => plain(value, Question::Bears),
        _ => None,
    }
}

/// What a value asks, if anything.
fn question_of(value: &Value) -> Option<Unchecked>
    ensures { result ≡ question_from (view value.now) }
{
    let (name, value) = sole(one(value, "ask")?)?;
    match name {
        "judge" => judge_in(value),
        _ => Some(Unchecked::Other(named_question_from(name, value)?)),
    }
}

/// The question that is asked.
///
/// # Errors
///
/// `Floor` where a kill is judged whose floor is above its kind.
fn checked(asked: Unchecked) -> Result<Question, LineFault>
    ensures { IsCheckedAsk asked result }
{
    match asked {
        Unchecked::Order {
            by,
            target,
            kind,
            floor,
            tear,
        } => match KillOrder::make(target, kind, floor, tear) {
            Ok(order) => Ok(Question::Judge {
                by,
                attempt: Attempt::Kill { order },
            }),
            Err(Floor) => Err(LineFault::Floor),
        },
        Unchecked::Other(question) => Ok(question),
    }
}

/// The JSON value of a line, if it has one.
fn value_of(alloc: Global, line: &[u8]) -> Result<Option<Value>, AllocError>
    ensures found { IfOk result (λ found. IfSome found (λ value. IsJson line.now (view value))) }
    ensures none { IfOk result (λ found. IfNone found ((d : Data) → IsJson line.now d → ⊥)) }
{
    match Value::from_slice(alloc, line) {
        Ok(value) => Ok(Some(value)),
        Err(error) if error.is_memory() => Err(AllocError),
        Err(_) => Ok(None),
    }
}

/// The question of a line, which has no line feed.
///
/// # Errors
///
/// `Line` of `TooLong`, `Syntax` or `Floor`, in order; `NoMemory` in place of any of them but the
/// first, where an allocation fails.
pub fn read_question(alloc: Global, line: &[u8]) -> Result<Question, CommandFault>
    ensures { AskAnswers line.now result }
{
    if line.len() > MOST_LINE_BYTES {
        return Err(CommandFault::Line(LineFault::TooLong));
    }
    let Some(value) = value_of(alloc, line)? else {
        return Err(CommandFault::Line(LineFault::Syntax));
    };
    let Some(asked) = question_of(&value) else {
        return Err(CommandFault::Line(LineFault::Syntax));
    };
    match checked(asked) {
        Ok(question) => Ok(question),
        Err(fault) => Err(CommandFault::Line(fault)),
    }
}
