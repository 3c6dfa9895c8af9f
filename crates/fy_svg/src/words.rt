//! Orders, rules and numbers in words.
use crate::pieces::push_text_and_number;
use fy_acts::{Act, Entry, Refusal, Reply};
use fy_kinds::{Kind, Rule, Target};
use fy_picture::rule_of;
use std::alloc::AllocError;

/// Numbers, with a comma between two.
pub(crate) fn write_list(text: &mut String, numbers: &[u64]) -> Result<(), AllocError> {
    for (place, number) in numbers.iter().enumerate() {
        if place > 0 {
            text.push_str(", ")?;
        }
        write!(text, "{number}")?;
    }
    Ok(())
}

/// The rule that stands against an order, as a clause behind `since`.
fn write_rule(text: &mut String, rule: Rule) -> Result<(), AllocError> {
    match rule {
        Rule::NoTarget => write!(text, "nobody who is left has that value"),
        Rule::NoGrant { process } => {
            let p = process.0;
            write!(text, "no grant covers process {p}")
        }
        Rule::Protected { process } => {
            let p = process.0;
            write!(text, "process {p} is protected")
        }
        Rule::TooManyDestroyed { policy } => {
            write!(text, "the destroyed would satisfy policy {policy}")
        }
        Rule::TooFewLeft { policy } => {
            write!(text, "those left would be short of policy {policy}")
        }
    }
}

/// A target, by its key and value.
fn write_target(text: &mut String, target: Target) -> Result<(), AllocError> {
    text.push_str(target.key.text())?;
    text.push_str(" ")?;
    text.push_str(target.value.as_str())
}

/// The kind by which a kill struck.
fn write_struck(text: &mut String, struck: Option<Kind>) -> Result<(), AllocError> {
    match struck {
        Some(kind) => {
            text.push_str(": struck by ")?;
            text.push_str(kind.text())
        }
        None => text.push_str(": struck nobody"),
    }
}

/// That an order was refused. In a legal journal only a stranger's order is.
fn write_refused(text: &mut String, reply: Reply) -> Result<(), AllocError> {
    match reply {
        Reply::No(Refusal::Stranger) => {
            text.push_str(": refused as Stranger, since there is no such actor")
        }
        _ => text.push_str(": refused"),
    }
}

/// Whether a clog, or the end of one, was done.
fn write_ruled(text: &mut String, reply: Reply) -> Result<(), AllocError> {
    match reply {
        Reply::Ruled { rule: Some(_) } => text.push_str(": barred"),
        Reply::Ruled { rule: None } => text.push_str(": done"),
        _ => write_refused(text, reply),
    }
}

/// What was ordered, and what struck. Nothing is written of another act.
fn write_deed(text: &mut String, entry: &Entry) -> Result<(), AllocError> {
    match entry.act {
        Act::Kill { order } => {
            text.push_str(order.kind().text())?;
            text.push_str(" of ")?;
            write_target(text, order.target())?;
            match entry.reply {
                Reply::Verdict(verdict) => write_struck(text, verdict.struck),
                reply => write_refused(text, reply),
            }
        }
        Act::Clog { target, ticks } => {
            write!(text, "clog for {ticks} ticks of ")?;
            write_target(text, target)?;
            write_ruled(text, entry.reply)
        }
        Act::Unclog { target } => {
            text.push_str("end of the clogs of ")?;
            write_target(text, target)?;
            write_ruled(text, entry.reply)
        }
        _ => Ok(()),
    }
}

/// An order: what struck, and why nothing harder did.
pub(crate) fn write_order(text: &mut String, entry: &Entry) -> Result<(), AllocError> {
    push_text_and_number(text, "entry ", u64::from(entry.at))?;
    push_text_and_number(text, ", actor ", u64::from(entry.by))?;
    text.push_str(": ")?;
    write_deed(text, entry)?;
    match rule_of(entry) {
        Some(rule) => {
            text.push_str(", since ")?;
            write_rule(text, rule)
        }
        None => Ok(()),
    }
}

/// The floor of a kill where a rule stood against the ordered kind at a process: milder kinds were
/// tried down to it. Nothing is written of another entry.
pub(crate) fn write_floor(text: &mut String, entry: &Entry) -> Result<(), AllocError> {
    let Act::Kill { order } = entry.act else {
        return Ok(());
    };
    match rule_of(entry) {
        None | Some(Rule::NoTarget) => Ok(()),
        Some(_) => {
            let floor = order.floor().text();
            write!(text, "; the floor is {floor}")
        }
    }
}
