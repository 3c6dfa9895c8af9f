//! Replies from JSON values. Each function is proved to answer what a definition of
//! `specs/Replied.antt` says, so the order of the arms is free and the words are not.
//!
//! Refusals are matched in a chain, a group of words after another. A function of the chain goes on
//! with the next group, so it answers more than its name says: `refusal_by` goes on with
//! `refusal_up_to_actors`, that with `refusal_up_to_teams`, and that with `refusal_of_processes`.
ghost use Rattle.std.specs.Prelude.{◌≡◌, option_map};
ghost use Rattle.serde_json.specs.View.{view};
ghost use Rattle.fy_spelling.specs.Replied.{first_word, second_number, second_process, rule_by, rule_from, refusal_of_processes, refusal_of_teams, refusal_of_actors, refusal_by, refusal_from, verdict_from, begun_from, synced_from, numbers_by, reply_by, reply_from};

use crate::parts::{kind_of, process_of, sole, two, u32_of, u64_of};
use crate::{Refusal, Reply};
use fy_kinds::{Rule, Verdict};
use fy_locality::ProcId;
use serde_json::Value;

/// The word that a list begins with.
fn first_word(value: &Value) -> Option<&str>
    ensures { option_map (λ word. word.now) result ≡ first_word (view value.now) }
{
    value.get(0usize)?.as_str()
}

/// The number that is the second item of a list.
fn second_number(value: &Value) -> Option<u32>
    ensures { result ≡ second_number (view value.now) }
{
    u32_of(value.get(1usize)?)
}

/// The process whose number is the second item of a list.
fn second_process(value: &Value) -> Option<ProcId>
    ensures { result ≡ second_process (view value.now) }
{
    process_of(value.get(1usize)?)
}

/// A rule by its word.
fn rule_by(word: &str, value: &Value) -> Option<Rule>
    ensures { result ≡ rule_by word.now (view value.now) }
{
    match word {
        "NoTarget" => Some(Rule::NoTarget),
        "NoGrant" => {
            let process = second_process(value)?;
            Some(Rule::NoGrant { process })
        }
        "Protected" => {
            let process = second_process(value)?;
            Some(Rule::Protected { process })
        }
        "TooManyDestroyed" => {
            let policy = second_number(value)?;
            Some(Rule::TooManyDestroyed {
                policy: policy as usize,
            })
        }
        "TooFewLeft" => {
            let policy = second_number(value)?;
            Some(Rule::TooFewLeft {
                policy: policy as usize,
            })
        }
        _ => None,
    }
}

/// The rule of a list; nothing but a list has one.
fn rule_of(value: &Value) -> Option<Rule>
    ensures { result ≡ rule_from (view value.now) }
{
    rule_by(first_word(value)?, value)
}

/// A refusal that speaks of processes and their messages: the end of the chain.
fn refusal_of_processes(word: &str) -> Option<Refusal>
    ensures { result ≡ refusal_of_processes word.now }
{
    match word {
        "NoProcess" => Some(Refusal::NoProcess),
        "Gone" => Some(Refusal::Gone),
        "NetFull" => Some(Refusal::NetFull),
        "NoMessage" => Some(Refusal::NoMessage),
        "Clogged" => Some(Refusal::Clogged),
        "NotUp" => Some(Refusal::NotUp),
        "IsUp" => Some(Refusal::IsUp),
        _ => None,
    }
}

/// A refusal that speaks of teams and records.
fn refusal_of_teams(word: &str) -> Option<Refusal>
    ensures { result ≡ refusal_of_teams word.now }
{
    match word {
        "TooMany" => Some(Refusal::TooMany),
        "NoPolicy" => Some(Refusal::NoPolicy),
        "NoTeam" => Some(Refusal::NoTeam),
        "Payload" => Some(Refusal::Payload),
        "NoRecord" => Some(Refusal::NoRecord),
        "NotMember" => Some(Refusal::NotMember),
        "Acked" => Some(Refusal::Acked),
        _ => None,
    }
}

/// A refusal that speaks of actors and the clock.
fn refusal_of_actors(word: &str) -> Option<Refusal>
    ensures { result ≡ refusal_of_actors word.now }
{
    match word {
        "Stranger" => Some(Refusal::Stranger),
        "WrongRole" => Some(Refusal::WrongRole),
        "ClockEnd" => Some(Refusal::ClockEnd),
        "NoActor" => Some(Refusal::NoActor),
        "Full" => Some(Refusal::Full),
        "NoSuch" => Some(Refusal::NoSuch),
        _ => None,
    }
}

/// Any refusal by its word.
fn refusal_by(word: &str, value: &Value) -> Option<Refusal>
    ensures { result ≡ refusal_by word.now (view value.now) }
{
    match word {
        "TeamShort" => {
            let policy = second_number(value)?;
            Some(Refusal::TeamShort { policy })
        }
        "StillNeeds" => {
            let rec = second_number(value)?;
            Some(Refusal::StillNeeds { rec })
        }
        "NoCopy" => Some(Refusal::NoCopy),
        "IsMember" => Some(Refusal::IsMember),
        "NotDestroyed" => Some(Refusal::NotDestroyed),
        _ => refusal_of_actors(word)
            .or(refusal_of_teams(word))
            .or(refusal_of_processes(word)),
    }
}

/// The refusal of a list.
fn refusal_of(value: &Value) -> Option<Refusal>
    ensures { result ≡ refusal_from (view value.now) }
{
    refusal_by(first_word(value)?, value)
}

/// The verdict on an order to kill.
fn verdict_of(value: &Value) -> Option<Verdict>
    ensures { result ≡ verdict_from (view value.now) }
{
    let (rule, struck) = two(value, "rule", "struck")?;
    let rule = rule_of(rule);
    let struck = kind_of(struck);
    Some(Verdict { struck, rule })
}

/// A record that was begun.
fn begun_of(value: &Value) -> Option<Reply>
    ensures { result ≡ begun_from (view value.now) }
{
    let (first, rec) = two(value, "first", "record")?;
    let first = u64_of(first)?;
    let rec = u32_of(rec)?;
    Some(Reply::Begun { rec, first })
}

/// Writes that were synced.
fn synced_of(value: &Value) -> Option<Reply>
    ensures { result ≡ synced_from (view value.now) }
{
    let (count, first) = two(value, "count", "first")?;
    let count = u32_of(count)?;
    let first = u64_of(first)?;
    Some(Reply::Synced { first, count })
}

/// A reply of numbers, by its name.
fn numbers_by(name: &str, value: &Value) -> Option<Reply>
    ensures { result ≡ numbers_by name.now (view value.now) }
{
    match name {
        "formed" => {
            let team = u32_of(value)?;
            Some(Reply::Formed { team })
        }
        "begun" => begun_of(value),
        "sent" => {
            let message = u64_of(value)?;
            Some(Reply::Sent { message })
        }
        "synced" => synced_of(value),
        "time" => {
            let now = u64_of(value)?;
            Some(Reply::Time { now })
        }
        _ => None,
    }
}

/// Any reply of an object, by its name.
fn reply_by(name: &str, value: &Value) -> Option<Reply>
    ensures { result ≡ reply_by name.now (view value.now) }
{
    match name {
        "verdict" => {
            let verdict = verdict_of(value)?;
            Some(Reply::Verdict(verdict))
        }
        "ruled" => {
            let rule = rule_of(value);
            Some(Reply::Ruled { rule })
        }
        "marked" => {
            let acked = value.as_bool()?;
            Some(Reply::Marked { acked })
        }
        "no" => {
            let refusal = refusal_of(value)?;
            Some(Reply::No(refusal))
        }
        _ => numbers_by(name, value),
    }
}

/// A reply that is a word, or an object with one member.
pub(super) fn reply_of(value: &Value) -> Option<Reply>
    ensures { result ≡ reply_from (view value.now) }
{
    match value.as_str() {
        Some("stored") => Some(Reply::Stored),
        Some("done") => Some(Reply::Done),
        Some(_) => None,
        None => {
            let (name, value) = sole(value)?;
            reply_by(name, value)
        }
    }
}
