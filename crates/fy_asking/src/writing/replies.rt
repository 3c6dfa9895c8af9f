//! Writes a reply as it stands in an entry.
ghost use Rattle.std.specs.Prelude.{◌≡◌, ◌++◌, OnOk, codes};
ghost use Rattle.fy_spelling.specs.Pieces.{refusal_word, rule_text};
ghost use Rattle.fy_asking.specs.ToldTexts.{refusal_end, refusal_text, reply_text, struck_text, verdict_text};

use super::{put, put_between, put_number, put_truth, put_word};
use fy_acts::{Refusal, Reply};
use fy_kinds::{Kind, Rule, Verdict};
use std::alloc::AllocError;

/// Writes a rule as a list, or `null` for none.
fn put_rule(out: &mut Vec<u8>, rule: Option<Rule>) -> Result<(), AllocError>
    ensures { OnOk result (out.new.items ≡ out.old.items ++ rule_text rule) }
{
    match rule {
        None => put(out, "null"),
        Some(Rule::NoTarget) => put(out, "[\"NoTarget\"]"),
        Some(Rule::NoGrant { process }) => put_between(out, "[\"NoGrant\",", process.0 as u64, "]"),
        Some(Rule::Protected { process }) => {
            put_between(out, "[\"Protected\",", process.0 as u64, "]")
        }
        Some(Rule::TooManyDestroyed { policy }) => {
            put_between(out, "[\"TooManyDestroyed\",", policy as u64, "]")
        }
        Some(Rule::TooFewLeft { policy }) => {
            put_between(out, "[\"TooFewLeft\",", policy as u64, "]")
        }
    }
}

/// Writes the kind that struck, or `null` for none.
fn put_struck(out: &mut Vec<u8>, struck: Option<Kind>) -> Result<(), AllocError>
    ensures { OnOk result (out.new.items ≡ out.old.items ++ struck_text struck) }
{
    match struck {
        None => put(out, ",\"struck\":null}}"),
        Some(kind) => {
            put_word(out, ",\"struck\":\"", kind.text())?;
            put(out, "\"}}")
        }
    }
}

/// Writes the reply to a kill.
fn put_verdict(out: &mut Vec<u8>, verdict: &Verdict) -> Result<(), AllocError>
    ensures { OnOk result (out.new.items ≡ out.old.items ++ verdict_text verdict.now) }
{
    put(out, "{\"verdict\":{\"rule\":")?;
    put_rule(out, verdict.rule)?;
    put_struck(out, verdict.struck)
}

/// Writes the reply to a clog or to an end of clogs: the rule that bars it, or none.
fn put_ruled(out: &mut Vec<u8>, rule: Option<Rule>) -> Result<(), AllocError>
    ensures { OnOk result (out.new.items ≡ out.old.items ++ (codes "{\"ruled\":" ++ (rule_text rule ++ codes "}"))) }
{
    put(out, "{\"ruled\":")?;
    put_rule(out, rule)?;
    put(out, "}")
}

/// The word that a refusal is told by.
fn refusal_word(refusal: Refusal) -> &'static str
    ensures { result.now ≡ refusal_word refusal }
{
    match refusal {
        Refusal::Stranger => "Stranger",
        Refusal::WrongRole => "WrongRole",
        Refusal::TooMany => "TooMany",
        Refusal::NoPolicy => "NoPolicy",
        Refusal::NoProcess => "NoProcess",
        Refusal::Gone => "Gone",
        Refusal::TeamShort { .. } => "TeamShort",
        Refusal::NoTeam => "NoTeam",
        Refusal::Payload => "Payload",
        Refusal::NetFull => "NetFull",
        Refusal::NoMessage => "NoMessage",
        Refusal::Clogged => "Clogged",
        Refusal::NotUp => "NotUp",
        Refusal::NoRecord => "NoRecord",
        Refusal::NotMember => "NotMember",
        Refusal::Acked => "Acked",
        Refusal::IsUp => "IsUp",
        Refusal::ClockEnd => "ClockEnd",
        Refusal::NoActor => "NoActor",
        Refusal::Full => "Full",
        Refusal::NoSuch => "NoSuch",
        Refusal::NoCopy => "NoCopy",
        Refusal::IsMember => "IsMember",
        Refusal::NotDestroyed => "NotDestroyed",
        Refusal::StillNeeds { .. } => "StillNeeds",
    }
}

/// Writes a refusal.
pub(crate) fn put_refusal(out: &mut Vec<u8>, refusal: Refusal) -> Result<(), AllocError>
    ensures { OnOk result (out.new.items ≡ out.old.items ++ refusal_text refusal) }
{
    put_word(out, "{\"no\":[\"", refusal_word(refusal))?;
    put_refusal_end(out, refusal)
}

/// Writes what stands behind the word of a refusal.
fn put_refusal_end(out: &mut Vec<u8>, refusal: Refusal) -> Result<(), AllocError>
    ensures { OnOk result (out.new.items ≡ out.old.items ++ refusal_end refusal) }
{
    match refusal {
        Refusal::TeamShort { policy } => put_between(out, "\",", policy as u64, "]}"),
        Refusal::StillNeeds { rec } => put_between(out, "\",", rec as u64, "]}"),
        _ => put(out, "\"]}"),
    }
}

/// Writes a reply.
pub(crate) fn put_reply(out: &mut Vec<u8>, reply: &Reply) -> Result<(), AllocError>
    ensures { OnOk result (out.new.items ≡ out.old.items ++ reply_text reply.now) }
{
    match reply {
        Reply::Verdict(verdict) => put_verdict(out, verdict),
        Reply::Ruled { rule } => put_ruled(out, *rule),
        Reply::Formed { team } => put_between(out, "{\"formed\":", *team as u64, "}"),
        Reply::Begun { rec, first } => {
            put_number(out, "{\"begun\":{\"first\":", *first)?;
            put_between(out, ",\"record\":", *rec as u64, "}}")
        }
        Reply::Stored => put(out, "\"stored\""),
        Reply::Marked { acked } => {
            put_truth(out, "{\"marked\":", *acked)?;
            put(out, "}")
        }
        Reply::Sent { message } => put_between(out, "{\"sent\":", *message, "}"),
        Reply::Synced { first, count } => {
            put_number(out, "{\"synced\":{\"count\":", *count as u64)?;
            put_between(out, ",\"first\":", *first, "}}")
        }
        Reply::Time { now } => put_between(out, "{\"time\":", *now, "}"),
        Reply::Done => put(out, "\"done\""),
        Reply::No(refusal) => put_refusal(out, *refusal),
    }
}
