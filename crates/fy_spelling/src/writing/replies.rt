//! Writes the text of a reply, which is the last member of an entry, with the entry's end. The
//! texts are promised byte for byte (docs/FORMATS.md); how they are cut into pieces is free.
ghost use Rattle.std.specs.Prelude.{◌≡◌, ◌++◌, codes};
ghost use Rattle.fy_spelling.specs.AppendsOrOom.{AppendsOrOom};
ghost use Rattle.fy_spelling.specs.Pieces.{rule_text, struck_text, verdict_text, ruled_text, begun_text, synced_text, refusal_word, refusal_end, refusal_text, marked_text, reply_text};

use super::{put, put_between, put_number, put_one, put_word};
use crate::{Refusal, Reply};
use fy_kinds::{Kind, Rule, Verdict};
use std::alloc::AllocError;

/// Writes a rule as a list, or `null` for none.
fn put_rule(out: &mut Vec<u8>, rule: Option<Rule>) -> Result<(), AllocError>
    ensures { AppendsOrOom result out.old out.new (rule_text rule) }
{
    match rule {
        None => put(out, "null"),
        Some(Rule::NoTarget) => put(out, "[\"NoTarget\"]"),
        Some(Rule::NoGrant { process }) => put_between(out, "[\"NoGrant\",", process.0 as u64, "]"),
        Some(Rule::Protected { process }) => {
            put_between(out, "[\"Protected\",", process.0 as u64, "]")
        }
        Some(Rule::TooManyDestroyed { policy }) => {
            put_between(out, "[\"TooManyDestroyed\",", policy as u64, "]")
        }
        Some(Rule::TooFewLeft { policy }) => {
            put_between(out, "[\"TooFewLeft\",", policy as u64, "]")
        }
    }
}

/// Writes the kind that struck, or `null` for none, with the entry's end.
fn put_struck(out: &mut Vec<u8>, struck: Option<Kind>) -> Result<(), AllocError>
    ensures { AppendsOrOom result out.old out.new (struck_text struck) }
{
    match struck {
        None => put(out, ",\"struck\":null}}}"),
        Some(kind) => put_kind(out, kind.text()),
    }
}

/// Writes the word of the kind that struck, with the entry's end.
fn put_kind(out: &mut Vec<u8>, kind: &str) -> Result<(), AllocError>
    ensures { AppendsOrOom result out.old out.new
        (codes ",\"struck\":\"" ++ (kind.now ++ codes "\"}}}")) }
{
    put_word(out, ",\"struck\":\"", kind)?;
    put(out, "\"}}}")
}

/// Writes the reply to a kill.
fn put_verdict(out: &mut Vec<u8>, verdict: &Verdict) -> Result<(), AllocError>
    ensures { AppendsOrOom result out.old out.new (verdict_text verdict.now) }
{
    put(out, ",\"reply\":{\"verdict\":{\"rule\":")?;
    put_rule(out, verdict.rule)?;
    put_struck(out, verdict.struck)
}

/// Writes the reply to a clog or to an end of clogs: the rule that bars it, or none.
fn put_ruled(out: &mut Vec<u8>, rule: Option<Rule>) -> Result<(), AllocError>
    ensures { AppendsOrOom result out.old out.new (ruled_text rule) }
{
    put(out, ",\"reply\":{\"ruled\":")?;
    put_rule(out, rule)?;
    put(out, "}}")
}

/// Writes the reply to a Begin.
fn put_begun(out: &mut Vec<u8>, rec: u32, first: u64) -> Result<(), AllocError>
    ensures { AppendsOrOom result out.old out.new (begun_text rec first) }
{
    put_number(out, ",\"reply\":{\"begun\":{\"first\":", first)?;
    put_between(out, ",\"record\":", rec as u64, "}}}")
}

/// Writes the reply to a Sync.
fn put_synced(out: &mut Vec<u8>, first: u64, count: u32) -> Result<(), AllocError>
    ensures { AppendsOrOom result out.old out.new (synced_text first count) }
{
    put_number(out, ",\"reply\":{\"synced\":{\"count\":", count as u64)?;
    put_between(out, ",\"first\":", first, "}}}")
}

/// Writes the reply to the delivery of an acknowledgement.
fn put_marked(out: &mut Vec<u8>, acked: bool) -> Result<(), AllocError>
    ensures { AppendsOrOom result out.old out.new (marked_text acked) }
{
    if acked {
        put(out, ",\"reply\":{\"marked\":true}}")
    } else {
        put(out, ",\"reply\":{\"marked\":false}}")
    }
}

/// The word that a refusal is told by.
fn refusal_word(refusal: Refusal) -> &'static str
    ensures { result.now ≡ refusal_word refusal }
{
    match refusal {
        Refusal::Stranger => "Stranger",
        Refusal::WrongRole => "WrongRole",
        Refusal::TooMany => "TooMany",
        Refusal::NoPolicy => "NoPolicy",
        Refusal::NoProcess => "NoProcess",
        Refusal::Gone => "Gone",
        Refusal::TeamShort { .. } => "TeamShort",
        Refusal::NoTeam => "NoTeam",
        Refusal::Payload => "Payload",
        Refusal::NetFull => "NetFull",
        Refusal::NoMessage => "NoMessage",
        Refusal::Clogged => "Clogged",
        Refusal::NotUp => "NotUp",
        Refusal::NoRecord => "NoRecord",
        Refusal::NotMember => "NotMember",
        Refusal::Acked => "Acked",
        Refusal::IsUp => "IsUp",
        Refusal::ClockEnd => "ClockEnd",
        Refusal::NoActor => "NoActor",
        Refusal::Full => "Full",
        Refusal::NoSuch => "NoSuch",
        Refusal::NoCopy => "NoCopy",
        Refusal::IsMember => "IsMember",
        Refusal::NotDestroyed => "NotDestroyed",
        Refusal::StillNeeds { .. } => "StillNeeds",
    }
}

/// What stands behind the word of a refusal: its number, if it has one, and the entry's end.
#[inline(always)]
fn put_refusal_end(out: &mut Vec<u8>, refusal: Refusal) -> Result<(), AllocError>
    ensures { AppendsOrOom result out.old out.new (refusal_end refusal) }
{
    match refusal {
        Refusal::TeamShort { policy } => put_between(out, "\",", policy as u64, "]}}"),
        Refusal::StillNeeds { rec } => put_between(out, "\",", rec as u64, "]}}"),
        _ => put(out, "\"]}}"),
    }
}

/// Writes the reply that refuses an act.
fn put_refusal(out: &mut Vec<u8>, refusal: Refusal) -> Result<(), AllocError>
    ensures { AppendsOrOom result out.old out.new (refusal_text refusal) }
{
    put_word(out, ",\"reply\":{\"no\":[\"", refusal_word(refusal))?;
    put_refusal_end(out, refusal)
}

/// Writes a reply with what stands before it in an entry, and the entry's end.
pub(super) fn put_reply(out: &mut Vec<u8>, reply: &Reply) -> Result<(), AllocError>
    ensures { AppendsOrOom result out.old out.new (reply_text reply.now) }
{
    match reply {
        Reply::Verdict(verdict) => put_verdict(out, verdict),
        Reply::Ruled { rule } => put_ruled(out, *rule),
        Reply::Formed { team } => put_one(out, ",\"reply\":{\"formed\":", *team as u64),
        Reply::Begun { rec, first } => put_begun(out, *rec, *first),
        Reply::Stored => put(out, ",\"reply\":\"stored\"}"),
        Reply::Marked { acked } => put_marked(out, *acked),
        Reply::Sent { message } => put_one(out, ",\"reply\":{\"sent\":", *message),
        Reply::Synced { first, count } => put_synced(out, *first, *count),
        Reply::Time { now } => put_one(out, ",\"reply\":{\"time\":", *now),
        Reply::Done => put(out, ",\"reply\":\"done\"}"),
        Reply::No(refusal) => put_refusal(out, *refusal),
    }
}
