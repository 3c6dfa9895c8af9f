//! Scans a reply, which is the last member of an entry, with the entry's end. The texts are those
//! that `writing/replies.rt` puts. What a function finds is proved to have this very text, so it
//! may miss a reply and never mistake one; what is missed is read as a JSON value.
ghost use Rattle.std.specs.Prelude.{◌≡◌, ◌++◌, IfSome, codes};
ghost use Rattle.fy_spelling.specs.Fits.{FitsRule, FitsRefusal, FitsReply};
ghost use Rattle.fy_spelling.specs.Pieces.{between_text, rule_text, struck_text, refusal_text, reply_text};

use super::tokens::{is_exactly, kind_after, skip, string_after, u32_after, u64_after};
use crate::{Refusal, Reply};
use fy_kinds::{Kind, Rule, Verdict};
use fy_locality::ProcId;

/// The number of 32 bits behind a text, and what is behind the text that follows it.
#[inline(always)]
fn u32_between<'l>(line: &'l [u8], head: &str, tail: &str) -> Option<(u32, &'l [u8])>
    ensures { IfSome result (λ p. line.now ≡ between_text head.now p.0 tail.now ++ p.1.now) }
{
    let (number, rest) = u32_after(line, head)?;
    let rest = skip(rest, tail)?;
    Some((number, rest))
}

/// The last number of 32 bits, between two texts.
#[inline(always)]
fn last_u32(line: &[u8], head: &str, tail: &str) -> Option<u32>
    ensures { IfSome result (λ number. line.now ≡ between_text head.now number tail.now) }
{
    let (number, rest) = u32_after(line, head)?;
    if is_exactly(rest, tail) {
        Some(number)
    } else {
        None
    }
}

/// The last number of 64 bits, between two texts.
#[inline(always)]
fn last_u64(line: &[u8], head: &str, tail: &str) -> Option<u64>
    ensures { IfSome result (λ number. line.now ≡ between_text head.now number tail.now) }
{
    let (number, rest) = u64_after(line, head)?;
    if is_exactly(rest, tail) {
        Some(number)
    } else {
        None
    }
}

/// A rule that names a process.
fn rule_of_process(line: &[u8]) -> Option<(Rule, &[u8])>
    ensures reads { IfSome result (λ p. line.now ≡ rule_text (Some p.0) ++ p.1.now) }
    ensures fits { IfSome result (λ p. FitsRule (Some p.0)) }
{
    if let Some((number, rest)) = u32_between(line, "[\"NoGrant\",", "]") {
        let process = ProcId(number);
        return Some((Rule::NoGrant { process }, rest));
    }
    let (number, rest) = u32_between(line, "[\"Protected\",", "]")?;
    let process = ProcId(number);
    Some((Rule::Protected { process }, rest))
}

/// A rule that names a policy.
fn rule_of_policy(line: &[u8]) -> Option<(Rule, &[u8])>
    ensures reads { IfSome result (λ p. line.now ≡ rule_text (Some p.0) ++ p.1.now) }
    ensures fits { IfSome result (λ p. FitsRule (Some p.0)) }
{
    if let Some((number, rest)) = u32_between(line, "[\"TooManyDestroyed\",", "]") {
        let policy = number as usize;
        return Some((Rule::TooManyDestroyed { policy }, rest));
    }
    let (number, rest) = u32_between(line, "[\"TooFewLeft\",", "]")?;
    let policy = number as usize;
    Some((Rule::TooFewLeft { policy }, rest))
}

/// A rule, or none.
fn rule(line: &[u8]) -> Option<(Option<Rule>, &[u8])>
    ensures reads { IfSome result (λ p. line.now ≡ rule_text p.0 ++ p.1.now) }
    ensures fits { IfSome result (λ p. FitsRule p.0) }
{
    if let Some(rest) = skip(line, "null") {
        return Some((None, rest));
    }
    if let Some(rest) = skip(line, "[\"NoTarget\"]") {
        return Some((Some(Rule::NoTarget), rest));
    }
    if let Some((rule, rest)) = rule_of_policy(line) {
        return Some((Some(rule), rest));
    }
    let (rule, rest) = rule_of_process(line)?;
    Some((Some(rule), rest))
}

/// The kind that struck, or none.
fn struck(line: &[u8]) -> Option<Option<Kind>>
    ensures { IfSome result (λ struck. line.now ≡ struck_text struck) }
{
    if is_exactly(line, ",\"struck\":null}}}") {
        return Some(None);
    }
    let (kind, rest) = kind_after(line, ",\"struck\":\"")?;
    if is_exactly(rest, "}}}") {
        Some(Some(kind))
    } else {
        None
    }
}

/// The verdict on a kill.
fn verdict(line: &[u8]) -> Option<Reply>
    ensures reads { IfSome result (λ reply. line.now ≡ reply_text reply) }
    ensures fits { IfSome result (λ reply. FitsReply reply) }
{
    let (rule, rest) = rule(skip(line, ",\"reply\":{\"verdict\":{\"rule\":")?)?;
    let struck = struck(rest)?;
    Some(Reply::Verdict(Verdict { struck, rule }))
}

/// The reply to a clog or to an end of clogs: the rule that bars it, or none.
fn ruled(line: &[u8]) -> Option<Reply>
    ensures reads { IfSome result (λ reply. line.now ≡ reply_text reply) }
    ensures fits { IfSome result (λ reply. FitsReply reply) }
{
    let (rule, rest) = rule(skip(line, ",\"reply\":{\"ruled\":")?)?;
    if is_exactly(rest, "}}") {
        Some(Reply::Ruled { rule })
    } else {
        None
    }
}

/// The reply to a Begin.
fn begun(line: &[u8]) -> Option<Reply>
    ensures reads { IfSome result (λ reply. line.now ≡ reply_text reply) }
    ensures fits { IfSome result (λ reply. FitsReply reply) }
{
    let (first, rest) = u64_after(line, ",\"reply\":{\"begun\":{\"first\":")?;
    let rec = last_u32(rest, ",\"record\":", "}}}")?;
    Some(Reply::Begun { rec, first })
}

/// The reply to a Sync.
fn synced(line: &[u8]) -> Option<Reply>
    ensures reads { IfSome result (λ reply. line.now ≡ reply_text reply) }
    ensures fits { IfSome result (λ reply. FitsReply reply) }
{
    let (count, rest) = u32_after(line, ",\"reply\":{\"synced\":{\"count\":")?;
    let first = last_u64(rest, ",\"first\":", "}}}")?;
    Some(Reply::Synced { first, count })
}

/// The reply to a Form.
fn formed(line: &[u8]) -> Option<Reply>
    ensures reads { IfSome result (λ reply. line.now ≡ reply_text reply) }
    ensures fits { IfSome result (λ reply. FitsReply reply) }
{
    let team = last_u32(line, ",\"reply\":{\"formed\":", "}}")?;
    Some(Reply::Formed { team })
}

/// The reply to a Resend or a CopyTo.
fn sent(line: &[u8]) -> Option<Reply>
    ensures reads { IfSome result (λ reply. line.now ≡ reply_text reply) }
    ensures fits { IfSome result (λ reply. FitsReply reply) }
{
    let message = last_u64(line, ",\"reply\":{\"sent\":", "}}")?;
    Some(Reply::Sent { message })
}

/// The reply to a Tick.
fn time(line: &[u8]) -> Option<Reply>
    ensures reads { IfSome result (λ reply. line.now ≡ reply_text reply) }
    ensures fits { IfSome result (λ reply. FitsReply reply) }
{
    let now = last_u64(line, ",\"reply\":{\"time\":", "}}")?;
    Some(Reply::Time { now })
}

/// The reply to the delivery of an acknowledgement.
fn marked(line: &[u8]) -> Option<Reply>
    ensures reads { IfSome result (λ reply. line.now ≡ reply_text reply) }
    ensures fits { IfSome result (λ reply. FitsReply reply) }
{
    if is_exactly(line, ",\"reply\":{\"marked\":true}}") {
        Some(Reply::Marked { acked: true })
    } else if is_exactly(line, ",\"reply\":{\"marked\":false}}") {
        Some(Reply::Marked { acked: false })
    } else {
        None
    }
}

/// A reply that is a string.
fn string_reply(line: &[u8]) -> Option<Reply>
    ensures reads { IfSome result (λ reply. line.now ≡ reply_text reply) }
    ensures fits { IfSome result (λ reply. FitsReply reply) }
{
    if is_exactly(line, ",\"reply\":\"done\"}") {
        Some(Reply::Done)
    } else if is_exactly(line, ",\"reply\":\"stored\"}") {
        Some(Reply::Stored)
    } else {
        None
    }
}

/// A refusal of processes and messages.
fn refusal_of_processes(name: &[u8]) -> Option<Refusal>
    ensures reads { IfSome result (λ refusal.
        refusal_text refusal ≡ codes ",\"reply\":{\"no\":[\"" ++ (name.now ++ codes "\"]}}")) }
    ensures fits { IfSome result (λ refusal. FitsRefusal refusal) }
{
    if is_exactly(name, "Clogged") {
        Some(Refusal::Clogged)
    } else if is_exactly(name, "NotUp") {
        Some(Refusal::NotUp)
    } else if is_exactly(name, "IsUp") {
        Some(Refusal::IsUp)
    } else if is_exactly(name, "Gone") {
        Some(Refusal::Gone)
    } else if is_exactly(name, "NoMessage") {
        Some(Refusal::NoMessage)
    } else if is_exactly(name, "NoProcess") {
        Some(Refusal::NoProcess)
    } else if is_exactly(name, "NetFull") {
        Some(Refusal::NetFull)
    } else {
        None
    }
}

/// A refusal of teams and records.
fn refusal_of_teams(name: &[u8]) -> Option<Refusal>
    ensures reads { IfSome result (λ refusal.
        refusal_text refusal ≡ codes ",\"reply\":{\"no\":[\"" ++ (name.now ++ codes "\"]}}")) }
    ensures fits { IfSome result (λ refusal. FitsRefusal refusal) }
{
    if is_exactly(name, "NoTeam") {
        Some(Refusal::NoTeam)
    } else if is_exactly(name, "NoRecord") {
        Some(Refusal::NoRecord)
    } else if is_exactly(name, "NotMember") {
        Some(Refusal::NotMember)
    } else if is_exactly(name, "Acked") {
        Some(Refusal::Acked)
    } else if is_exactly(name, "Payload") {
        Some(Refusal::Payload)
    } else if is_exactly(name, "TooMany") {
        Some(Refusal::TooMany)
    } else if is_exactly(name, "NoPolicy") {
        Some(Refusal::NoPolicy)
    } else {
        None
    }
}

/// A refusal of actors and the clock.
fn refusal_of_actors(name: &[u8]) -> Option<Refusal>
    ensures reads { IfSome result (λ refusal.
        refusal_text refusal ≡ codes ",\"reply\":{\"no\":[\"" ++ (name.now ++ codes "\"]}}")) }
    ensures fits { IfSome result (λ refusal. FitsRefusal refusal) }
{
    if is_exactly(name, "WrongRole") {
        Some(Refusal::WrongRole)
    } else if is_exactly(name, "Stranger") {
        Some(Refusal::Stranger)
    } else if is_exactly(name, "NoActor") {
        Some(Refusal::NoActor)
    } else if is_exactly(name, "ClockEnd") {
        Some(Refusal::ClockEnd)
    } else if is_exactly(name, "Full") {
        Some(Refusal::Full)
    } else if is_exactly(name, "NoSuch") {
        Some(Refusal::NoSuch)
    } else {
        None
    }
}

/// A refusal of copies, replacements and healing.
fn refusal_of_healing(name: &[u8]) -> Option<Refusal>
    ensures reads { IfSome result (λ refusal.
        refusal_text refusal ≡ codes ",\"reply\":{\"no\":[\"" ++ (name.now ++ codes "\"]}}")) }
    ensures fits { IfSome result (λ refusal. FitsRefusal refusal) }
{
    if is_exactly(name, "NoCopy") {
        Some(Refusal::NoCopy)
    } else if is_exactly(name, "IsMember") {
        Some(Refusal::IsMember)
    } else if is_exactly(name, "NotDestroyed") {
        Some(Refusal::NotDestroyed)
    } else {
        None
    }
}

/// A refusal without a number, by its name. No two groups share a name.
fn refusal_by_name(name: &[u8]) -> Option<Refusal>
    ensures reads { IfSome result (λ refusal.
        refusal_text refusal ≡ codes ",\"reply\":{\"no\":[\"" ++ (name.now ++ codes "\"]}}")) }
    ensures fits { IfSome result (λ refusal. FitsRefusal refusal) }
{
    if let Some(refusal) = refusal_of_processes(name) {
        return Some(refusal);
    }
    if let Some(refusal) = refusal_of_teams(name) {
        return Some(refusal);
    }
    if let Some(refusal) = refusal_of_actors(name) {
        return Some(refusal);
    }
    refusal_of_healing(name)
}

/// A refusal that has a number.
fn refusal_of_number(line: &[u8]) -> Option<Refusal>
    ensures reads { IfSome result (λ refusal. line.now ≡ refusal_text refusal) }
    ensures fits { IfSome result (λ refusal. FitsRefusal refusal) }
{
    if let Some(policy) = last_u32(line, ",\"reply\":{\"no\":[\"TeamShort\",", "]}}") {
        return Some(Refusal::TeamShort { policy });
    }
    let rec = last_u32(line, ",\"reply\":{\"no\":[\"StillNeeds\",", "]}}")?;
    Some(Refusal::StillNeeds { rec })
}

/// Any refusal.
fn refusal(line: &[u8]) -> Option<Refusal>
    ensures reads { IfSome result (λ refusal. line.now ≡ refusal_text refusal) }
    ensures fits { IfSome result (λ refusal. FitsRefusal refusal) }
{
    let (name, rest) = string_after(line, ",\"reply\":{\"no\":[\"")?;
    if is_exactly(rest, "]}}") {
        refusal_by_name(name)
    } else {
        refusal_of_number(line)
    }
}

/// The reply that refuses an act.
fn no(line: &[u8]) -> Option<Reply>
    ensures reads { IfSome result (λ reply. line.now ≡ reply_text reply) }
    ensures fits { IfSome result (λ reply. FitsReply reply) }
{
    let refusal = refusal(line)?;
    Some(Reply::No(refusal))
}

/// The two replies whose names begin with an s, told apart by the letter behind it.
fn sent_or_synced(line: &[u8]) -> Option<Reply>
    ensures reads { IfSome result (λ reply. line.now ≡ reply_text reply) }
    ensures fits { IfSome result (λ reply. FitsReply reply) }
{
    if *line.get(NAME + 1)? == b'e' {
        sent(line)
    } else {
        synced(line)
    }
}

/// Where a reply's value begins, behind `,"reply":`, and where the name in it does, behind `{"`.
const VALUE: usize = 9;

const NAME: usize = 11;

/// A reply, with what stands before it in an entry and the entry's end, told by the first letter of
/// its name, as acts are.
pub(super) fn reply(line: &[u8]) -> Option<Reply>
    ensures reads { IfSome result (λ reply. line.now ≡ reply_text reply) }
    ensures fits { IfSome result (λ reply. FitsReply reply) }
{
    if *line.get(VALUE)? != b'{' {
        return string_reply(line);
    }
    match *line.get(NAME)? {
        b'v' => verdict(line),
        b'n' => no(line),
        b'm' => marked(line),
        b'r' => ruled(line),
        b'b' => begun(line),
        b't' => time(line),
        b'f' => formed(line),
        b's' => sent_or_synced(line),
        _ => None,
    }
}
