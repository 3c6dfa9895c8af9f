//! Writes the text of an act: promised byte for byte, cut into pieces at will.
ghost use Rattle.std.specs.Prelude.{◌≡◌, ◌++◌, OnOk, codes, true, false};
ghost use Rattle.serde_json.specs.Written.{comma_if};
ghost use Rattle.std.specs.List.{AllByRecursion};
ghost use Rattle.hex.specs.Hex.{encode_lower};
ghost use Rattle.fy_locality.specs.Name.{is_name};
ghost use Rattle.fy_acts.specs.declared.act.Act.TheVariants.{Resend, Take, CopyTo, Replace};
ghost use Rattle.fy_spelling.specs.Fits.{IsByte, FitsTarget, FitsScope};
ghost use Rattle.fy_spelling.specs.Values.{in_order};
ghost use Rattle.fy_spelling.specs.AppendsOrOom.{AppendsOrOom};
ghost use Rattle.fy_spelling.specs.Pieces.{two_text, valued_text, target_text, keys_text, kill_head_text, order_text, clog_text, processes_text, deeds_text, form_text, begin_text, scope_text, give_text, protection_text, act_text, NeedsNoEscape};

use super::{put, put_decimal, put_number, put_one, put_word};
use crate::Act;
use fy_disk::Payload;
use fy_grants::{Grant, Scope};
use fy_kinds::{KillOrder, KindSet, MILDEST_FIRST, Target};
use fy_locality::{Name, ProcId};
use std::alloc::AllocError;

/// An object with two numbers.
#[inline(always)]
fn put_two(out: &mut Vec<u8>, a: &str, m: u64, b: &str, n: u64) -> Result<(), AllocError>
    ensures { AppendsOrOom result out.old out.new (two_text a.now m b.now n) }
{
    put_number(out, a, m)?;
    put_one(out, b, n)
}

/// A name between two texts.
#[inline(always)]
fn put_name(out: &mut Vec<u8>, head: &str, name: &Name, tail: &str) -> Result<(), AllocError>
    ensures text { AppendsOrOom result out.old out.new (head.now ++ (name.now ++ tail.now)) }
    ensures name { OnOk result (is_name name.now ≡ true) }
{
    put(out, head)?;
    out.extend_from_slice(name.as_bytes())?;
    put(out, tail)
}

/// A number, and then a name under `value`.
#[inline(always)]
fn put_valued(out: &mut Vec<u8>, head: &str, n: u64, value: &Name) -> Result<(), AllocError>
    ensures text { AppendsOrOom result out.old out.new (valued_text head.now n value.now) }
    ensures name { OnOk result (is_name value.now ≡ true) }
{
    put_number(out, head, n)?;
    put_name(out, ",\"value\":\"", value, "\"}}")
}

/// A key, and then a name under `value`.
#[inline(always)]
fn put_target(out: &mut Vec<u8>, head: &str, target: &Target, tail: &str) -> Result<(), AllocError>
    ensures text { AppendsOrOom result out.old out.new (target_text head.now target.now tail.now) }
    ensures name { OnOk result (FitsTarget target.now) }
{
    put_word(out, head, target.key.text())?;
    put_name(out, "\",\"value\":\"", &target.value, tail)
}

/// Writes a target's key and the order's kind, within a kill.
fn put_keys(out: &mut Vec<u8>, key: &str, kind: &str) -> Result<(), AllocError>
    ensures { AppendsOrOom result out.old out.new (keys_text key.now kind.now) }
{
    put_word(out, "\",\"key\":\"", key)?;
    put_word(out, "\",\"kind\":\"", kind)
}

/// Writes a kill's floor, and then its target's key and its kind.
fn put_kill_head(out: &mut Vec<u8>, floor: &str, key: &str, kind: &str) -> Result<(), AllocError>
    ensures { AppendsOrOom result out.old out.new (kill_head_text floor.now key.now kind.now) }
{
    put_word(out, "{\"kill\":{\"floor\":\"", floor)?;
    put_keys(out, key, kind)
}

/// Writes a Kill.
fn put_kill(out: &mut Vec<u8>, order: &KillOrder) -> Result<(), AllocError>
    ensures text { AppendsOrOom result out.old out.new (order_text order.now) }
    ensures name { OnOk result (FitsTarget order.now.target) }
{
    let target = order.target();
    put_kill_head(
        out,
        order.floor().text(),
        target.key.text(),
        order.kind().text(),
    )?;
    put_valued(out, "\",\"tear\":", order.tear(), &target.value)
}

/// Writes a Clog.
fn put_clog(out: &mut Vec<u8>, target: &Target, ticks: u64) -> Result<(), AllocError>
    ensures text { AppendsOrOom result out.old out.new (clog_text target.now ticks) }
    ensures name { OnOk result (FitsTarget target.now) }
{
    put_word(out, "{\"clog\":{\"key\":\"", target.key.text())?;
    put_valued(out, "\",\"ticks\":", ticks, &target.value)
}

/// Writes the numbers of processes, with commas between.
fn put_processes(out: &mut Vec<u8>, processes: &[ProcId]) -> Result<(), AllocError>
    ensures { AppendsOrOom result out.old out.new (processes_text false processes.now) }
{
    let mut later = false;
    for p in processes {
        if later {
            put(out, ",")?;
        }
        put_decimal(out, p.0 as u64)?;
        later = true;
    }
    Ok(())
}

/// Writes a Form.
fn put_form(out: &mut Vec<u8>, members: &[ProcId], policy: u32) -> Result<(), AllocError>
    ensures { AppendsOrOom result out.old out.new (form_text members.now policy) }
{
    put(out, "{\"form\":{\"members\":[")?;
    put_processes(out, members)?;
    put_one(out, "],\"policy\":", policy as u64)
}

/// The sixteen digits.
const DIGITS: &[u8; 16] = b"0123456789abcdef";

/// Two digits for each byte.
#[tactic(auto, unfolding(hex::specs::Hex::encode_with))]
fn put_bytes(out: &mut Vec<u8>, bytes: &[u8]) -> Result<(), AllocError>
    ensures text { AppendsOrOom result out.old out.new (encode_lower bytes.now) }
    ensures bytes { OnOk result (AllByRecursion IsByte bytes.now) }
{
    for &byte in bytes {
        let high = DIGITS[(byte / 16) as usize];
        let low = DIGITS[(byte % 16) as usize];
        out.extend_from_slice(&[high, low])?;
    }
    Ok(())
}

/// Writes a Begin.
fn put_begin(out: &mut Vec<u8>, team: u32, payload: &Payload) -> Result<(), AllocError>
    ensures text { AppendsOrOom result out.old out.new (begin_text team payload.now) }
    ensures bytes { OnOk result (AllByRecursion IsByte payload.now) }
{
    put(out, "{\"begin\":{\"payload\":\"")?;
    put_bytes(out, payload.bytes())?;
    put_one(out, "\",\"team\":", team as u64)
}

/// A word of a list, with a comma where one stands before it.
fn put_listed(out: &mut Vec<u8>, later: bool, word: &str) -> Result<(), AllocError>
    ensures { AppendsOrOom result out.old out.new
        (comma_if later ++ (codes "\"" ++ (word.now ++ codes "\""))) }
{
    put_word(out, if later { ",\"" } else { "\"" }, word)?;
    put(out, "\"")
}

/// Writes the words of a set of kinds, the mildest first and clogging last.
fn put_kinds(out: &mut Vec<u8>, kinds: KindSet) -> Result<(), AllocError>
    ensures { AppendsOrOom result out.old out.new (deeds_text false (in_order kinds)) }
{
    let mut later = false;
    for &kind in &MILDEST_FIRST {
        if kinds.has(kind) {
            put_listed(out, later, kind.text())?;
            later = true;
        }
    }
    if kinds.has_clog() {
        put_listed(out, later, "Clog")?;
    }
    Ok(())
}

/// Writes the scope of a grant, and the end of the act.
fn put_scope(out: &mut Vec<u8>, scope: &Scope) -> Result<(), AllocError>
    ensures text { AppendsOrOom result out.old out.new (scope_text scope.now) }
    ensures name { OnOk result (FitsScope scope.now) }
{
    match scope {
        Scope::All => put(out, "],\"scope\":\"all\"}}"),
        Scope::Where(target) => put_target(out, "],\"scope\":{\"key\":\"", target, "\"}}}"),
    }
}

/// Writes a Give.
fn put_give(out: &mut Vec<u8>, grant: &Grant) -> Result<(), AllocError>
    ensures text { AppendsOrOom result out.old out.new (give_text grant.now) }
    ensures name { OnOk result (FitsScope grant.now.scope) }
{
    put_number(out, "{\"give\":{\"actor\":", grant.actor as u64)?;
    put(out, ",\"kinds\":[")?;
    put_kinds(out, grant.kinds)?;
    put_scope(out, &grant.scope)
}

/// The kinds of a protection, and its process.
fn put_protection(
    out: &mut Vec<u8>,
    head: &str,
    kinds: KindSet,
    process: ProcId,
) -> Result<(), AllocError>
    ensures { AppendsOrOom result out.old out.new (protection_text head.now kinds process) }
{
    put(out, head)?;
    put_kinds(out, kinds)?;
    put_one(out, "],\"process\":", process.0 as u64)
}

/// Writes a Resend.
#[inline(always)]
fn put_resend(out: &mut Vec<u8>, rec: u32, process: ProcId) -> Result<(), AllocError>
    ensures { AppendsOrOom result out.old out.new (act_text (Resend rec process)) }
{
    let head = "{\"resend\":{\"process\":";
    put_two(out, head, process.0 as u64, ",\"record\":", rec as u64)
}

/// Writes a Take.
#[inline(always)]
fn put_take(out: &mut Vec<u8>, actor: u32, index: u32) -> Result<(), AllocError>
    ensures { AppendsOrOom result out.old out.new (act_text (Take actor index)) }
{
    let head = "{\"take\":{\"actor\":";
    put_two(out, head, actor as u64, ",\"index\":", index as u64)
}

/// Writes a CopyTo.
#[inline(always)]
fn put_copy(out: &mut Vec<u8>, from: ProcId, rec: u32, to: ProcId) -> Result<(), AllocError>
    ensures { AppendsOrOom result out.old out.new (act_text (CopyTo from rec to)) }
{
    put_number(out, "{\"copy\":{\"from\":", from.0 as u64)?;
    put_two(out, ",\"record\":", rec as u64, ",\"to\":", to.0 as u64)
}

/// A member of a team with the process that takes its place.
#[inline(always)]
fn put_replace(out: &mut Vec<u8>, team: u32, member: ProcId, into: ProcId) -> Result<(), AllocError>
    ensures { AppendsOrOom result out.old out.new (act_text (Replace team member into)) }
{
    put_number(out, "{\"replace\":{\"into\":", into.0 as u64)?;
    put_two(out, ",\"out\":", member.0 as u64, ",\"team\":", team as u64)
}

/// Writes the text of an act.
pub(super) fn put_act(out: &mut Vec<u8>, act: &Act) -> Result<(), AllocError>
    ensures text { AppendsOrOom result out.old out.new (act_text act.now) }
    ensures bare { OnOk result (NeedsNoEscape act.now) }
{
    match act {
        Act::Kill { order } => put_kill(out, order),
        Act::Clog { target, ticks } => put_clog(out, target, *ticks),
        Act::Unclog { target } => put_target(out, "{\"unclog\":{\"key\":\"", target, "\"}}"),
        Act::Form { members, policy } => put_form(out, members.as_slice(), *policy),
        Act::Begin { team, payload } => put_begin(out, *team, payload),
        Act::Deliver { message } => put_one(out, "{\"deliver\":{\"message\":", *message),
        Act::Lose { message } => put_one(out, "{\"lose\":{\"message\":", *message),
        Act::Resend { rec, process } => put_resend(out, *rec, *process),
        Act::Sync { process } => put_one(out, "{\"sync\":{\"process\":", process.0 as u64),
        Act::Up { process } => put_one(out, "{\"up\":{\"process\":", process.0 as u64),
        Act::Tick { ticks } => put_one(out, "{\"tick\":{\"ticks\":", *ticks),
        Act::Give { grant } => put_give(out, grant),
        Act::Take { actor, index } => put_take(out, *actor, *index),
        Act::Protect { process, kinds } => {
            put_protection(out, "{\"protect\":{\"kinds\":[", *kinds, *process)
        }
        Act::Unprotect { process, kinds } => {
            put_protection(out, "{\"unprotect\":{\"kinds\":[", *kinds, *process)
        }
        Act::CopyTo { from, rec, to } => put_copy(out, *from, *rec, *to),
        Act::Replace {
            team,
            out: member,
            into,
        } => put_replace(out, *team, *member, *into),
        Act::Heal { process } => put_one(out, "{\"heal\":{\"process\":", process.0 as u64),
    }
}
