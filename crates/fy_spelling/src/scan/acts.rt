//! Scans an act at the front of a line, and gives what stands behind it too.
ghost use Rattle.std.specs.Prelude.{◌≡◌, ◌++◌, IfSome, codes};
ghost use Rattle.fy_locality.specs.Key.{key_text};
ghost use Rattle.fy_kinds.specs.Kinds.{kind_text};
ghost use Rattle.fy_spelling.specs.Pieces.{one_text, two_text, three_text, valued_text, kill_head_text, scope_text, act_text};

use super::lists::{kinds, payload, processes};
use super::tokens::{key_after, kind_after, name_after, skip, string_after, u32_after, u64_after};
use crate::Act;
use fy_grants::{Grant, Scope};
use fy_kinds::{KillOrder, Kind, Target};
use fy_locality::{Key, Name, ProcId};
use fy_team::Members;
use std::alloc::Global;

/// The number behind a text, up to the end of the act.
#[inline(always)]
fn one_u64<'l>(line: &'l [u8], head: &str) -> Option<(u64, &'l [u8])>
    ensures { IfSome result (λ p. line.now ≡ one_text head.now p.0 ++ p.1.now) }
{
    let (number, rest) = u64_after(line, head)?;
    let rest = skip(rest, "}}")?;
    Some((number, rest))
}

/// The number of 32 bits behind a text, up to the end of the act.
#[inline(always)]
fn one_u32<'l>(line: &'l [u8], head: &str) -> Option<(u32, &'l [u8])>
    ensures { IfSome result (λ p. line.now ≡ one_text head.now p.0 ++ p.1.now) }
{
    let (number, rest) = u32_after(line, head)?;
    let rest = skip(rest, "}}")?;
    Some((number, rest))
}

/// The process behind a text, up to the end of the act.
#[inline(always)]
fn one_process<'l>(line: &'l [u8], head: &str) -> Option<(ProcId, &'l [u8])>
    ensures { IfSome result (λ p. line.now ≡ one_text head.now p.0.0 ++ p.1.now) }
{
    let (number, rest) = one_u32(line, head)?;
    Some((ProcId(number), rest))
}

/// Two numbers of 32 bits, each behind a text, up to the end of the act.
#[inline(always)]
fn two_u32<'l>(line: &'l [u8], a: &str, b: &str) -> Option<(u32, u32, &'l [u8])>
    ensures { IfSome result (λ p. line.now ≡ two_text a.now p.0 b.now p.1 ++ p.2.now) }
{
    let (first, rest) = u32_after(line, a)?;
    let (second, rest) = one_u32(rest, b)?;
    Some((first, second, rest))
}

/// Three numbers of 32 bits, each behind a text, up to the end of the act.
#[inline(always)]
fn three_u32<'l>(line: &'l [u8], a: &str, b: &str, c: &str) -> Option<(u32, u32, u32, &'l [u8])>
    ensures { IfSome result (λ p.
        line.now ≡ three_text a.now p.0 b.now p.1 c.now p.2 ++ p.3.now) }
{
    let (first, rest) = u32_after(line, a)?;
    let (second, third, rest) = two_u32(rest, b, c)?;
    Some((first, second, third, rest))
}

/// A number behind a text, and then a name, up to the end of the act.
#[inline(always)]
fn valued<'l>(line: &'l [u8], head: &str) -> Option<(u64, Name, &'l [u8])>
    ensures { IfSome result (λ p. line.now ≡ valued_text head.now p.0 p.1 ++ p.2.now) }
{
    let (number, rest) = u64_after(line, head)?;
    let Some((value, rest)) = name_after(rest, ",\"value\":\"") else {
        return None;
    };
    let rest = skip(rest, "}}")?;
    Some((number, value, rest))
}

/// The key and the name of a target behind a text, and what is behind the name's quote.
#[inline(always)]
fn target_after<'l>(line: &'l [u8], head: &str) -> Option<(Key, Name, &'l [u8])>
    ensures { IfSome result (λ p.
        line.now ≡ head.now ++ (key_text p.0 ++ (codes "\",\"value\":\""
        ++ (p.1 ++ (codes "\"" ++ p.2.now))))) }
{
    let (key, rest) = key_after(line, head)?;
    let Some((value, rest)) = name_after(rest, ",\"value\":\"") else {
        return None;
    };
    Some((key, value, rest))
}

/// The head of a kill: its floor, its key and its kind.
#[inline(always)]
fn kill_head(line: &[u8]) -> Option<(Kind, Key, Kind, &[u8])>
    ensures { IfSome result (λ p.
        line.now ≡ kill_head_text (kind_text p.0) (key_text p.1) (kind_text p.2)
        ++ (codes "\"" ++ p.3.now)) }
{
    let (floor, rest) = kind_after(line, "{\"kill\":{\"floor\":\"")?;
    let (key, rest) = key_after(rest, ",\"key\":\"")?;
    let (kind, rest) = kind_after(rest, ",\"kind\":\"")?;
    Some((floor, key, kind, rest))
}

/// Where an act's name begins, behind `{"`.
const NAME: usize = 2;

/// Scans a Kill; none where its floor is above its kind.
fn kill(line: &[u8]) -> Option<(Act, &[u8])>
    ensures { IfSome result (λ p. line.now ≡ act_text p.0 ++ p.1.now) }
{
    let (floor, key, kind, rest) = kill_head(line)?;
    let Some((tear, value, rest)) = valued(rest, ",\"tear\":") else {
        return None;
    };
    let Ok(order) = KillOrder::make(Target { key, value }, kind, floor, tear) else {
        return None;
    };
    Some((Act::Kill { order }, rest))
}

/// Scans a Clog.
fn clog(line: &[u8]) -> Option<(Act, &[u8])>
    ensures { IfSome result (λ p. line.now ≡ act_text p.0 ++ p.1.now) }
{
    let (key, rest) = key_after(line, "{\"clog\":{\"key\":\"")?;
    let Some((ticks, value, rest)) = valued(rest, ",\"ticks\":") else {
        return None;
    };
    let target = Target { key, value };
    Some((Act::Clog { target, ticks }, rest))
}

/// Scans an Unclog.
fn unclog(line: &[u8]) -> Option<(Act, &[u8])>
    ensures { IfSome result (λ p. line.now ≡ act_text p.0 ++ p.1.now) }
{
    let Some((key, value, rest)) = target_after(line, "{\"unclog\":{\"key\":\"") else {
        return None;
    };
    let rest = skip(rest, "}}")?;
    let target = Target { key, value };
    Some((Act::Unclog { target }, rest))
}

/// Scans a Form.
fn form(alloc: Global, line: &[u8]) -> Option<(Act, &[u8])>
    ensures { IfSome result (λ p. line.now ≡ act_text p.0 ++ p.1.now) }
{
    let Some((processes, rest)) = processes(alloc, skip(line, "{\"form\":{\"members\":[")?) else {
        return None;
    };
    let (policy, rest) = one_u32(rest, "],\"policy\":")?;
    let Ok(members) = Members::from_vec(processes) else {
        return None;
    };
    Some((Act::Form { members, policy }, rest))
}

/// Scans a Begin.
fn begin(alloc: Global, line: &[u8]) -> Option<(Act, &[u8])>
    ensures { IfSome result (λ p. line.now ≡ act_text p.0 ++ p.1.now) }
{
    let (digits, rest) = string_after(line, "{\"begin\":{\"payload\":\"")?;
    let (team, rest) = one_u32(rest, ",\"team\":")?;
    let payload = payload(alloc, digits)?;
    Some((Act::Begin { team, payload }, rest))
}

/// Scans a Deliver.
fn deliver(line: &[u8]) -> Option<(Act, &[u8])>
    ensures { IfSome result (λ p. line.now ≡ act_text p.0 ++ p.1.now) }
{
    let (message, rest) = one_u64(line, "{\"deliver\":{\"message\":")?;
    Some((Act::Deliver { message }, rest))
}

/// Scans a Lose.
fn lose(line: &[u8]) -> Option<(Act, &[u8])>
    ensures { IfSome result (λ p. line.now ≡ act_text p.0 ++ p.1.now) }
{
    let (message, rest) = one_u64(line, "{\"lose\":{\"message\":")?;
    Some((Act::Lose { message }, rest))
}

/// Scans a Resend.
fn resend(line: &[u8]) -> Option<(Act, &[u8])>
    ensures { IfSome result (λ p. line.now ≡ act_text p.0 ++ p.1.now) }
{
    let (process, rec, rest) = two_u32(line, "{\"resend\":{\"process\":", ",\"record\":")?;
    let process = ProcId(process);
    Some((Act::Resend { rec, process }, rest))
}

/// Scans a Sync.
fn sync(line: &[u8]) -> Option<(Act, &[u8])>
    ensures { IfSome result (λ p. line.now ≡ act_text p.0 ++ p.1.now) }
{
    let (process, rest) = one_process(line, "{\"sync\":{\"process\":")?;
    Some((Act::Sync { process }, rest))
}

/// Scans an Up.
fn up(line: &[u8]) -> Option<(Act, &[u8])>
    ensures { IfSome result (λ p. line.now ≡ act_text p.0 ++ p.1.now) }
{
    let (process, rest) = one_process(line, "{\"up\":{\"process\":")?;
    Some((Act::Up { process }, rest))
}

/// Scans a Heal.
fn heal(line: &[u8]) -> Option<(Act, &[u8])>
    ensures { IfSome result (λ p. line.now ≡ act_text p.0 ++ p.1.now) }
{
    let (process, rest) = one_process(line, "{\"heal\":{\"process\":")?;
    Some((Act::Heal { process }, rest))
}

/// Scans a Tick.
fn tick(line: &[u8]) -> Option<(Act, &[u8])>
    ensures { IfSome result (λ p. line.now ≡ act_text p.0 ++ p.1.now) }
{
    let (ticks, rest) = one_u64(line, "{\"tick\":{\"ticks\":")?;
    Some((Act::Tick { ticks }, rest))
}

/// A scope behind the kinds of a grant, up to the end of the act.
fn scope(line: &[u8]) -> Option<(Scope, &[u8])>
    ensures { IfSome result (λ p. line.now ≡ scope_text p.0 ++ p.1.now) }
{
    if let Some(rest) = skip(line, "],\"scope\":\"all\"}}") {
        return Some((Scope::All, rest));
    }
    let Some((key, value, rest)) = target_after(line, "],\"scope\":{\"key\":\"") else {
        return None;
    };
    let rest = skip(rest, "}}}")?;
    let target = Target { key, value };
    Some((Scope::Where(target), rest))
}

/// Scans a Give.
fn give(line: &[u8]) -> Option<(Act, &[u8])>
    ensures { IfSome result (λ p. line.now ≡ act_text p.0 ++ p.1.now) }
{
    let (actor, rest) = u32_after(line, "{\"give\":{\"actor\":")?;
    let (kinds, rest) = kinds(skip(rest, ",\"kinds\":[")?);
    let Some((scope, rest)) = scope(rest) else {
        return None;
    };
    let grant = Grant {
        actor,
        kinds,
        scope,
    };
    Some((Act::Give { grant }, rest))
}

/// Scans a Take.
fn take(line: &[u8]) -> Option<(Act, &[u8])>
    ensures { IfSome result (λ p. line.now ≡ act_text p.0 ++ p.1.now) }
{
    let (actor, index, rest) = two_u32(line, "{\"take\":{\"actor\":", ",\"index\":")?;
    Some((Act::Take { actor, index }, rest))
}

/// Scans a Protect.
fn protect(line: &[u8]) -> Option<(Act, &[u8])>
    ensures { IfSome result (λ p. line.now ≡ act_text p.0 ++ p.1.now) }
{
    let (kinds, rest) = kinds(skip(line, "{\"protect\":{\"kinds\":[")?);
    let (process, rest) = one_process(rest, "],\"process\":")?;
    Some((Act::Protect { process, kinds }, rest))
}

/// Scans an Unprotect.
fn unprotect(line: &[u8]) -> Option<(Act, &[u8])>
    ensures { IfSome result (λ p. line.now ≡ act_text p.0 ++ p.1.now) }
{
    let (kinds, rest) = kinds(skip(line, "{\"unprotect\":{\"kinds\":[")?);
    let (process, rest) = one_process(rest, "],\"process\":")?;
    Some((Act::Unprotect { process, kinds }, rest))
}

/// Scans a CopyTo.
fn copy(line: &[u8]) -> Option<(Act, &[u8])>
    ensures { IfSome result (λ p. line.now ≡ act_text p.0 ++ p.1.now) }
{
    let (from, rec, to, rest) = three_u32(
        line,
        "{\"copy\":{\"from\":",
        ",\"record\":",
        ",\"to\":",
    )?;
    let from = ProcId(from);
    let to = ProcId(to);
    Some((Act::CopyTo { from, rec, to }, rest))
}

/// Scans a Replace.
fn replace(line: &[u8]) -> Option<(Act, &[u8])>
    ensures { IfSome result (λ p. line.now ≡ act_text p.0 ++ p.1.now) }
{
    let (into, out, team, rest) = three_u32(
        line,
        "{\"replace\":{\"into\":",
        ",\"out\":",
        ",\"team\":",
    )?;
    let into = ProcId(into);
    let out = ProcId(out);
    Some((Act::Replace { team, out, into }, rest))
}

/// The act of a name with this first letter, which several begin with, told by its third letter.
fn act_by_third(line: &[u8], first: u8) -> Option<(Act, &[u8])>
    ensures { IfSome result (λ p. line.now ≡ act_text p.0 ++ p.1.now) }
{
    match (first, *line.get(NAME + 2)?) {
        (b't', b'c') => tick(line),
        (b't', b'k') => take(line),
        (b'c', b'o') => clog(line),
        (b'c', b'p') => copy(line),
        (b'r', b's') => resend(line),
        (b'r', b'p') => replace(line),
        (b'u', b'"') => up(line),
        (b'u', b'c') => unclog(line),
        (b'u', b'p') => unprotect(line),
        _ => None,
    }
}

/// An act, told by the first letter of its name.
///
/// Each act's own scan compares its whole name. A letter tells which of the eighteen to try: most
/// of the time of `run` and `check` goes into lines, and a try of one name after another costs
/// more.
pub(super) fn act(alloc: Global, line: &[u8]) -> Option<(Act, &[u8])>
    ensures { IfSome result (λ p. line.now ≡ act_text p.0 ++ p.1.now) }
{
    match *line.get(NAME)? {
        b'k' => kill(line),
        b'd' => deliver(line),
        b's' => sync(line),
        b'l' => lose(line),
        b'f' => form(alloc, line),
        b'b' => begin(alloc, line),
        b'h' => heal(line),
        b'g' => give(line),
        b'p' => protect(line),
        first => act_by_third(line, first),
    }
}
