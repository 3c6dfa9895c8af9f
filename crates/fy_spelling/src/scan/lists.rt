//! Lists and bytes at the front of a line.
ghost use Rattle.std.specs.Prelude.{◌≡◌, ◌<◌, ◌++◌, IfSome, codes, decimal, false, slice_index};
ghost use Rattle.serde_json.specs.Written.{comma_if};
ghost use Rattle.hex.specs.Hex.{encode_lower, lower_digits};
ghost use Rattle.fy_spelling.specs.Values.{in_order};
ghost use Rattle.fy_spelling.specs.Pieces.{processes_text, deeds_text};

use super::tokens::{skip, u32_after};
use fy_disk::Payload;
use fy_kinds::{KindSet, MILDEST_FIRST};
use fy_locality::ProcId;
use std::alloc::Global;

/// A process of a list, behind a comma where one stands before it.
#[inline(always)]
fn process(line: &[u8], later: bool) -> Option<(ProcId, &[u8])>
    ensures { IfSome result (λ p. line.now ≡ comma_if later ++ (decimal p.0.0 ++ p.1.now)) }
{
    let (number, rest) = u32_after(line, if later { "," } else { "" })?;
    Some((ProcId(number), rest))
}

/// The processes of a list, and what is behind the last of them.
pub(super) fn processes(alloc: Global, line: &[u8]) -> Option<(Vec<ProcId>, &[u8])>
    ensures { IfSome result (λ p. line.now ≡ processes_text false p.0.items ++ p.1.now) }
{
    let mut found = Vec::new(alloc);
    let mut later = false;
    let mut rest = line;
    for _ in 0..line.len() {
        let Some((process, after)) = process(rest, later) else {
            return Some((found, rest));
        };
        let Ok(()) = found.push(process) else {
            return None;
        };
        later = true;
        rest = after;
    }
    Some((found, rest))
}

/// A string of a list, behind a comma where one stands before it: what is behind its quote.
#[inline(always)]
fn listed<'l>(line: &'l [u8], later: bool, string: &str) -> Option<&'l [u8]>
    ensures { IfSome result (λ rest.
        line.now ≡ comma_if later ++ (codes "\"" ++ (string.now ++ (codes "\"" ++ rest.now)))) }
{
    let rest = skip(line, if later { ",\"" } else { "\"" })?;
    let rest = skip(rest, string)?;
    skip(rest, "\"")
}

/// The kinds of a list in their order, each once, and what is behind the last of them.
pub(super) fn kinds(line: &[u8]) -> (KindSet, &[u8])
    ensures { line.now ≡ deeds_text false (in_order result.0) ++ result.1.now }
{
    let mut found = KindSet::empty();
    let mut later = false;
    let mut rest = line;
    for &kind in &MILDEST_FIRST {
        if let Some(after) = listed(rest, later, kind.text()) {
            found.insert(KindSet::of(kind));
            later = true;
            rest = after;
        }
    }
    match listed(rest, later, "Clog") {
        Some(after) => (found.union(KindSet::of_clog()), after),
        None => (found, rest),
    }
}

/// The value of a lower-case digit of a byte.
#[inline(always)]
fn nibble(byte: u8) -> Option<u8>
    ensures small { IfSome result (λ value. value < 16) }
    ensures byte { IfSome result (λ value. byte ≡ slice_index lower_digits value) }
{
    match byte {
        b'0'..=b'9' => Some(byte - b'0'),
        b'a'..=b'f' => Some(byte - b'a' + 10),
        _ => None,
    }
}

/// The bytes that are written by two lower-case digits each.
pub(super) fn payload(alloc: Global, digits: &[u8]) -> Option<Payload>
    ensures { IfSome result (λ payload. digits.now ≡ encode_lower payload) }
{
    let count = digits.len() / 2;
    if digits.len() != 2 * count {
        return None;
    }
    let Ok(mut bytes) = Vec::with_capacity(alloc, count) else {
        return None;
    };
    for i in 0..count {
        let high = nibble(digits[2 * i])?;
        let low = nibble(digits[2 * i + 1])?;
        let Ok(()) = bytes.push(16 * high + low) else {
            return None;
        };
    }
    Some(Payload::from_vec(bytes))
}
