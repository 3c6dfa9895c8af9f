//! Texts, strings and numbers at the front of a line.
ghost use Rattle.std.specs.Prelude.{◌≡◌, ◌+◌, ◌*◌, ◌<◌, ◌++◌, IfSome, IsTrue, codes, decimal};
ghost use Rattle.fy_locality.specs.Key.{key_text};
ghost use Rattle.fy_kinds.specs.Kinds.{kind_text};

use fy_kinds::Kind;
use fy_locality::{Key, Name};

/// What a text is followed by.
#[inline(always)]
pub(super) fn skip<'l>(line: &'l [u8], text: &str) -> Option<&'l [u8]>
    ensures { IfSome result (λ rest. line.now ≡ text.now ++ rest.now) }
{
    line.strip_prefix(text.as_bytes())
}

/// Whether a text is all that is left.
#[inline(always)]
pub(super) fn is_exactly(line: &[u8], text: &str) -> bool
    ensures { IsTrue result → line.now ≡ text.now }
{
    line == text.as_bytes()
}

/// The bytes up to a quote, and those behind it.
fn string(line: &[u8]) -> Option<(&[u8], &[u8])>
    ensures { IfSome result (λ p. line.now ≡ p.0.now ++ (codes "\"" ++ p.1.now)) }
{
    for i in 0..line.len() {
        if line[i] == b'"' {
            return Some((&line[..i], &line[i + 1..]));
        }
    }
    None
}

/// The value of a digit.
#[inline(always)]
fn digit(byte: u8) -> Option<u8>
    ensures small { IfSome result (λ value. value < 10) }
    ensures byte { IfSome result (λ value. byte ≡ 48 + value) }
{
    match byte {
        b'0'..=b'9' => Some(byte - b'0'),
        _ => None,
    }
}

/// A number with one digit more, where it has 64 bits.
#[inline(always)]
fn with_digit(number: u64, digit: u8) -> Option<u64>
    ensures { IfSome result (λ longer. longer ≡ number * 10 + digit) }
{
    number.checked_mul(10)?.checked_add(digit as u64)
}

/// A number of 64 bits without a leading zero, and what is behind it.
fn number(line: &[u8]) -> Option<(u64, &[u8])>
    ensures { IfSome result (λ p. line.now ≡ decimal p.0 ++ p.1.now) }
{
    if line.is_empty() {
        return None;
    }
    let first = digit(line[0])?;
    if first == 0 {
        return Some((0, &line[1..]));
    }
    let mut number = first as u64;
    for i in 1..line.len() {
        let Some(more) = digit(line[i]) else {
            return Some((number, &line[i..]));
        };
        number = with_digit(number, more)?;
    }
    None
}

/// The string behind a text, and what is behind its quote.
#[inline(always)]
pub(super) fn string_after<'l>(line: &'l [u8], text: &str) -> Option<(&'l [u8], &'l [u8])>
    ensures { IfSome result (λ p. line.now ≡ text.now ++ (p.0.now ++ (codes "\"" ++ p.1.now))) }
{
    string(skip(line, text)?)
}

/// The number behind a text.
#[inline(always)]
pub(super) fn u64_after<'l>(line: &'l [u8], text: &str) -> Option<(u64, &'l [u8])>
    ensures { IfSome result (λ p. line.now ≡ text.now ++ (decimal p.0 ++ p.1.now)) }
{
    number(skip(line, text)?)
}

/// The number of 32 bits behind a text.
#[inline(always)]
pub(super) fn u32_after<'l>(line: &'l [u8], text: &str) -> Option<(u32, &'l [u8])>
    ensures { IfSome result (λ p. line.now ≡ text.now ++ (decimal p.0 ++ p.1.now)) }
{
    let (number, rest) = u64_after(line, text)?;
    if number > u32::MAX as u64 {
        return None;
    }
    Some((number as u32, rest))
}

/// The kind that a string is.
fn kind(string: &[u8]) -> Option<Kind>
    ensures { IfSome result (λ kind. string.now ≡ kind_text kind) }
{
    if string == b"KillInstantly".as_slice() {
        Some(Kind::KillInstantly)
    } else if string == b"Reboot".as_slice() {
        Some(Kind::Reboot)
    } else if string == b"RebootAndDelete".as_slice() {
        Some(Kind::RebootAndDelete)
    } else if string == b"RebootProcess".as_slice() {
        Some(Kind::RebootProcess)
    } else {
        None
    }
}

/// The key that a string is.
fn key(string: &[u8]) -> Option<Key>
    ensures { IfSome result (λ key. string.now ≡ key_text key) }
{
    if string == b"zoneid".as_slice() {
        Some(Key::Zone)
    } else if string == b"machineid".as_slice() {
        Some(Key::Machine)
    } else if string == b"processid".as_slice() {
        Some(Key::Process)
    } else if string == b"dcid".as_slice() {
        Some(Key::DataCenter)
    } else if string == b"data_hall".as_slice() {
        Some(Key::DataHall)
    } else {
        None
    }
}

/// The kind behind a text, and what is behind its quote.
#[inline(always)]
pub(super) fn kind_after<'l>(line: &'l [u8], text: &str) -> Option<(Kind, &'l [u8])>
    ensures { IfSome result (λ p.
        line.now ≡ text.now ++ (kind_text p.0 ++ (codes "\"" ++ p.1.now))) }
{
    let (string, rest) = string_after(line, text)?;
    let kind = kind(string)?;
    Some((kind, rest))
}

/// The key behind a text, and what is behind its quote.
#[inline(always)]
pub(super) fn key_after<'l>(line: &'l [u8], text: &str) -> Option<(Key, &'l [u8])>
    ensures { IfSome result (λ p.
        line.now ≡ text.now ++ (key_text p.0 ++ (codes "\"" ++ p.1.now))) }
{
    let (string, rest) = string_after(line, text)?;
    let key = key(string)?;
    Some((key, rest))
}

/// The name behind a text, and what is behind its quote.
#[inline(always)]
pub(super) fn name_after<'l>(line: &'l [u8], text: &str) -> Option<(Name, &'l [u8])>
    ensures { IfSome result (λ p. line.now ≡ text.now ++ (p.0 ++ (codes "\"" ++ p.1.now))) }
{
    let (string, rest) = string_after(line, text)?;
    let Ok(name) = Name::from_bytes(string) else {
        return None;
    };
    Some((name, rest))
}
