//! The pieces of a document, each read from the front of a text.
ghost use Rattle.std.specs.Prelude.{◌<◌};

use crate::fault::PlaceFault;
use std::alloc::Global;
use toml_parser::bytes::is_word;
use toml_parser::text::{first, skip, skip_blank, skip_ws};
use toml_parser::{Key, dotted_key, quoted, starts_string, unquoted};

/// Behind a byte-order mark, if there is one.
pub(crate) fn skip_bom(text: &str) -> &str {
    match text.strip_prefix('\u{FEFF}') {
        Some(rest) => rest,
        None => text,
    }
}

/// Behind a byte that has to stand at the front.
pub(crate) fn take(s: &str, byte: u8) -> Result<&str, PlaceFault>
    requires some { 0 < byte }
    requires ascii { byte < 128 }
{
    if first(s) == byte {
        Ok(skip(s, 1))
    } else {
        Err(PlaceFault::Nowhere)
    }
}

/// A key, and what is left behind `=` and the blanks.
pub(crate) fn key_equals(alloc: Global, s: &str) -> Result<(Key, &str), PlaceFault> {
    let (key, rest) = dotted_key(alloc, s)?;
    Ok((key, skip_ws(take(rest, b'=')?)))
}

/// The key of a header, whether it has two brackets, and what is left behind it.
pub(crate) fn header(alloc: Global, s: &str) -> Result<(Key, bool, &str), PlaceFault> {
    let inside = take(s, b'[')?;
    let many = first(inside) == b'[';
    let inside = if many { skip(inside, 1) } else { inside };
    let (key, rest) = dotted_key(alloc, skip_ws(inside))?;
    let rest = take(rest, b']')?;
    let rest = if many { take(rest, b']')? } else { rest };
    Ok((key, many, rest))
}

/// Behind a text, a number, a date, `true` or `false`.
fn after_scalar(alloc: Global, s: &str) -> Result<&str, PlaceFault> {
    if starts_string(s) {
        Ok(quoted(alloc, s)?.1)
    } else {
        Ok(unquoted(alloc, s)?.1)
    }
}

/// Behind all bytes at the front that a word may have.
fn after_word(s: &str) -> Result<&str, PlaceFault> {
    let length = s
        .as_bytes()
        .iter()
        .take_while(|byte| is_word(**byte))
        .count();
    match s.split_at_checked(length) {
        Some((word, rest)) if !word.is_empty() => Ok(rest),
        _ => Err(PlaceFault::Nowhere),
    }
}

/// Behind a piece of an array or an inline table, and how many of them are open then.
fn after_piece(alloc: Global, s: &str, deep: usize) -> Result<(&str, usize), PlaceFault> {
    match first(s) {
        b'[' | b'{' => Ok((skip(s, 1), deep.saturating_add(1))),
        b']' | b'}' => Ok((skip(s, 1), deep.saturating_sub(1))),
        b',' | b'=' => Ok((skip(s, 1), deep)),
        b'"' | b'\'' => Ok((after_scalar(alloc, s)?, deep)),
        _ => Ok((after_word(s)?, deep)),
    }
}

/// Behind the value at the front. It is that of a document, so its inner order isn't looked at.
pub(crate) fn after_value(alloc: Global, s: &str) -> Result<&str, PlaceFault> {
    if !matches!(first(s), b'[' | b'{') {
        return after_scalar(alloc, s);
    }
    let mut rest = s;
    let mut deep = 0usize;
    for _ in 0..s.len() {
        let (after, now) = after_piece(alloc, skip_blank(rest, true), deep)?;
        if now == 0 {
            return Ok(after);
        }
        rest = after;
        deep = now;
    }
    Err(PlaceFault::Nowhere)
}

/// Behind a comma and the blanks round it.
pub(crate) fn after_comma(s: &str) -> Result<&str, PlaceFault> {
    Ok(skip_blank(take(skip_blank(s, true), b',')?, true))
}

/// What a key leaves unread, but with the blanks behind the key.
pub(crate) fn key_end<'t>(s: &'t str, rest: &str) -> &'t str {
    let length = s.len().saturating_sub(rest.len());
    let Some((read, _)) = s.split_at_checked(length) else {
        return s;
    };
    let length = read.trim_ascii_end().len();
    match s.split_at_checked(length) {
        Some((_, rest)) => rest,
        None => s,
    }
}
