//! Policies read from their texts.
ghost use Rattle.std.specs.Prelude.{◌≡◌, ◌+◌, ◌<◌, ◌⊎◌, ◌↔◌, ◌++◌, ◌∷◌, ℕ, List, IsTrue, min, MatchOption, MatchResult, codes};
ghost use Rattle.fy_locality.specs.Key.{key_text};
ghost use Rattle.fy_locality.specs.declared.key.Key.{Key};
ghost use Rattle.fy_policy.specs.Fronts.{BeginsWith, IsFaultAt};
ghost use Rattle.fy_policy.specs.Reading.{Reads};
ghost use Rattle.fy_policy.specs.Shape.{tree_of};
ghost use Rattle.fy_policy.specs.Text.{numeral};

use crate::limits::{
    MOST_COUNT, MOST_DEPTH, MOST_NODES, MOST_READ_BYTES, has_fit_counts, is_within_depth,
    room_behind,
};
use crate::shape::Shape;
use crate::{Policy, PolicyFault};
use fy_locality::Key;
use std::alloc::Global;

/// The policy of a text such as `Across(3,zoneid,One())`: its text is this one.
///
/// # Errors
///
/// In this order: `TooLong` over 4096 bytes; `Syntax` where no policy, whatever its counts, has
/// this text; `Count` where one is outside 1 to 1024; `Depth` over 8; `Nodes` over 64. `NoMemory`
/// can take the place of any answer.
pub fn read_policy(alloc: Global, text: &str) -> Result<Policy, PolicyFault>
    ensures { Reads text.now result }
{
    // A shape nests at most once in four bytes, so this bounds the depth of the calls below to
    // about a thousand.
    if text.len() > MOST_READ_BYTES {
        return Err(PolicyFault::TooLong);
    }
    let (shape, rest) = read_shape(alloc, text.as_bytes())?;
    if !rest.is_empty() {
        return Err(PolicyFault::Syntax);
    }
    if !has_fit_counts(&shape) {
        return Err(PolicyFault::Count);
    }
    if !is_within_depth(&shape, MOST_DEPTH) {
        return Err(PolicyFault::Depth);
    }
    if room_behind(&shape, MOST_NODES).is_none() {
        return Err(PolicyFault::Nodes);
    }
    Ok(Policy::from_shape(shape))
}

/// The shape at the front of the text, and what follows it.
#[cycle(shapes)]
fn read_shape(alloc: Global, text: &[u8]) -> Result<(Shape, &[u8]), PolicyFault>
    ensures { MatchResult result
        (λ found. BeginsWith text.now (tree_of found.0) found.1.now)
        (λ fault. IsFaultAt fault text.now) }
{
    if let Some(rest) = behind(text, b"One()") {
        return Ok((Shape::One, rest));
    }
    if let Some(rest) = behind(text, b"Across(") {
        return read_across(alloc, rest);
    }
    if let Some(rest) = behind(text, b"And(") {
        return read_and(alloc, rest);
    }
    Err(PolicyFault::Syntax)
}

/// The shape across a key whose text goes on here behind `Across(`, and what follows it.
#[cycle(shapes)]
fn read_across(alloc: Global, text: &[u8]) -> Result<(Shape, &[u8]), PolicyFault>
    ensures { MatchResult result
        (λ found. BeginsWith (codes "Across(" ++ text.now) (tree_of found.0) found.1.now)
        (λ fault. IsFaultAt fault (codes "Across(" ++ text.now)) }
{
    let Some((count, key, rest)) = read_count_and_key(text) else {
        return Err(PolicyFault::Syntax);
    };
    let (inner, rest) = read_shape(alloc, rest)?;
    let Some(rest) = behind(rest, b")") else {
        return Err(PolicyFault::Syntax);
    };
    let inner = Box::new(alloc, inner)?;
    Ok((Shape::Across(count, key, inner), rest))
}

/// The shape of several parts whose text goes on here behind `And(`, and what follows it.
#[cycle(shapes)]
fn read_and(alloc: Global, text: &[u8]) -> Result<(Shape, &[u8]), PolicyFault>
    ensures { MatchResult result
        (λ found. BeginsWith (codes "And(" ++ text.now) (tree_of found.0) found.1.now)
        (λ fault. IsFaultAt fault (codes "And(" ++ text.now)) }
{
    let (first, mut rest) = read_shape(alloc, text)?;
    let mut parts = Vec::new(alloc);
    parts.push(first)?;
    while let Some(next) = behind(rest, b",") {
        let (part, after) = read_shape(alloc, next)?;
        parts.push(part)?;
        rest = after;
    }
    let Some(rest) = behind(rest, b")") else {
        return Err(PolicyFault::Syntax);
    };
    Ok((Shape::And(parts), rest))
}

/// A count and a key, each with its comma, and what follows them. The count is one above the
/// greatest for every number above that.
fn read_count_and_key(text: &[u8]) -> Option<(u32, Key, &[u8])>
    ensures { MatchOption result
        ((n : ℕ) (key : Key) (rest : List ℕ)
        → text.now ≡ numeral n ++ codes "," ++ key_text key ++ codes "," ++ rest → ⊥)
        (λ found. (n : ℕ)
        × (found.0 ≡ min n (MOST_COUNT + 1))
        × (text.now ≡ numeral n ++ codes "," ++ key_text found.1 ++ codes "," ++ found.2.now)) }
{
    let Some((count, rest)) = read_count(text) else {
        return None;
    };
    let Some((key, rest)) = read_key(rest) else {
        return None;
    };
    let Some(rest) = behind(rest, b",") else {
        return None;
    };
    Some((count, key, rest))
}

/// A count with its comma, and what follows it: one above the greatest for every number above that.
fn read_count(text: &[u8]) -> Option<(u32, &[u8])>
    ensures { MatchOption result
        ((n : ℕ) (rest : List ℕ) → text.now ≡ numeral n ++ 44 ∷ rest → ⊥)
        (λ found. (n : ℕ)
        × (found.0 ≡ min n (MOST_COUNT + 1))
        × (text.now ≡ numeral n ++ 44 ∷ found.1.now)) }
{
    let mut count = 0;
    for (i, byte) in text.iter().enumerate() {
        if *byte == b',' {
            if i == 0 {
                return None;
            }
            return Some((count, &text[i + 1..]));
        }
        if !byte.is_ascii_digit() {
            return None;
        }
        if !may_go_on(i, count) {
            return None;
        }
        count = (count * 10 + u32::from(*byte - b'0')).min(MOST_COUNT + 1);
    }
    None
}

/// Whether a digit may follow so many that make up this count: no number but 0 begins with 0.
fn may_go_on(digits: usize, count: u32) -> bool
    ensures { IsTrue result ↔ ((digits ≡ 0) ⊎ (0 < count)) }
{
    digits == 0 || count > 0
}

/// A key, and what follows it.
fn read_key(text: &[u8]) -> Option<(Key, &[u8])>
    ensures { MatchOption result
        ((key : Key) (rest : List ℕ) → text.now ≡ key_text key ++ rest → ⊥)
        (λ found. text.now ≡ key_text found.0 ++ found.1.now) }
{
    for key in [
        Key::Process,
        Key::Machine,
        Key::Zone,
        Key::DataHall,
        Key::DataCenter,
    ] {
        if let Some(rest) = behind(text, key.text().as_bytes()) {
            return Some((key, rest));
        }
    }
    None
}

/// What follows the word, where the text begins with it.
fn behind<'a>(text: &'a [u8], word: &[u8]) -> Option<&'a [u8]>
    ensures { MatchOption result
        ((rest : List ℕ) → text.now ≡ word.now ++ rest → ⊥)
        (λ rest. text.now ≡ word.now ++ rest.now) }
{
    text.strip_prefix(word)
}
