//! The way on from the value of a key: through arrays and inline tables.
ghost use Rattle.std.specs.Prelude.{IfOk};
ghost use Rattle.fy_places.specs.Spans.{IsWithin, IsPlaceIn};

use crate::fault::PlaceFault;
use crate::pieces::{after_comma, after_value, key_end, key_equals, take};
use crate::span::{Place, Span};
use crate::step::{Step, behind_key};
use std::alloc::Global;
use toml_parser::text::skip_blank;

/// The front of an element of the array at the front.
fn element(alloc: Global, s: &str, index: usize) -> Result<&str, PlaceFault> {
    let mut rest = skip_blank(take(s, b'[')?, true);
    for _ in 0..index {
        rest = after_comma(after_value(alloc, rest)?)?;
    }
    Ok(rest)
}

/// A member of an inline table: its front, that of its value, and how many steps of the way are
/// behind it.
#[derive(Drop)]
struct Member<'t> {
    front: &'t str,
    value: &'t str,
    passed: usize,
}

/// The member of the inline table at the front that leads on.
fn leading_member<'t>(
    alloc: Global,
    s: &'t str,
    way: &[Step<'_>],
    passed: usize,
) -> Result<Member<'t>, PlaceFault> {
    let mut front = skip_blank(take(s, b'{')?, true);
    for _ in 0..s.len() {
        let (key, value) = key_equals(alloc, front)?;
        if let Some(passed) = behind_key(way, passed, &key) {
            return Ok(Member {
                front,
                value,
                passed,
            });
        }
        front = after_comma(after_value(alloc, value)?)?;
    }
    Err(PlaceFault::Nowhere)
}

/// The span of the key at the front.
pub(crate) fn key_span(alloc: Global, text: &str, front: &str) -> Result<Span, PlaceFault>
    ensures { IfOk result (IsWithin text.now) }
{
    let (_, rest) = toml_parser::dotted_key(alloc, front)?;
    Ok(Span::between(text, front, key_end(front, rest)))
}

/// The span of the value at the front.
fn value_span(alloc: Global, text: &str, front: &str) -> Result<Span, PlaceFault>
    ensures { IfOk result (IsWithin text.now) }
{
    let rest = after_value(alloc, front)?;
    Ok(Span::between(text, front, rest))
}

/// Where a way ends that leads on from the value of the key at the front, with so many steps behind
/// it.
pub(crate) fn find_inside(
    alloc: Global,
    text: &str,
    front: &str,
    value: &str,
    way: &[Step<'_>],
    passed: usize,
) -> Result<Place, PlaceFault>
    ensures { IfOk result (IsPlaceIn text.now) }
{
    let (mut key, mut value, mut passed) = (front, value, passed);
    for _ in 0..way.len() {
        match way.get(passed) {
            None => break,
            Some(Step::Index(index)) => {
                value = element(alloc, value, *index)?;
                key = value;
                passed = passed.saturating_add(1);
            }
            Some(Step::Key(_)) => {
                let found = leading_member(alloc, value, way, passed)?;
                key = found.front;
                value = found.value;
                passed = found.passed;
            }
        }
    }
    let span = value_span(alloc, text, value)?;
    if key.len() == value.len() {
        return Ok(Place::of(span));
    }
    Ok(Place {
        key: key_span(alloc, text, key)?,
        value: span,
    })
}
