//! Spans of a text.

/// A part of a text, in bytes.
#[derive(Clone, Copy, PartialEq, Eq, Debug)]
pub struct Span {
    /// Where it begins.
    pub start: usize,
    /// Where it ends.
    pub end: usize,
}

impl Span {
    ghost use Rattle.fy_places.specs.Spans.{IsWithin};

    /// The part of a text from what is left of it at one place up to what is left at another.
    pub(crate) fn between(text: &str, from: &str, to: &str) -> Span
        ensures { IsWithin text.now result }
    {
        let start = text.len().saturating_sub(from.len());
        let end = text.len().saturating_sub(to.len()).max(start);
        Span { start, end }
    }
}

/// Where a value stands.
#[derive(Clone, Copy, PartialEq, Eq, Debug)]
pub struct Place {
    /// The key or the header that leads to it; the value itself where it is an element.
    pub key: Span,
    /// The value; the header where it is a table or an array of tables that has one.
    pub value: Span,
}

impl Place {
    ghost use Rattle.std.specs.Prelude.{◌≡◌};

    /// A place that is one span.
    pub(crate) fn of(span: Span) -> Place
        ensures key { result.key ≡ span }
        ensures value { result.value ≡ span }
    {
        Place {
            key: span,
            value: span,
        }
    }
}
