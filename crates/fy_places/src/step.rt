//! The way to a value.
use toml_parser::Key;

/// A step on the way to a value.
#[derive(Clone, Copy, PartialEq, Eq, Debug)]
pub enum Step<'p> {
    /// To the member with this key.
    Key(&'p str),
    /// To this element of an array, from 0.
    Index(usize),
}

/// Whether a step is to an element.
pub(crate) fn is_index(step: &Step<'_>) -> bool {
    matches!(*step, Step::Index(_))
}

/// How many steps of a way are behind a part of a key, of which so many were before; `None` where
/// the part leads elsewhere. Behind the end of a way any part leads on.
pub(crate) fn behind_part(way: &[Step<'_>], passed: usize, part: &str) -> Option<usize> {
    match way.get(passed) {
        None => Some(passed),
        Some(Step::Key(name)) if *name == part => Some(passed.saturating_add(1)),
        Some(_) => None,
    }
}

/// How many steps of a way are behind a key; `None` where the key leads elsewhere.
pub(crate) fn behind_key(way: &[Step<'_>], passed: usize, key: &Key) -> Option<usize> {
    let mut passed = passed;
    for part in &key.path {
        passed = behind_part(way, passed, part.as_str())?;
    }
    behind_part(way, passed, key.last.as_str())
}
