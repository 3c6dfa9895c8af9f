//! Why no place is found.
use std::alloc::{AllocError, AllocFailed};
use toml_parser::ParseError;

/// Why no place is found.
#[derive(Clone, Copy, PartialEq, Eq, Debug)]
pub enum PlaceFault {
    /// Nothing of the text is led to.
    Nowhere,
    /// An allocation failed.
    NoMemory,
}

impl From<AllocError> for PlaceFault {
    fn from(_: AllocError) -> PlaceFault {
        PlaceFault::NoMemory
    }
}

impl<T: Drop> From<AllocFailed<T>> for PlaceFault {
    fn from(_: AllocFailed<T>) -> PlaceFault {
        PlaceFault::NoMemory
    }
}

impl From<ParseError> for PlaceFault {
    fn from(error: ParseError) -> PlaceFault {
        match error {
            ParseError::OutOfMemory => PlaceFault::NoMemory,
            ParseError::At(..) => PlaceFault::Nowhere,
        }
    }
}
