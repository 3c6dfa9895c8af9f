//! The bytes of a record.
ghost use Rattle.std.specs.Prelude.{◌≡◌, ◌↔◌, IfOk, IsTrue};

use std::alloc::{AllocError, Global};
use std::marker::Model;

/// The bytes of a record, of any length. They never change.
#[derive(Drop)]
pub struct Payload {
    bytes: Vec<u8>,
}

impl Model for Payload {
    ghost use Rattle.std.specs.Prelude.{ℕ, List};

    ghost Value = { List ℕ };

    ghost view = { λ p. p.bytes.items };
}

impl Payload {
    /// Makes a payload by copying these bytes.
    ///
    /// # Errors
    ///
    /// `AllocError` only if the allocation fails.
    pub fn make(alloc: Global, bytes: &[u8]) -> Result<Payload, AllocError>
        ensures { IfOk result (λ made. made ≡ bytes.now) }
    {
        let bytes = Vec::from_slice(alloc, bytes)?;
        Ok(Payload { bytes })
    }

    /// Makes a payload of these bytes without copying them.
    pub fn from_vec(bytes: Vec<u8>) -> Payload
        ensures { result ≡ bytes.items }
    {
        Payload { bytes }
    }

    /// Takes the bytes out without copying them.
    pub fn into_vec(self) -> Vec<u8>
        ensures { result.items ≡ self }
    {
        self.bytes
    }

    /// The bytes.
    pub fn bytes(&self) -> &[u8]
        ensures { result.now ≡ self.now }
    {
        self.bytes.as_slice()
    }

    /// Copies the payload.
    ///
    /// # Errors
    ///
    /// `AllocError` only if the allocation fails.
    pub fn try_copy(&self, alloc: Global) -> Result<Payload, AllocError>
        ensures { IfOk result (λ copy. copy ≡ self.now) }
    {
        Payload::make(alloc, &self.bytes)
    }
}

impl PartialEq for Payload {
    ghost use Rattle.std.specs.Str.{bytes_eq};
    ghost use Rattle.std.specs.Cmp.{partial_equiv_from_equiv};
    ghost use Rattle.std.specs.Cmp.Lexicographic.{nat_list_eq_equiv};

    ghost eq = { bytes_eq };

    ghost laws = { partial_equiv_from_equiv nat_list_eq_equiv };

    /// Whether both have the same bytes.
    fn eq(&self, other: &Payload) -> bool
        ensures test { result ≡ bytes_eq self.now other.now }
        ensures same { IsTrue result ↔ (self.now ≡ other.now) }
    {
        self.bytes() == other.bytes()
    }
}

impl Eq for Payload {
    ghost use Rattle.std.specs.Cmp.Lexicographic.{nat_list_eq_equiv};

    ghost laws = { nat_list_eq_equiv };
}
