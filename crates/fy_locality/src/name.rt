//! Names of processes, machines, zones, halls and centres.
ghost use Rattle.std.specs.Prelude.{◌≡◌, ◌↔◌, IsOk, IfOk, IsTrue, true};
ghost use Rattle.std.specs.Option.{option_copied, option_map_or};
ghost use Rattle.std.specs.List.{list_all};
ghost use Rattle.fy_locality.specs.Name.{is_name, is_name_byte};

use std::hash::{Hash, Hasher};
use std::marker::Model;

/// What is no name.
#[derive(Clone, Copy, PartialEq, Eq, Debug)]
pub struct BadName;

/// The most characters that a name has.
pub const MOST_NAME_CHARACTERS: usize = 32;

/// 1 to 32 of the characters `A-Z a-z 0-9 _ -`, the first not `-`.
#[derive(Clone, Copy)]
pub struct Name {
    bytes: [u8; MOST_NAME_CHARACTERS],
    len: u8,
}

impl Model for Name {
    ghost use Rattle.std.specs.Prelude.{ℕ, List, take, length};

    ghost Value = { List ℕ };

    ghost use Rattle.fy_locality.specs.Name.{IsStored, padded};
    ghost use Rattle.fy_locality.specs.NameInverse.{padded-take, length-stored};

    ghost view = { λ n. take n.len n.bytes };

    ghost invariant = { λ n. IsStored n.bytes n.len };

    ghost inverse = { λ v. record { bytes = padded v; len = length v } };

    ghost inverse_ok = { λ a h. λ i.
        record { bytes = padded-take a.bytes a.len h i; len = length-stored a.bytes a.len h i } };
}

/// Whether a byte is a letter, a digit, `_` or `-`.
fn may_stand_in_name(byte: u8) -> bool
    ensures { result ≡ is_name_byte byte }
{
    byte.is_ascii_alphanumeric() || byte == b'_' || byte == b'-'
}

/// Whether each byte may stand in a name.
fn has_name_bytes(text: &[u8]) -> bool
    ensures { result ≡ list_all is_name_byte text.now }
{
    text.iter().all(|byte| may_stand_in_name(*byte))
}

/// Whether a text is a name.
fn spells_name(text: &[u8]) -> bool
    ensures { result ≡ is_name text.now }
{
    !text.is_empty()
        && text.len() <= MOST_NAME_CHARACTERS
        && text[0] != b'-'
        && has_name_bytes(text)
}

impl Name {
    /// The name that a text spells.
    ///
    /// # Errors
    ///
    /// `BadName` for any other text.
    pub fn make(text: &str) -> Result<Name, BadName>
        ensures accepted { IsOk result ↔ IsTrue (is_name text.now) }
        ensures value { IfOk result (λ n. n ≡ text.now) }
    {
        Name::from_bytes(text.as_bytes())
    }

    /// The name that bytes spell.
    ///
    /// # Errors
    ///
    /// `BadName` for any other bytes.
    pub fn from_bytes(given: &[u8]) -> Result<Name, BadName>
        ensures accepted { IsOk result ↔ IsTrue (is_name given.now) }
        ensures value { IfOk result (λ n. n ≡ given.now) }
    {
        if !spells_name(given) {
            return Err(BadName);
        }
        let mut bytes = [0; MOST_NAME_CHARACTERS];
        bytes[..given.len()].copy_from_slice(given);
        Ok(Name {
            bytes,
            len: given.len() as u8,
        })
    }

    /// The name's characters, each of which is one byte.
    pub fn as_bytes(&self) -> &[u8]
        ensures bytes { result.now ≡ self.now }
        ensures name { IsTrue (is_name self.now) }
    {
        &self.bytes[..self.len as usize]
    }

    /// The name as a text.
    pub fn as_str(&self) -> &str
        ensures text { result.now ≡ self.now }
        ensures name { IsTrue (is_name self.now) }
    {
        match str::from_utf8(self.as_bytes()) {
            Ok(text) => text,
            Err(_) => unreachable!(),
        }
    }
}

/// The name that a text spells, where there is a text.
///
/// # Errors
///
/// `BadName` for a text that is no name.
pub(crate) fn known(text: Option<&str>) -> Result<Option<Name>, BadName>
    ensures accepted { IsOk result
        ↔ IsTrue (option_map_or is_name (option_copied text.entry) true) }
    ensures value { IfOk result (λ n. n ≡ option_copied text.entry) }
{
    match text {
        Some(text) => Ok(Some(Name::make(text)?)),
        None => Ok(None),
    }
}

impl PartialEq for Name {
    ghost use Rattle.std.specs.Str.{bytes_eq};
    ghost use Rattle.std.specs.Cmp as cmp;
    ghost use Rattle.std.specs.Cmp.Lexicographic.{nat_list_eq_equiv};

    ghost eq = { bytes_eq };

    ghost laws = { cmp.partial_equiv_from_equiv nat_list_eq_equiv };

    fn eq(&self, other: &Self) -> bool {
        self.as_bytes() == other.as_bytes()
    }
}

impl Eq for Name {
    ghost use Rattle.std.specs.Cmp.Lexicographic.{nat_list_eq_equiv};

    ghost laws = { nat_list_eq_equiv };
}

impl Hash for Name {
    ghost use Rattle.std.specs.Hash as fed;
    ghost use Rattle.std.proofs.Common.{rules};
    ghost use Rattle.std.specs.Cmp.Rules.{comparing, hashing};

    ghost hash_input = { λ n. fed.slice fed.u8 n };

    ghost respects_eq = { Prim.search (hashing, rules) };

    fn hash<H: Hasher>(&self, state: &mut H) {
        self.as_bytes().hash(state);
    }
}
