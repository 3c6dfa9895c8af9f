//! The pieces of which told lines are written, each after what a buffer has. Where an allocation
//! fails, a part may stay there.
ghost use Rattle.std.specs.Prelude.{◌≡◌, ◌++◌, ◌||◌, [], IfOk, OnOk, if◌then◌else◌, decimal};
ghost use Rattle.std.specs.FinSet as sets;
ghost use Rattle.serde_json.specs.Written.{comma_if};
ghost use Rattle.fy_spelling.specs.Pieces.{between_text};
ghost use Rattle.fy_asking.specs.ToldPieces.{members_text, optional_name_text, optional_text, quoted_text, truth_text};

pub(crate) mod kinds;
pub(crate) mod replies;

use fy_locality::{Name, ProcId, ProcSet};
use itoa::Buffer;
use std::alloc::AllocError;

/// Writes a text.
#[inline(always)]
pub(crate) fn put(out: &mut Vec<u8>, text: &str) -> Result<(), AllocError>
    ensures { OnOk result (out.new.items ≡ out.old.items ++ text.now) }
{
    out.extend_from_slice(text.as_bytes())
}

/// Writes a number in decimal.
#[inline(always)]
pub(crate) fn put_decimal(out: &mut Vec<u8>, n: u64) -> Result<(), AllocError>
    ensures { OnOk result (out.new.items ≡ out.old.items ++ decimal n) }
{
    let mut digits = Buffer::new();
    put(out, digits.format(n))
}

/// A text and then a number.
#[inline(always)]
pub(crate) fn put_number(out: &mut Vec<u8>, head: &str, n: u64) -> Result<(), AllocError>
    ensures { OnOk result (out.new.items ≡ out.old.items ++ (head.now ++ decimal n)) }
{
    put(out, head)?;
    put_decimal(out, n)
}

/// A text and then a word.
#[inline(always)]
pub(crate) fn put_word(out: &mut Vec<u8>, head: &str, word: &str) -> Result<(), AllocError>
    ensures { OnOk result (out.new.items ≡ out.old.items ++ (head.now ++ word.now)) }
{
    put(out, head)?;
    put(out, word)
}

/// A text and then a number, or `null` for none.
pub(crate) fn put_optional(out: &mut Vec<u8>, head: &str, n: Option<u64>) -> Result<(), AllocError>
    ensures { OnOk result (out.new.items ≡ out.old.items ++ optional_text head.now n) }
{
    match n {
        Some(n) => put_number(out, head, n),
        None => put_word(out, head, "null"),
    }
}

/// A text and then a truth.
pub(crate) fn put_truth(out: &mut Vec<u8>, head: &str, is: bool) -> Result<(), AllocError>
    ensures { OnOk result (out.new.items ≡ out.old.items ++ truth_text head.now is) }
{
    if is {
        put_word(out, head, "true")
    } else {
        put_word(out, head, "false")
    }
}

/// A number between two texts.
#[inline(always)]
pub(crate) fn put_between(
    out: &mut Vec<u8>,
    head: &str,
    n: u64,
    tail: &str,
) -> Result<(), AllocError>
    ensures { OnOk result (out.new.items ≡ out.old.items ++ between_text head.now n tail.now) }
{
    put_number(out, head, n)?;
    put(out, tail)
}

/// A comma, where something stands before.
#[inline(always)]
pub(crate) fn put_comma(out: &mut Vec<u8>, later: bool) -> Result<(), AllocError>
    ensures { OnOk result (out.new.items ≡ out.old.items ++ comma_if later) }
{
    put(out, if later { "," } else { "" })
}

/// A text and then a word in quotes.
pub(crate) fn put_quoted(out: &mut Vec<u8>, head: &str, word: &[u8]) -> Result<(), AllocError>
    ensures { OnOk result (out.new.items ≡ out.old.items ++ quoted_text head.now word.now) }
{
    put_word(out, head, "\"")?;
    out.extend_from_slice(word)?;
    put(out, "\"")
}

/// A text and then a name in quotes, or `null` for none.
pub(crate) fn put_optional_name(
    out: &mut Vec<u8>,
    head: &str,
    name: Option<Name>,
) -> Result<(), AllocError>
    ensures { OnOk result (out.new.items ≡ out.old.items ++ optional_name_text head.now name) }
{
    match name {
        Some(name) => put_quoted(out, head, name.as_bytes()),
        None => put_word(out, head, "null"),
    }
}

/// The numbers of the processes of a set, of those below a number, with commas between.
pub(crate) fn put_members(out: &mut Vec<u8>, set: &ProcSet, count: u32) -> Result<(), AllocError>
    ensures { OnOk result
        (out.new.items ≡ out.old.items ++ members_text (sets.contains set.now) count) }
{
    let mut later = false;
    for p in 0..count {
        later = put_member(out, later, p, set.contains(ProcId(p)))?;
    }
    Ok(())
}

/// A number where it is a member, with a comma where one stands before it. The answer is whether
/// one stands there now.
#[inline(always)]
fn put_member(out: &mut Vec<u8>, later: bool, number: u32, is: bool) -> Result<bool, AllocError>
    ensures text { OnOk result (out.new.items ≡ out.old.items
        ++ (if is then comma_if later ++ decimal number else [])) }
    ensures later { IfOk result (λ now. now ≡ (later || is)) }
{
    if !is {
        return Ok(later);
    }
    put_comma(out, later)?;
    put_decimal(out, number as u64)?;
    Ok(true)
}
