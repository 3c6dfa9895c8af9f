//! The pieces of which the text is written, each behind what is there. Where an allocation fails, a
//! part may stay there.
ghost use Rattle.std.specs.Prelude.{◌≡◌, ◌++◌, ◌<◌, OnOk, decimal, length, string_bytes};
ghost use Rattle.fy_policy.specs.Text.{text};
ghost use Rattle.fy_bears.specs.Pieces.{between, marked, member_text, names_end, names_line, names_text, none_text, number_text, policy_head};

use fy_locality::{Key, Map, Name, ProcId, ProcSet};
use fy_policy::{Policy, policy_text};
use std::alloc::{AllocError, Global};

/// A text.
#[inline(always)]
pub(crate) fn put(out: &mut String, text: &str) -> Result<(), AllocError>
    ensures { OnOk result (string_bytes out.new ≡ string_bytes out.old ++ text.now) }
{
    out.push_str(text)
}

/// A number in decimal.
pub(crate) fn put_decimal(out: &mut String, n: u64) -> Result<(), AllocError>
    ensures { OnOk result (string_bytes out.new ≡ string_bytes out.old ++ decimal n) }
{
    write!(out, "{n}")
}

/// A text and a number.
pub(crate) fn put_number(out: &mut String, head: &str, n: u64) -> Result<(), AllocError>
    ensures { OnOk result (string_bytes out.new ≡ string_bytes out.old ++ (head.now ++ decimal n)) }
{
    put(out, head)?;
    put_decimal(out, n)
}

/// A number between two texts.
pub(crate) fn put_between(
    out: &mut String,
    head: &str,
    n: u64,
    tail: &str,
) -> Result<(), AllocError>
    ensures { OnOk result
        (string_bytes out.new ≡ string_bytes out.old ++ between head.now n tail.now) }
{
    put(out, head)?;
    put_decimal(out, n)?;
    put(out, tail)
}

/// Two numbers between three texts.
pub(crate) fn put_two_numbers(
    out: &mut String,
    head: &str,
    n: u64,
    middle: &str,
    m: u64,
    tail: &str,
) -> Result<(), AllocError>
    ensures { OnOk result (string_bytes out.new ≡ string_bytes out.old
        ++ between head.now n (between middle.now m tail.now)) }
{
    put_number(out, head, n)?;
    put_between(out, middle, m, tail)
}

/// A word behind a mark, where there is a word.
pub(crate) fn put_marked(out: &mut String, mark: &str, word: Option<Name>) -> Result<(), AllocError>
    ensures { OnOk result
        (string_bytes out.new ≡ string_bytes out.old ++ marked mark.now word) }
{
    match word {
        Some(word) => {
            put(out, mark)?;
            put(out, word.as_str())
        }
        None => Ok(()),
    }
}

/// The name of a process behind a blank, where it is in the set.
fn put_member(out: &mut String, map: &Map, set: &ProcSet, p: ProcId) -> Result<(), AllocError>
    requires { p.0 < length map.now }
    ensures { OnOk result
        (string_bytes out.new ≡ string_bytes out.old ++ member_text map.now set.now p.0) }
{
    if set.contains(p) {
        put_marked(out, " ", map.value(p, Key::Process))
    } else {
        Ok(())
    }
}

/// The names of the processes of a set, a blank before each.
pub(crate) fn put_names(out: &mut String, map: &Map, set: &ProcSet) -> Result<(), AllocError>
    ensures { OnOk result
        (string_bytes out.new ≡ string_bytes out.old ++ names_text map.now set.now) }
{
    for p in 0..map.len() {
        put_member(out, map, set, ProcId(p))?;
    }
    Ok(())
}

/// That a set is empty.
fn put_none(out: &mut String, set: &ProcSet) -> Result<(), AllocError>
    ensures { OnOk result (string_bytes out.new ≡ string_bytes out.old ++ none_text set.now) }
{
    if set.len() == 0 {
        put(out, " none")
    } else {
        Ok(())
    }
}

/// The names of the processes of a set, or that there are none, and the end of the line.
pub(crate) fn put_names_end(out: &mut String, map: &Map, set: &ProcSet) -> Result<(), AllocError>
    ensures { OnOk result
        (string_bytes out.new ≡ string_bytes out.old ++ names_end map.now set.now) }
{
    put_none(out, set)?;
    put_names(out, map, set)?;
    put(out, "\n")
}

/// A line of them behind a text.
pub(crate) fn put_names_line(
    out: &mut String,
    head: &str,
    map: &Map,
    set: &ProcSet,
) -> Result<(), AllocError>
    ensures { OnOk result
        (string_bytes out.new ≡ string_bytes out.old ++ names_line head.now map.now set.now) }
{
    put(out, head)?;
    put_names_end(out, map, set)
}

/// How many are borne, exactly or at least, and how many are too many.
pub(crate) fn put_borne_number(
    out: &mut String,
    is_exact: bool,
    any: u32,
    many: u32,
) -> Result<(), AllocError>
    ensures { OnOk result
        (string_bytes out.new ≡ string_bytes out.old ++ number_text is_exact any many) }
{
    if is_exact {
        put_between(out, "exactly ", any as u64, "; too many:")
    } else {
        put_number(out, "at least ", any as u64)?;
        put_between(out, "; these ", many as u64, " are too many:")
    }
}

/// The text of a policy.
pub(crate) fn put_policy(alloc: Global, out: &mut String, policy: &Policy) -> Result<(), AllocError>
    ensures { OnOk result
        (string_bytes out.new ≡ string_bytes out.old ++ text policy.now) }
{
    let words = policy_text(alloc, policy)?;
    put(out, words.as_str())
}

/// How the line of a policy begins: with its number and its text.
pub(crate) fn put_policy_head(
    alloc: Global,
    out: &mut String,
    i: usize,
    policy: &Policy,
) -> Result<(), AllocError>
    ensures { OnOk result
        (string_bytes out.new ≡ string_bytes out.old ++ policy_head i policy.now) }
{
    put_between(out, "  policy ", i as u64, " ")?;
    put_policy(alloc, out, policy)?;
    put(out, ": ")
}
