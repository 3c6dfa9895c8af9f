//! Pieces of a document that stand in it many times.
ghost use Rattle.std.specs.Prelude.{◌≡◌, ◌++◌, OnOk, decimal, string_bytes};

use std::alloc::AllocError;

/// Writes a text, and a number behind it. It takes half the steps of a `write!`.
pub(crate) fn push_text_and_number(
    text: &mut String,
    head: &str,
    number: u64,
) -> Result<(), AllocError>
    ensures { OnOk result
        (string_bytes text.new ≡ string_bytes text.old ++ head.now ++ decimal number) }
{
    let mut digits = itoa::Buffer::new();
    text.push_str(head)?;
    text.push_str(digits.format(number))
}
