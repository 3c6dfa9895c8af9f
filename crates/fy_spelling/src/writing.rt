//! Texts of acts, replies, entries and commands, written after what a buffer has.
ghost use Rattle.std.specs.Prelude.{◌≡◌, ◌+◌, ◌<◌, ◌≤◌, ◌++◌, OnOk, OnErr, IfOk, decimal, string_bytes, length, take, vec_capacity};
ghost use Rattle.fy_spelling.specs.Values.{text_of};
ghost use Rattle.fy_spelling.specs.AppendsOrOom.{AppendsOrOom};
ghost use Rattle.fy_spelling.specs.Pieces.{one_text, between_text, asked_text, front_text, entry_pieces, NeedsNoEscape};
ghost use Rattle.fy_spelling.specs.Plain.{command_text};

mod acts;
mod replies;

use crate::fits::{act_fits, entry_is_representable};
use crate::{Command, Entry};
use acts::put_act;
use itoa::Buffer;
use replies::put_reply;
use std::alloc::{AllocError, Global};

/// Writes a text.
#[inline(always)]
fn put(out: &mut Vec<u8>, text: &str) -> Result<(), AllocError>
    ensures { AppendsOrOom result out.old out.new text.now }
{
    out.extend_from_slice(text.as_bytes())
}

/// Writes a number in decimal.
#[inline(always)]
fn put_decimal(out: &mut Vec<u8>, n: u64) -> Result<(), AllocError>
    ensures { AppendsOrOom result out.old out.new (decimal n) }
{
    let mut digits = Buffer::new();
    put(out, digits.format(n))
}

/// A text and then a number.
#[inline(always)]
fn put_number(out: &mut Vec<u8>, head: &str, n: u64) -> Result<(), AllocError>
    ensures { AppendsOrOom result out.old out.new (head.now ++ decimal n) }
{
    put(out, head)?;
    put_decimal(out, n)
}

/// A text and then a word.
#[inline(always)]
fn put_word(out: &mut Vec<u8>, head: &str, word: &str) -> Result<(), AllocError>
    ensures { AppendsOrOom result out.old out.new (head.now ++ word.now) }
{
    put(out, head)?;
    put(out, word)
}

/// A number between two texts.
#[inline(always)]
fn put_between(out: &mut Vec<u8>, head: &str, n: u64, tail: &str) -> Result<(), AllocError>
    ensures { AppendsOrOom result out.old out.new (between_text head.now n tail.now) }
{
    put_number(out, head, n)?;
    put(out, tail)
}

/// An object with one number.
#[inline(always)]
fn put_one(out: &mut Vec<u8>, head: &str, n: u64) -> Result<(), AllocError>
    ensures { AppendsOrOom result out.old out.new (one_text head.now n) }
{
    put_between(out, head, n, "}}")
}

/// Writes a command; where an allocation fails, a part of it may stay.
fn put_pieces(out: &mut Vec<u8>, command: &Command) -> Result<(), AllocError>
    ensures text { AppendsOrOom result out.old out.new (asked_text command.now) }
    ensures bare { OnOk result (NeedsNoEscape command.now.act) }
{
    put_number(out, "{\"by\":", command.by as u64)?;
    put(out, ",\"act\":")?;
    put_act(out, &command.act)?;
    put(out, "}")
}

/// What a writer answered; where an allocation failed, the buffer is cut back to this length.
fn all_or_nothing(
    out: &mut Vec<u8>,
    length: usize,
    put: Result<(), AllocError>,
) -> Result<(), AllocError>
    ensures answer { result ≡ put }
    ensures ok { OnOk result (out.new.items ≡ out.old.items) }
    ensures err { OnErr result (out.new.items ≡ take length out.old.items) }
    ensures capacity { vec_capacity out.new ≡ vec_capacity out.old }
{
    match put {
        Ok(()) => Ok(()),
        Err(refused) => {
            out.truncate(length);
            Err(refused)
        }
    }
}

/// Writes the plain text of a command, without a line end, after what the buffer has.
///
/// # Errors
///
/// `AllocError` where an allocation fails; the buffer then has what it had.
pub fn put_command(out: &mut Vec<u8>, command: &Command) -> Result<(), AllocError>
    ensures ok { OnOk result (out.new.items ≡ out.old.items ++ command_text command.now) }
    ensures err { OnErr result (out.new.items ≡ out.old.items) }
{
    let length = out.len();
    let put = put_pieces(out, command);
    all_or_nothing(out, length, put)
}

/// Writes an entry up to its reply.
fn put_front(out: &mut Vec<u8>, entry: &Entry) -> Result<(), AllocError>
    ensures text { AppendsOrOom result out.old out.new (front_text entry.now) }
    ensures bare { OnOk result (NeedsNoEscape entry.now.act) }
{
    put(out, "{\"act\":")?;
    put_act(out, &entry.act)?;
    put_number(out, ",\"at\":", entry.at as u64)?;
    put_number(out, ",\"by\":", entry.by as u64)
}

/// Writes an entry; where an allocation fails, a part of it may stay.
fn put_entry_pieces(out: &mut Vec<u8>, entry: &Entry) -> Result<(), AllocError>
    ensures text { AppendsOrOom result out.old out.new (entry_pieces entry.now) }
    ensures bare { OnOk result (NeedsNoEscape entry.now.act) }
{
    put_front(out, entry)?;
    put_reply(out, &entry.reply)
}

/// Writes the one text of an entry, without a line end, after what the buffer has.
///
/// # Errors
///
/// `AllocError` where an allocation fails, and the buffer's capacity is too small for it; the
/// buffer then has what it had.
pub fn put_entry(out: &mut Vec<u8>, entry: &Entry) -> Result<(), AllocError>
    ensures ok { OnOk result (out.new.items ≡ out.old.items ++ text_of entry.now) }
    ensures err { OnErr result (out.new.items ≡ out.old.items) }
    ensures full { OnErr result
        (vec_capacity out.old < length out.old.items + length (text_of entry.now)) }
    ensures capacity { OnOk result (vec_capacity out.old ≤ vec_capacity out.new) }
{
    act_fits(&entry.act);
    let length = out.len();
    let put = put_entry_pieces(out, entry);
    all_or_nothing(out, length, put)
}

/// The one text of an entry, without a line end.
///
/// # Errors
///
/// `AllocError` where an allocation fails.
pub fn entry_text(alloc: Global, entry: &Entry) -> Result<String, AllocError>
    ensures { IfOk result (λ text. string_bytes text ≡ text_of entry.now) }
{
    entry_is_representable(entry);
    let mut bytes = Vec::new(alloc);
    put_entry(&mut bytes, entry)?;
    match String::from_utf8(bytes) {
        Ok(text) => Ok(text),
        Err(_) => unreachable!(),
    }
}
