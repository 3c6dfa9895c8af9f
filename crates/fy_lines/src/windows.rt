//! A window over an input that is read piece by piece, up to a limit of the whole.

ghost use Rattle.std.specs.Prelude.{◌≡◌, ◌≤◌, ◌<◌, ◌+◌, ◌-◌, ◌^◌, [], length, take, drop, true, false, slice_range, vec_len, Ok, OnOk, IfOk, IfErr, OnErr};
ghost use Rattle.std.specs.Io.KnownBytes.{Consumes, Keeps, IsAtEnd};
ghost use Rattle.fy_lines.specs.Windows.{Slides, ReadsOn, IsNext, IsCut};
ghost use Rattle.fy_lines.specs.declared.input.InputFault.TheVariants.{Reader};
ghost use Rattle.fy_lines.specs.declared.windows.TheConstants.{WINDOW_BYTES};

use crate::input::InputFault;
use crate::split::split_at_newline;
use std::alloc::{AllocError, Global};
use std::io::Read;
use std::marker::Model;

/// How many bytes a window can hold: 131,072.
pub const WINDOW_BYTES: usize = 131_072;

/// The bytes of an input that were read and not taken yet, and how many were read in all.
#[derive(Drop)]
pub struct Window {
    /// What is held stands from `start` to `end`.
    buffer: Vec<u8>,
    start: usize,
    end: usize,
    read: usize,
}

impl Model for Window {
    ghost use Rattle.fy_lines.specs.Windows.{WindowState};

    ghost Value = { WindowState };

    ghost use Rattle.fy_lines.specs.WindowFields.{window_state, IsSound};

    ghost view = { window_state };

    ghost invariant = { IsSound };
}

/// What the next line of an input is.
#[derive(Clone, Copy, Debug, PartialEq, Eq)]
pub enum NextLine {
    /// So many bytes, and then its line feed.
    Whole(usize),
    /// More bytes than was asked for.
    Long,
    /// The last bytes of the input, so many, without a line feed; none where nothing is left.
    Last(usize),
}

/// Reads once, into so many bytes of the buffer behind its first ones.
///
/// # Errors
///
/// `Reader` where the call of `read` fails.
fn read_behind<R: Read>(
    reader: &mut R,
    buffer: &mut Vec<u8>,
    first: usize,
    most: usize,
) -> Result<usize, InputFault>
    requires room { first + most ≤ vec_len buffer.old }
    ensures len { vec_len buffer.new ≡ vec_len buffer.old }
    ensures before { take first buffer.new.items ≡ take first buffer.old.items }
    ensures read { IfOk result (λ count. Consumes (R.remaining reader.old) (R.remaining reader.new)
        (slice_range buffer.new.items first (first + count))) }
    ensures few { IfOk result (λ count. count ≤ most) }
    ensures at_end { IfOk result (λ count. count ≡ 0 → 0 < most →
        IsAtEnd (R.remaining reader.new)) }
    ensures unread { OnErr result (Keeps (R.remaining reader.old) (R.remaining reader.new)) }
    ensures fault { IfErr result (λ fault. fault ≡ Reader) }
{
    match reader.read(&mut buffer.as_mut_slice()[first..first + most]) {
        Ok(count) => Ok(count),
        Err(_) => Err(InputFault::Reader),
    }
}

/// Moves a part of the buffer to its front.
fn move_to_front(buffer: &mut Vec<u8>, start: usize, end: usize)
    requires ordered { start ≤ end }
    requires inside { end ≤ vec_len buffer.old }
    ensures moved { take (end - start) buffer.new.items ≡ slice_range buffer.old.items start end }
    ensures len { vec_len buffer.new ≡ vec_len buffer.old }
{
    if start > 0 {
        buffer.copy_within(start..end, 0);
    }
}

impl Window {
    /// A window that holds nothing.
    ///
    /// # Errors
    ///
    /// `AllocError` where the allocation of its buffer fails, which never grows.
    pub fn make(alloc: Global) -> Result<Window, AllocError>
        ensures held { IfOk result (λ window. window.held ≡ []) }
        ensures read { IfOk result (λ window. window.read ≡ 0) }
    {
        Ok(Window {
            buffer: Vec::from_elem(alloc, 0, WINDOW_BYTES)?,
            start: 0,
            end: 0,
            read: 0,
        })
    }

    /// All that is held.
    pub fn held(&self) -> &[u8]
        ensures { result.now ≡ self.now.held }
    {
        &self.buffer[self.start..self.end]
    }

    /// Takes the first bytes that are held.
    pub fn drop_front(&mut self, count: usize)
        requires { count ≤ length self.old.held }
        ensures held { self.new.held ≡ drop count self.old.held }
        ensures read { self.new.read ≡ self.old.read }
    {
        self.start += count;
    }

    /// Takes all that is held.
    fn drop_all(&mut self)
        ensures held { self.new.held ≡ [] }
        ensures read { self.new.read ≡ self.old.read }
    {
        self.start = self.end;
    }

    /// Reads once more, and holds what comes behind what is held. The answer is whether the reader
    /// gave anything: it is at its end where it didn't.
    ///
    /// # Errors
    ///
    /// `Reader` where the call of `read` fails. `TooLong` where more than `limit` bytes were read
    /// then: one byte more.
    fn fill<R: Read>(&mut self, reader: &mut R, limit: usize) -> Result<bool, InputFault>
        requires room { length self.old.held < WINDOW_BYTES }
        requires within { self.old.read ≤ limit }
        requires countable { limit < 2 ^ 63 }
        ensures slides { Slides self.old self.new
            (R.remaining reader.old) (R.remaining reader.new) }
        ensures grown { result ≡ Ok true → self.old.read < self.new.read }
        ensures at_end { result ≡ Ok false → IsAtEnd (R.remaining reader.new) }
        ensures none { result ≡ Ok false → self.new.read ≡ self.old.read }
        ensures within { OnOk result (self.new.read ≤ limit) }
        ensures cut { IfErr result (IsCut self.new.read limit) }
    {
        move_to_front(&mut self.buffer, self.start, self.end);
        self.end -= self.start;
        self.start = 0;
        // One byte past the limit is asked for, which tells a long input from one that just fits.
        let most = (limit - self.read).min(WINDOW_BYTES - self.end - 1) + 1;
        let count = read_behind(reader, &mut self.buffer, self.end, most)?;
        self.end += count;
        self.read += count;
        if self.read > limit {
            return Err(InputFault::TooLong);
        }
        Ok(count > 0)
    }

    /// Reads until the next line is held whole, or is longer than `most` bytes, or the input ends.
    ///
    /// # Errors
    ///
    /// `TooLong` where the input has more than `limit` bytes, whatever its lines are: one byte past
    /// the limit was read. `Reader` where a call of `read` fails (also where it was interrupted):
    /// none past the limit was read.
    pub fn find_line<R: Read>(
        &mut self,
        reader: &mut R,
        most: usize,
        limit: usize,
    ) -> Result<NextLine, InputFault>
        requires room { most < WINDOW_BYTES }
        requires within { self.old.read ≤ limit }
        requires countable { limit < 2 ^ 63 }
        ensures found { IfOk result (IsNext self.new.held (R.remaining reader.new) most) }
        ensures slides { Slides self.old self.new
            (R.remaining reader.old) (R.remaining reader.new) }
        ensures within { OnOk result (self.new.read ≤ limit) }
        ensures cut { IfErr result (IsCut self.new.read limit) }
    {
        loop {
            let held = self.held();
            if let Some((line, _)) = split_at_newline(held) {
                let count = line.len();
                return if count <= most {
                    Ok(NextLine::Whole(count))
                } else {
                    Ok(NextLine::Long)
                };
            }
            let count = held.len();
            if count > most {
                return Ok(NextLine::Long);
            }
            if !self.fill(reader, limit)? {
                return Ok(NextLine::Last(count));
            }
        }
    }

    /// Reads to the end of the input, and holds nothing of what was held.
    ///
    /// # Errors
    ///
    /// Those of `find_line`.
    pub fn drain<R: Read>(&mut self, reader: &mut R, limit: usize) -> Result<(), InputFault>
        requires within { self.old.read ≤ limit }
        requires countable { limit < 2 ^ 63 }
        ensures read { ReadsOn self.old self.new (R.remaining reader.old) (R.remaining reader.new) }
        ensures held { self.old.read + length self.new.held ≤ self.new.read }
        ensures at_end { OnOk result (IsAtEnd (R.remaining reader.new)) }
        ensures within { OnOk result (self.new.read ≤ limit) }
        ensures cut { IfErr result (IsCut self.new.read limit) }
    {
        self.drop_all();
        while self.fill(reader, limit)? {
            self.drop_all();
        }
        Ok(())
    }
}
