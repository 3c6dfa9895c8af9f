//! Lines as they come, from a reader that isn't at its end yet.

ghost use Rattle.std.specs.Prelude.{◌≡◌, ◌≢◌, ◌≤◌, true, false, length, Ok, IfOk, IfErr, OnOk, OnErr, IsErrOf};
ghost use Rattle.std.specs.Io.KnownBytes.{IsAtEnd, Keeps};
ghost use Rattle.fy_lines.specs.Readings.{ReadsLine, HasLongLine, ReadsWithinLine, ReadsInsideLine, ReadsPiece};
ghost use Rattle.fy_lines.specs.declared.input.InputFault.TheVariants.{TooLong};

use crate::input::InputFault;
use crate::split::split_at_newline;
use std::io::BufRead;

/// Where a piece of a line ends.
#[derive(Clone, Copy)]
enum Piece {
    /// At the end of the reader, and the piece is empty.
    End,
    /// At the line's feed.
    Feed,
    /// Inside of the line.
    Inside,
}

/// Reads what the reader shows of a line into the buffer, behind what that holds, up to the line
/// feed, which is read too and left out.
///
/// # Errors
///
/// `Reader` and `NoMemory`, as `next_line`; nothing was read then.
fn read_piece<R: BufRead>(reader: &mut R, line: &mut Vec<u8>) -> Result<Piece, InputFault>
    ensures read { IfOk result (ReadsPiece (R.remaining reader.old) (R.remaining reader.new)
        line.old.items line.new.items) }
    ensures unread { OnErr result (Keeps (R.remaining reader.old) (R.remaining reader.new)) }
    ensures fault { IfErr result (λ fault. fault ≢ TooLong) }
{
    let Ok(chunk) = reader.fill_buf() else {
        return Err(InputFault::Reader);
    };
    if chunk.is_empty() {
        return Ok(Piece::End);
    }
    match split_at_newline(chunk) {
        Some((end, _)) => {
            let count = end.len();
            line.extend_from_slice(end)?;
            reader.consume(count + 1);
            Ok(Piece::Feed)
        }
        None => {
            let count = chunk.len();
            line.extend_from_slice(chunk)?;
            reader.consume(count);
            Ok(Piece::Inside)
        }
    }
}

/// Puts the next line in place of what the buffer holds, without its line feed, which the last line
/// may lack. The answer is whether there is one.
///
/// Once the line feed is there the reader is asked for nothing more, so that a line can be answered
/// before the next one is written.
///
/// # Errors
///
/// `TooLong` only where the line has more than `most` bytes, `Reader` where a call of the reader
/// fails (also where it was interrupted), and `NoMemory` where there is no room for the line;
/// whichever comes first. No byte behind the line's feed was read. At `Reader` and `NoMemory` the
/// feed wasn't either, nor more than `most` bytes of the line.
pub fn next_line<R: BufRead>(
    reader: &mut R,
    line: &mut Vec<u8>,
    most: usize,
) -> Result<bool, InputFault>
    ensures line { result ≡ Ok true →
        ReadsLine (R.remaining reader.old) (R.remaining reader.new) line.new.items }
    ensures within { OnOk result (length line.new.items ≤ most) }
    ensures end { result ≡ Ok false → IsAtEnd (R.remaining reader.old) }
    ensures too_long { IsErrOf result InputFault.TooLong →
        HasLongLine (R.remaining reader.old) most }
    ensures inside { IfErr result (λ fault. fault ≢ TooLong →
        ReadsInsideLine (R.remaining reader.old) (R.remaining reader.new) most) }
    ensures no_further { ReadsWithinLine (R.remaining reader.old) (R.remaining reader.new) }
{
    line.clear();
    while line.len() <= most {
        match read_piece(reader, line)? {
            Piece::Inside => {}
            Piece::End => return Ok(!line.is_empty()),
            Piece::Feed => {
                return if line.len() <= most {
                    Ok(true)
                } else {
                    Err(InputFault::TooLong)
                };
            }
        }
    }
    Err(InputFault::TooLong)
}
