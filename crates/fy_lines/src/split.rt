//! Lines of a slice.

ghost use Rattle.std.specs.Prelude.{◌≡◌, ◌<◌, ◌∷◌, ◌++◌, length, IfSome, IfNone};
ghost use Rattle.fy_lines.specs.Lines.{lines_of, IsLine, BeginsWithLine};

use memchr::memchr;

/// The first line without its line feed, and all that follows it. The last line may lack the feed.
#[tactic(auto, using(crate::proofs::SplitLemmas::lines_of_split, crate::proofs::SplitLemmas::lines_of_lone))]
pub fn first_line(bytes: &[u8]) -> (&[u8], &[u8])
    requires { 0 < length bytes.now }
    ensures split { BeginsWithLine bytes.now result.0.now result.1.now }
    ensures first { lines_of bytes.now ≡ result.0.now ∷ lines_of result.1.now }
    ensures shorter { length result.1.now < length bytes.now }
{
    match split_at_newline(bytes) {
        Some((line, rest)) => (line, rest),
        None => (bytes, &[]),
    }
}

/// The first line without its line feed, and all that follows it; `None` where no line feed is
/// left, so that a last line without its feed is told apart from one that has it.
pub fn split_at_newline(bytes: &[u8]) -> Option<(&[u8], &[u8])>
    ensures some { IfSome result (λ p. (bytes.now ≡ p.0.now ++ 10 ∷ p.1.now) × IsLine p.0.now) }
    ensures none { IfNone result (IsLine bytes.now) }
{
    let end = memchr(b'\n', bytes)?;
    Some((&bytes[..end], &bytes[end + 1..]))
}
