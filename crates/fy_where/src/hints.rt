//! Which known word was probably meant.
use std::alloc::{AllocError, Global};
use strsim::levenshtein;

/// How many characters of a word are shown.
const SHOWN: usize = 40;

/// How long a word may be that is compared with those that are known.
const COMPARED: usize = 64;

/// The front of a word, as far as it is shown.
pub(crate) fn cut(word: &str) -> &str {
    match word.split_at_checked(word.floor_char_boundary(SHOWN)) {
        Some((front, _)) => front,
        None => word,
    }
}

/// The known word with which the fewest characters differ, at most every third.
fn closest<'k>(
    alloc: Global,
    word: &str,
    known: &[&'k str],
) -> Result<Option<&'k str>, AllocError> {
    let mut best = known.len();
    let mut least = usize::MAX;
    for (place, one) in known.iter().enumerate() {
        let distance = levenshtein(alloc, word, *one)?;
        if distance < least && distance.saturating_mul(3) <= word.len().max(one.len()) {
            best = place;
            least = distance;
        }
    }
    Ok(known.get(best).copied())
}

/// The known word that was probably meant: one for which `others` has this word, one that differs
/// in the case of letters alone, or the closest.
pub(crate) fn nearest<'k>(
    alloc: Global,
    word: &str,
    known: &[&'k str],
    others: &[(&str, &'k str)],
) -> Result<Option<&'k str>, AllocError> {
    if word.len() > COMPARED {
        return Ok(None);
    }
    for (other, meant) in others {
        if other.eq_ignore_ascii_case(word) {
            return Ok(Some(*meant));
        }
    }
    for one in known {
        if one.eq_ignore_ascii_case(word) {
            return Ok(Some(*one));
        }
    }
    closest(alloc, word, known)
}

/// What to write in place of a word: the one that was probably meant, else all that may stand there.
pub(crate) fn hint(
    alloc: Global,
    meant: Option<&str>,
    may: &str,
    known: &[&str],
) -> Result<String, AllocError> {
    if let Some(meant) = meant {
        return format!(in alloc; "did you mean `{meant}`?");
    }
    let mut text = String::from_str(alloc, may)?;
    let mut between = " ";
    for one in known {
        text.push_str(between)?;
        text.push_str(*one)?;
        between = ", ";
    }
    Ok(text)
}
