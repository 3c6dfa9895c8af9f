//! Writes sets of kinds.
ghost use Rattle.std.specs.Prelude.{◌≡◌, ◌++◌, ◌||◌, [], ◌∷◌, IfOk, OnOk, if◌then◌else◌, false};
ghost use Rattle.fy_kinds.specs.Kinds.{Striking, Clogging, deed_text};
ghost use Rattle.fy_kinds.specs.declared.kind.Kind.TheVariants.{RebootProcess, Reboot, RebootAndDelete, KillInstantly};
ghost use Rattle.fy_spelling.specs.Pieces.{deeds_text};
ghost use Rattle.fy_spelling.specs.Values.{in_order};
ghost use Rattle.serde_json.specs.Written.{comma_if};
ghost use Rattle.fy_asking.specs.ToldPieces.{quoted_text};

use super::{put_comma, put_quoted};
use fy_kinds::{Kind, KindSet};
use std::alloc::AllocError;

/// A word where it is in the set, with a comma where one stands before it. The answer is whether
/// one stands there now.
fn put_deed(out: &mut Vec<u8>, later: bool, is: bool, word: &str) -> Result<bool, AllocError>
    ensures text { OnOk result (out.new.items ≡ out.old.items
        ++ (if is then comma_if later ++ quoted_text [] word.now else [])) }
    ensures later { IfOk result (λ now. now ≡ (later || is)) }
{
    if !is {
        return Ok(later);
    }
    put_comma(out, later)?;
    put_quoted(out, "", word.as_bytes())?;
    Ok(true)
}

/// Writes the words of a set of kinds, the mildest first and clogging last.
pub(crate) fn put_kinds(out: &mut Vec<u8>, kinds: KindSet) -> Result<(), AllocError>
    ensures { OnOk result (out.new.items ≡ out.old.items ++ deeds_text false (in_order kinds)) }
{
    let one = put_deed(out, false, kinds.has(Kind::RebootProcess), "RebootProcess")?;
    let two = put_deed(out, one, kinds.has(Kind::Reboot), "Reboot")?;
    let three = put_deed(
        out,
        two,
        kinds.has(Kind::RebootAndDelete),
        "RebootAndDelete",
    )?;
    let four = put_deed(out, three, kinds.has(Kind::KillInstantly), "KillInstantly")?;
    put_deed(out, four, kinds.has_clog(), "Clog")?;
    Ok(())
}
