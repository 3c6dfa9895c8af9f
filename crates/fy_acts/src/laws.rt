//! Laws of acts and entries, for the crates above, and the limit as a number.
ghost use Rattle.std.specs.Prelude.{◌≡◌, ◌↔◌, IsTrue};
ghost use Rattle.fy_acts.specs.declared.act.Act.{Act};
ghost use Rattle.fy_acts.specs.declared.reply.Reply.{Reply};
ghost use Rattle.fy_acts.specs.declared.entry.Entry.{Entry};
ghost use Rattle.fy_acts.specs.declared.limits.TheConstants.{MOST_ENTRIES};

use crate::{Act, Entry, Reply};

/// Acts are equal where they are the same, and so are replies and entries.
pub fn equal_is_the_same()
    ensures acts { (a b : Act) → IsTrue (⟦<Act as PartialEq>⟧.eq a b) ↔ (a ≡ b) }
    ensures replies { (a b : Reply) → IsTrue (⟦<Reply as PartialEq>⟧.eq a b) ↔ (a ≡ b) }
    ensures entries { (a b : Entry) → IsTrue (⟦<Entry as PartialEq>⟧.eq a b) ↔ (a ≡ b) }
{}

/// The limit of this crate, as a number.
pub fn limits()
    ensures entries { MOST_ENTRIES ≡ 4294967296 }
{}
