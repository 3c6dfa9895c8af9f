//! Laws of texts, for the crates above, and the limit as a number.
ghost use Rattle.std.specs.Prelude.{◌≡◌};
ghost use Rattle.fy_spelling.specs.OneText.{OneEntryPerText, OneHeldEntryPerText, LineIsUnambiguous, TextsAreLines, HeldTextsAreLines};
ghost use Rattle.fy_spelling.specs.Plain.{PlainTextParses};
ghost use Rattle.fy_spelling.specs.Rows.{EntryTexts, ReplyTexts, ActTexts, CommandText};
ghost use Rattle.fy_spelling.specs.declared.command.TheConstants.{MOST_LINE_BYTES};

/// Two entries with one text, whose numbers and names fit, are equal.
pub fn a_text_is_of_one_entry()
    ensures { OneEntryPerText }
{}

/// The text of an entry, whose numbers and names fit, has no line feed.
pub fn a_text_is_a_line()
    ensures { TextsAreLines }
{}

/// Two entries that a program can hold and that have one text are equal, and their text has no line
/// feed: also where a rule names its policy by a number of more than 32 bits, of which no line is
/// read.
pub fn a_held_text_is_of_one_entry()
    ensures one { OneHeldEntryPerText }
    ensures lines { HeldTextsAreLines }
{}

/// A line of a script asks for one command, or has one first fault.
pub fn lines_are_unambiguous()
    ensures { LineIsUnambiguous }
{}

/// The plain text of a command, whose numbers and names fit, is a line that asks for it.
pub fn plain_text_parses()
    ensures { PlainTextParses }
{}

/// Entries, replies, acts and a command have the texts that are written out by hand.
pub fn texts_are_as_written_out()
    ensures entries { EntryTexts }
    ensures replies { ReplyTexts }
    ensures acts { ActTexts }
    ensures command { CommandText }
{}

/// The limit of this crate, as a number.
pub fn limits()
    ensures line_bytes { MOST_LINE_BYTES ≡ 65536 }
{}
