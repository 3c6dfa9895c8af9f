//! The limits as numbers, and the law of histories that were read.
ghost use Rattle.std.specs.Prelude.{◌≡◌};
ghost use Rattle.fy_history.specs.Sound.{ReadIsSound};
ghost use Rattle.fy_history.specs.declared.TheConstants.{MOST_HISTORY_LINES, MOST_HISTORY_LINE_BYTES, MOST_WHOLE};
ghost use Rattle.fy_history.specs.declared.line.TheConstants.{MOST_CLIENTS, MOST_NODES};

/// The limits of this crate, as numbers.
pub fn limits()
    ensures lines { MOST_HISTORY_LINES ≡ 4194304 }
    ensures line_bytes { MOST_HISTORY_LINE_BYTES ≡ 65536 }
    ensures whole { MOST_WHOLE ≡ 9223372036854775808 }
    ensures clients { MOST_CLIENTS ≡ 4194304 }
    ensures nodes { MOST_NODES ≡ 1024 }
{}

/// In a history that was read no text has two numbers, no operation ended before it began, no two
/// began at one line, and no value of a key was written twice.
pub fn read_is_sound()
    ensures { ReadIsSound }
{}
