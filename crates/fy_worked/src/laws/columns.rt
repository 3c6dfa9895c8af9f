//! Columns by time: five entries, of which three have an event, and room for four columns.
ghost use Rattle.std.specs.Prelude.{[], ◌∷◌};
ghost use Rattle.fy_worked.specs.Columns.{AreColumns, AreNoColumns};

/// The last event comes after four tenths of a second. So four columns of a tenth don't reach past
/// it, nor do two of two tenths; three do. An entry that comes at the end of a column is behind it.
pub fn five_entries()
    ensures right { AreColumns 200000 (2 ∷ 3 ∷ 5 ∷ []) }
    ensures at_the_end { AreNoColumns 200000 (3 ∷ 3 ∷ 5 ∷ []) }
    ensures left_out { AreNoColumns 200000 (2 ∷ 3 ∷ 4 ∷ []) }
    ensures short { AreNoColumns 200000 (2 ∷ 3 ∷ []) }
    ensures long { AreNoColumns 200000 (2 ∷ 3 ∷ 5 ∷ 5 ∷ []) }
    ensures narrow { AreNoColumns 100000 (2 ∷ 2 ∷ 3 ∷ 3 ∷ []) }
    ensures uneven { AreNoColumns 150000 (2 ∷ 3 ∷ 5 ∷ []) }
    ensures wide { AreNoColumns 300000 (3 ∷ 5 ∷ []) }
{}
