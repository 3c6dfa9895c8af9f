//! Answers in turn: a guard that answers each line with the line reads three of them.
ghost use Rattle.std.specs.Prelude.{[], codes};
ghost use Rattle.fy_worked.specs.Turns.{Stands};

/// Two lines are read. So the first is answered, and the second may be. The third isn't read, and
/// has no answer yet.
pub fn two_read()
    ensures first { Stands (codes "d\n") (codes "a\n") }
    ensures second { Stands (codes "d\n") (codes "a\nbc\n") }
    ensures none { Stands (codes "d\n") [] → ⊥ }
    ensures third { Stands (codes "d\n") (codes "a\nbc\nd\n") → ⊥ }
    ensures later { Stands (codes "d\n") (codes "bc\n") → ⊥ }
{}

/// Half of the second line is read: the first has its answer before. With all three read the first
/// answer isn't enough.
pub fn half_read()
    ensures half { Stands (codes "c\nd\n") (codes "a\n") }
    ensures none { Stands (codes "c\nd\n") [] → ⊥ }
    ensures all { Stands [] (codes "a\n") → ⊥ }
{}
