//! Where an audit is cut: at a last line without its line feed.
ghost use Rattle.std.specs.Prelude.{◌≡◌, ◌<◌, ℕ, List, [], ◌∷◌, length, codes};
ghost use Rattle.fy_lines.specs.Lines.{lines_of, IsLine};
ghost use Rattle.fy_guard.specs.Cuts.{IsCutAt, IsUncut};

/// Of three lines the last is cut, and the five bytes before it are whole lines.
pub fn three_lines()
    ensures third { IsCutAt (codes "a\nbc\nd") 3 5 }
    ensures second { IsCutAt (codes "a\nbc\nd") 2 5 → ⊥ }
    ensures half { IsCutAt (codes "a\nbc\nd") 3 6 → ⊥ }
    ensures earlier { IsCutAt (codes "a\nbc\nd") 2 2 → ⊥ }
{}

/// No line is cut where the last has its line feed, and where there is none.
pub fn uncut()
    ensures whole { IsUncut (codes "a\nbc\n") }
    ensures nothing { IsUncut [] }
{}

/// Half a line may have as many bytes as a line. Behind a longer line nothing is cut, nor is it.
pub fn at_the_limit()
    ensures longest { (line : List ℕ) → IsLine line → length line ≡ 65536 → IsCutAt line 1 0 }
    ensures longer { (bytes line : List ℕ) → (more : List (List ℕ)) → lines_of bytes ≡ line ∷ more →
        65536 < length line → IsUncut bytes }
{}
