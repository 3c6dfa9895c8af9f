//! Laws of what a writer holds, for texts that go out piece by piece.
ghost use Rattle.std.specs.Prelude.{ℕ, List, ◌++◌, Option};
ghost use Rattle.std.specs.Io.KnownBytes.{Appends};
ghost use Rattle.fy_lines.specs.Prefixes.{AppendsProperPrefix};

/// A whole piece, and then a part of the next: together a part of each text that they begin.
pub fn short_after_whole()
    ensures { (first second third : Option (List ℕ)) → (done piece more : List ℕ) →
        Appends first second done → AppendsProperPrefix second third piece →
        AppendsProperPrefix first third (done ++ (piece ++ more)) }
{}
