//! The limits as numbers.
ghost use Rattle.std.specs.Prelude.{◌≡◌};
ghost use Rattle.fy_picture.specs.declared.TheConstants.{MOST_COLUMNS, MOST_KEPT};

/// The limits of this crate, as numbers.
pub fn limits()
    ensures columns { MOST_COLUMNS ≡ 4000 }
    ensures kept { MOST_KEPT ≡ 1000 }
{}
