//! Laws of seats, for the crates above.
ghost use Rattle.std.specs.Prelude.{◌≡◌, ℕ, All, Some};
ghost use Rattle.fy_shared.specs.Yard.{Yard, new_seats};

/// The seats that a shared cluster begins with are its own.
pub fn new_seats_are_its_own()
    ensures { (yard : Yard) (from count : ℕ)
        → All (λ seat. seat.of ≡ Some yard) (new_seats yard from count) }
{}
