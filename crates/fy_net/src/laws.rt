//! Laws of the messages in flight, for the crates above, and the limits as numbers.
ghost use Rattle.std.specs.Prelude.{◌≡◌};
ghost use Rattle.fy_net.specs.declared.limits.TheConstants.{MOST_IN_FLIGHT, LAST_TICK};
ghost use Rattle.fy_net.specs.Numbers.{NextIsUnused, NextIsSent, EarlierStay, RemovedIsGone};

/// No number is used twice. No message in flight has the next number, which the next send takes. An
/// earlier number stays its message's, and is nobody's once that message has left.
pub fn numbers_are_never_used_again()
    ensures unused { NextIsUnused }
    ensures next { NextIsSent }
    ensures earlier { EarlierStay }
    ensures left { RemovedIsGone }
{}

/// The limits of this crate, as numbers.
pub fn limits()
    ensures in_flight { MOST_IN_FLIGHT ≡ 65536 }
    ensures last_tick { LAST_TICK ≡ 1099511627776 }
{}
