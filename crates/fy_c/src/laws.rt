//! What holds of guards and checks, and the numbers that C sees for nobody and nothing.
ghost use Rattle.std.specs.Prelude.{◌≡◌};
ghost use Rattle.fy_c.specs.declared.numbers.TheConstants.{NOBODY, NO_RECORD, NOTHING};
ghost use Rattle.fy_c.specs.declared.acting.TheConstants.{MOST_REPLY_BYTES};
ghost use Rattle.fy_c.specs.declared.checking.TheConstants.{NO_BAD_ENTRY};
ghost use Rattle.fy_c.specs.declared.planning.TheConstants.{VALUE_BYTES};
ghost use Rattle.fy_c.specs.declared.rights.TheConstants.{EVERYONE};
ghost use Rattle.fy_c.specs.declared.storing.TheConstants.{MOST_PAYLOAD};
ghost use denote.Param.Send.{IsSend};
ghost use Rattle.fy_c.specs.Checked.{WhatWasReadIsFound};
ghost use Rattle.fy_c.specs.contracts.check_handle.FyCheck as check;
ghost use Rattle.fy_c.specs.contracts.handle.FyGuard as guard;

/// A guard may be moved to another thread.
pub fn guards_are_sent()
    ensures { IsSend guard.the_row }
{}

/// A check of an audit may be moved to another thread.
pub fn checks_are_sent()
    ensures { IsSend check.the_row }
{}

/// What a check finds is found of all lines that it was given and read, from its begin on.
pub fn what_was_read_is_found()
    ensures { WhatWasReadIsFound }
{}

/// The number for no process, no record, no message, no bad entry and every process, the most bytes
/// of a reply and of a payload, and the bytes of an order's value, as numbers.
pub fn limits()
    ensures nobody { NOBODY ≡ 4294967295 }
    ensures no_record { NO_RECORD ≡ 4294967295 }
    ensures nothing { NOTHING ≡ 18446744073709551615 }
    ensures no_bad_entry { NO_BAD_ENTRY ≡ 4294967295 }
    ensures reply_bytes { MOST_REPLY_BYTES ≡ 128 }
    ensures everyone { EVERYONE ≡ 0 }
    ensures payload { MOST_PAYLOAD ≡ 32000 }
    ensures value_bytes { VALUE_BYTES ≡ 33 }
{}
