//! Records: written, synced, torn, acknowledged and kept.
ghost use Rattle.std.specs.Prelude.{◌≡◌, true, false, [], ◌∷◌, Some, None};
ghost use Rattle.fy_net.specs.declared.message.Body.TheVariants.{Store};
ghost use Rattle.fy_cluster.specs.History.{history, destroyed, gone, up, members_for, sent, synced, unsynced, in_flight, marked, acked, keeper};
ghost use Rattle.fy_cluster.specs.Replies.{Legal};
ghost use Rattle.fy_laws.specs.Clusters.{six, four_of_one, members, process};
ghost use Rattle.fy_laws.specs.Records.{written_and_synced, forgotten, and_back, acknowledged, spared, three_written, torn, torn_and_back, torn_once, counted_anew, counted_anew_after_sync, last_bit_kept, emptied_unsynced, weakened_and_torn, restarted, not_synced_while_down, restarted_and_torn, one_ack_each, first_acknowledged, written_again, second_team, item, hi};

/// A record is acknowledged once each member's acknowledgement of it has come. Its keeper is the
/// member that isn't destroyed.
pub fn written_and_synced()
    ensures legal { Legal six written_and_synced }
    ensures keeper { keeper six (history six written_and_synced) 0 ≡ Some (process 2) }
    ensures no_other { keeper six (history six written_and_synced) 1 ≡ None }
    ensures missing { acked (history six written_and_synced) 1 ≡ false }
    ensures marked { members (marked (history six written_and_synced) 0) ≡ 0 ∷ 2 ∷ [] }
    ensures destroyed { members (destroyed (history six written_and_synced)) ≡ 0 ∷ [] }
    ensures emptied { synced (history six written_and_synced) 0 ≡ [] }
    ensures kept { synced (history six written_and_synced) 2 ≡ item 0 hi ∷ [] }
{}

/// An acknowledged record isn't sent again.
pub fn forgotten()
    ensures legal { Legal six forgotten }
    ensures keeper { keeper six (history six forgotten) 0 ≡ Some (process 2) }
    ensures no_other { keeper six (history six forgotten) 1 ≡ None }
{}

/// Once the emptied member is back, the keeper can't be emptied.
pub fn and_back()
    ensures legal { Legal six and_back }
    ensures keeper { keeper six (history six and_back) 0 ≡ Some (process 2) }
    ensures destroyed { members (destroyed (history six and_back)) ≡ 0 ∷ [] }
    ensures up { members (up (history six and_back)) ≡ 0 ∷ 1 ∷ 3 ∷ 4 ∷ 5 ∷ [] }
    ensures kept { synced (history six and_back) 2 ≡ item 0 hi ∷ [] }
{}

/// The word of a member that was killed after sending it still counts.
pub fn acknowledged()
    ensures legal { Legal six acknowledged }
    ensures keeper { keeper six (history six acknowledged) 0 ≡ Some (process 2) }
    ensures gone { members (gone (history six acknowledged)) ≡ 0 ∷ [] }
    ensures emptied { synced (history six acknowledged) 0 ≡ [] }
{}

/// The one member that is left isn't emptied, and keeps the record.
pub fn spared()
    ensures legal { Legal six spared }
    ensures keeper { keeper six (history six spared) 0 ≡ Some (process 2) }
    ensures destroyed { members (destroyed (history six spared)) ≡ 0 ∷ [] }
{}

/// What was delivered is unsynced, in order of writing.
pub fn three_written()
    ensures legal { Legal six three_written }
    ensures unsynced { unsynced (history six three_written) 0
        ≡ item 0 (10 ∷ []) ∷ item 1 (11 ∷ []) ∷ item 2 (12 ∷ []) ∷ [] }
    ensures synced { synced (history six three_written) 0 ≡ [] }
{}

/// A reboot keeps the unsynced writes whose bit is set, as synced ones, and tears the others off.
pub fn torn()
    ensures legal { Legal six torn }
    ensures synced { synced (history six torn) 0 ≡ item 0 (10 ∷ []) ∷ item 2 (12 ∷ []) ∷ [] }
    ensures unsynced { unsynced (history six torn) 0 ≡ [] }
{}

/// What a reboot kept needs no sync: no acknowledgement is sent of it.
pub fn torn_and_back()
    ensures legal { Legal six torn_and_back }
    ensures synced { synced (history six torn_and_back) 0
        ≡ item 0 (10 ∷ []) ∷ item 2 (12 ∷ []) ∷ [] }
    ensures in_flight { members (in_flight (history six torn_and_back)) ≡ 1 ∷ 3 ∷ 5 ∷ [] }
{}

/// A second reboot tears nothing off of what the first one kept.
pub fn torn_once()
    ensures legal { Legal six torn_once }
    ensures synced { synced (history six torn_once) 0 ≡ item 0 (10 ∷ []) ∷ item 2 (12 ∷ []) ∷ [] }
{}

/// The places of unsynced writes count from the last reboot.
pub fn counted_anew()
    ensures legal { Legal six counted_anew }
    ensures synced { synced (history six counted_anew) 0
        ≡ item 0 (10 ∷ []) ∷ item 2 (12 ∷ []) ∷ item 1 (11 ∷ []) ∷ [] }
{}

/// The places of unsynced writes count from the last sync, too.
pub fn counted_anew_after_sync()
    ensures legal { Legal six counted_anew_after_sync }
    ensures synced { synced (history six counted_anew_after_sync) 0
        ≡ item 0 (10 ∷ []) ∷ item 1 (11 ∷ []) ∷ item 2 (12 ∷ []) ∷ item 1 (11 ∷ []) ∷ [] }
{}

/// The last of the 64 bits is that of the place 63. The write at the place 64 has no bit, and is
/// torn off.
pub fn last_bit_kept()
    ensures legal { Legal four_of_one last_bit_kept }
    ensures synced { synced (history four_of_one last_bit_kept) 0
        ≡ item 0 (10 ∷ []) ∷ item 1 (11 ∷ []) ∷ [] }
    ensures unsynced { unsynced (history four_of_one last_bit_kept) 0 ≡ [] }
{}

/// An emptied disk keeps nothing, whatever the bits say.
pub fn emptied_unsynced()
    ensures legal { Legal six emptied_unsynced }
    ensures synced { synced (history six emptied_unsynced) 0 ≡ [] }
    ensures unsynced { unsynced (history six emptied_unsynced) 0 ≡ [] }
{}

/// A weakened order tears by its own bits.
pub fn weakened_and_torn()
    ensures legal { Legal four_of_one weakened_and_torn }
    ensures synced { synced (history four_of_one weakened_and_torn) 0 ≡ item 1 (11 ∷ []) ∷ [] }
{}

/// A restart of the process leaves its unsynced writes unsynced.
pub fn restarted()
    ensures legal { Legal six restarted }
    ensures unsynced { unsynced (history six restarted) 0
        ≡ item 0 (10 ∷ []) ∷ item 1 (11 ∷ []) ∷ [] }
    ensures synced { synced (history six restarted) 0 ≡ [] }
    ensures up { members (up (history six restarted)) ≡ 1 ∷ 2 ∷ 3 ∷ 4 ∷ 5 ∷ [] }
{}

/// A process that is down syncs nothing.
pub fn not_synced_while_down()
    ensures legal { Legal six not_synced_while_down }
    ensures unsynced { unsynced (history six not_synced_while_down) 0
        ≡ item 0 (10 ∷ []) ∷ item 1 (11 ∷ []) ∷ [] }
{}

/// A restart of the process leaves the places of its unsynced writes.
pub fn restarted_and_torn()
    ensures legal { Legal six restarted_and_torn }
    ensures synced { synced (history six restarted_and_torn) 0
        ≡ item 1 (11 ∷ []) ∷ item 2 (12 ∷ []) ∷ [] }
{}

/// A word counts for its own record and its own sender: with one word of each of two records,
/// neither is acknowledged.
pub fn one_ack_each()
    ensures legal { Legal six one_ack_each }
    ensures first { acked (history six one_ack_each) 0 ≡ false }
    ensures second { acked (history six one_ack_each) 1 ≡ false }
    ensures marked_first { members (marked (history six one_ack_each) 0) ≡ 0 ∷ [] }
    ensures marked_second { members (marked (history six one_ack_each) 1) ≡ 2 ∷ [] }
    ensures keeper { keeper six (history six one_ack_each) 0 ≡ None }
{}

/// The least member that holds an acknowledged record is its keeper.
pub fn first_acknowledged()
    ensures legal { Legal six first_acknowledged }
    ensures first { acked (history six first_acknowledged) 0 ≡ true }
    ensures second { acked (history six first_acknowledged) 1 ≡ false }
    ensures keeper { keeper six (history six first_acknowledged) 0 ≡ Some (process 0) }
    ensures no_other { keeper six (history six first_acknowledged) 1 ≡ None }
{}

/// A destroyed member is no keeper, though it has the record synced again.
pub fn written_again()
    ensures legal { Legal six written_again }
    ensures keeper { keeper six (history six written_again) 0 ≡ Some (process 2) }
    ensures synced { synced (history six written_again) 0 ≡ item 0 hi ∷ [] }
    ensures destroyed { members (destroyed (history six written_again)) ≡ 0 ∷ [] }
{}

/// A record is sent to the members of its own team, in their order.
pub fn second_team()
    ensures legal { Legal six second_team }
    ensures sent { sent (history six second_team)
        ≡ Store 0 (process 1) ∷ Store 0 (process 3) ∷ Store 0 (process 4) ∷ Store 1 (process 0)
        ∷ Store 1 (process 2) ∷ [] }
    ensures team { members_for (history six second_team) 0
        ≡ process 1 ∷ process 3 ∷ process 4 ∷ [] }
{}
