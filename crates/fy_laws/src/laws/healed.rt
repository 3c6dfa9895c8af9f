//! Copies and healing: who was destroyed gets its records again, and may stand for another.
ghost use Rattle.std.specs.Prelude.{◌≡◌, true, false, [], ◌∷◌, Some, None, length, filter};
ghost use Rattle.fy_net.specs.declared.message.Body.TheVariants.{Store, Synced};
ghost use Rattle.fy_cluster.specs.History.{history, destroyed, gone, up, sent, synced, unsynced, in_flight, marked, acked, keeper};
ghost use Rattle.fy_cluster.specs.Replies.{Legal};
ghost use Rattle.fy_laws.specs.Clusters.{six, members, process};
ghost use Rattle.fy_laws.specs.Records.{item, hi};
ghost use Rattle.fy_laws.specs.Healed.{still_needed, copied_back, healed, healed_stands_in, ack_voided, mark_taken, marked_again, own_ack_voided, later_acks_delivered, refused_takes_nothing, destroyed_again, one_of_two_healed, not_healed, least_needed, copies_refused, copied_along, copied_to_who_is_down, not_copied_while_down};

/// A member that was emptied isn't healed while it lacks an acknowledged record.
pub fn still_needed()
    ensures legal { Legal six still_needed }
    ensures destroyed { members (destroyed (history six still_needed)) ≡ 0 ∷ [] }
{}

/// A copy is a store like any other: it is written, and then synced.
pub fn copied_back()
    ensures legal { Legal six copied_back }
    ensures synced { synced (history six copied_back) 0 ≡ item 0 hi ∷ [] }
    ensures destroyed { members (destroyed (history six copied_back)) ≡ 0 ∷ [] }
    ensures in_flight { members (in_flight (history six copied_back)) ≡ 5 ∷ [] }
    ensures keeper { keeper six (history six copied_back) 0 ≡ Some (process 2) }
{}

/// Who is healed is destroyed no longer, and keeps its disk and its marks for acknowledged records.
pub fn healed()
    ensures legal { Legal six healed }
    ensures destroyed { members (destroyed (history six healed)) ≡ [] }
    ensures synced { synced (history six healed) 0 ≡ item 0 hi ∷ [] }
    ensures marked { members (marked (history six healed) 0) ≡ 0 ∷ 2 ∷ [] }
    ensures acked { acked (history six healed) 0 ≡ true }
    ensures in_flight { members (in_flight (history six healed)) ≡ [] }
    ensures keeper { keeper six (history six healed) 0 ≡ Some (process 0) }
{}

/// Who is healed may stand for another that is lost.
pub fn healed_stands_in()
    ensures legal { Legal six healed_stands_in }
    ensures destroyed { members (destroyed (history six healed_stands_in)) ≡ 2 ∷ [] }
    ensures acked { acked (history six healed_stands_in) 0 ≡ true }
    ensures keeper { keeper six (history six healed_stands_in) 0 ≡ Some (process 0) }
{}

/// A heal takes the word that was sent before out of the network.
pub fn ack_voided()
    ensures legal { Legal six ack_voided }
    ensures destroyed { members (destroyed (history six ack_voided)) ≡ [] }
    ensures in_flight { members (in_flight (history six ack_voided)) ≡ [] }
    ensures marked { members (marked (history six ack_voided) 0) ≡ 2 ∷ [] }
    ensures acked { acked (history six ack_voided) 0 ≡ false }
{}

/// A heal takes away the mark for a record that isn't acknowledged.
pub fn mark_taken()
    ensures legal { Legal six mark_taken }
    ensures marked { members (marked (history six mark_taken) 0) ≡ 2 ∷ [] }
    ensures acked { acked (history six mark_taken) 0 ≡ false }
    ensures keeper { keeper six (history six mark_taken) 0 ≡ None }
{}

/// What is synced after a heal is a mark again.
pub fn marked_again()
    ensures legal { Legal six marked_again }
    ensures marked { members (marked (history six marked_again) 0) ≡ 0 ∷ 2 ∷ [] }
    ensures acked { acked (history six marked_again) 0 ≡ true }
    ensures keeper { keeper six (history six marked_again) 0 ≡ Some (process 0) }
{}

/// A heal takes the words of its process alone: neither other words nor stores, not even those to
/// it.
pub fn own_ack_voided()
    ensures legal { Legal six own_ack_voided }
    ensures in_flight { members (in_flight (history six own_ack_voided)) ≡ 2 ∷ 3 ∷ 5 ∷ [] }
    ensures words { filter (in_flight (history six own_ack_voided)) (4 ∷ 5 ∷ 6 ∷ []) ≡ 5 ∷ [] }
{}

/// A heal takes no word that is sent later.
pub fn later_acks_delivered()
    ensures legal { Legal six later_acks_delivered }
    ensures first { members (marked (history six later_acks_delivered) 0) ≡ 2 ∷ [] }
    ensures second { members (marked (history six later_acks_delivered) 1) ≡ 0 ∷ [] }
{}

/// A refused heal takes nothing away.
pub fn refused_takes_nothing()
    ensures legal { Legal six refused_takes_nothing }
    ensures marked { members (marked (history six refused_takes_nothing) 0) ≡ 0 ∷ [] }
{}

/// Who was healed and is destroyed again counts again.
pub fn destroyed_again()
    ensures legal { Legal six destroyed_again }
    ensures destroyed { members (destroyed (history six destroyed_again)) ≡ 2 ∷ [] }
    ensures up { members (up (history six destroyed_again)) ≡ 0 ∷ 1 ∷ 3 ∷ 4 ∷ 5 ∷ [] }
{}

/// A heal is of one process.
pub fn one_of_two_healed()
    ensures legal { Legal six one_of_two_healed }
    ensures destroyed { members (destroyed (history six one_of_two_healed)) ≡ 1 ∷ [] }
{}

/// Nobody is healed who isn't there, is gone, isn't destroyed or is down.
pub fn not_healed()
    ensures legal { Legal six not_healed }
    ensures destroyed { members (destroyed (history six not_healed)) ≡ 0 ∷ 1 ∷ [] }
    ensures gone { members (gone (history six not_healed)) ≡ 0 ∷ [] }
{}

/// Of several records that are lacking the least is named.
pub fn least_needed()
    ensures legal { Legal six least_needed }
    ensures destroyed { members (destroyed (history six least_needed)) ≡ [] }
    ensures synced { synced (history six least_needed) 0
        ≡ item 0 (10 ∷ []) ∷ item 1 (11 ∷ []) ∷ [] }
    ensures acked { acked (history six least_needed) 1 ≡ true }
{}

/// Nothing is copied by who is down or lacks it, nor to who is gone.
pub fn copies_refused()
    ensures legal { Legal six copies_refused }
    ensures gone { members (gone (history six copies_refused)) ≡ 0 ∷ [] }
    ensures sent { length (sent (history six copies_refused)) ≡ 4 }
{}

/// A copy goes to a member or not, before its record is acknowledged and after.
pub fn copied_along()
    ensures legal { Legal six copied_along }
    ensures sent { sent (history six copied_along)
        ≡ Store 0 (process 0) ∷ Store 0 (process 2) ∷ Synced 0 (process 0) ∷ Store 0 (process 1)
        ∷ Synced 0 (process 1) ∷ Store 0 (process 2) ∷ [] }
    ensures marked { members (marked (history six copied_along) 0) ≡ 1 ∷ [] }
    ensures acked { acked (history six copied_along) 0 ≡ false }
    ensures keeper { keeper six (history six copied_along) 0 ≡ None }
{}

/// A copy may be for who is down.
pub fn copied_to_who_is_down()
    ensures legal { Legal six copied_to_who_is_down }
    ensures written { unsynced (history six copied_to_who_is_down) 0 ≡ item 0 hi ∷ [] }
    ensures synced { synced (history six copied_to_who_is_down) 0 ≡ [] }
{}

/// Who is down copies nothing, though it has the record.
pub fn not_copied_while_down()
    ensures legal { Legal six not_copied_while_down }
    ensures synced { synced (history six not_copied_while_down) 2 ≡ item 0 hi ∷ [] }
    ensures up { members (up (history six not_copied_while_down)) ≡ 1 ∷ 3 ∷ 4 ∷ 5 ∷ [] }
{}
