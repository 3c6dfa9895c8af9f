//! Teams that change: a process comes in the place of a member.
ghost use Rattle.std.specs.Prelude.{◌≡◌, true, false, [], ◌∷◌, Some, None};
ghost use Rattle.fy_net.specs.declared.message.Body.TheVariants.{Store};
ghost use Rattle.fy_cluster.specs.History.{history, destroyed, gone, teams, members_of, members_for, sent, synced, marked, acked, keeper};
ghost use Rattle.fy_cluster.specs.Replies.{Legal};
ghost use Rattle.fy_laws.specs.Clusters.{six, members, process};
ghost use Rattle.fy_laws.specs.Strikes.{three_and_two};
ghost use Rattle.fy_laws.specs.Records.{pair, item, hi};
ghost use Rattle.fy_laws.specs.Replaced.{not_replaced, copied, replaced, healed_outside, stays_acknowledged, gone_replaced, mark_counts, all_marked, not_yet_acknowledged, ack_of_another_record, acknowledged_from_outside, mark_outside_taken, sent_to_members, needed_by_its_team, replaces_refused, short_by_its_policy, pair_behind};

/// Nobody comes into a team who is in it, would leave it short or lacks an acknowledged record of
/// it.
pub fn not_replaced()
    ensures legal { Legal six not_replaced }
    ensures teams { teams (history six not_replaced) ≡ record { members = pair; policy = 0 } ∷ [] }
{}

/// What is copied to who is no member leaves the team as it is.
pub fn copied()
    ensures legal { Legal six copied }
    ensures synced { synced (history six copied) 1 ≡ item 0 hi ∷ [] }
    ensures team { members_for (history six copied) 0 ≡ pair }
    ensures keeper { keeper six (history six copied) 0 ≡ Some (process 2) }
{}

/// Who has the team's acknowledged records comes into it. Who leaves it is destroyed still.
pub fn replaced()
    ensures legal { Legal six replaced }
    ensures team { members_for (history six replaced) 0 ≡ process 1 ∷ process 2 ∷ [] }
    ensures destroyed { members (destroyed (history six replaced)) ≡ 0 ∷ [] }
    ensures marked { members (marked (history six replaced) 0) ≡ 0 ∷ 2 ∷ [] }
    ensures acked { acked (history six replaced) 0 ≡ true }
    ensures keeper { keeper six (history six replaced) 0 ≡ Some (process 1) }
{}

/// Who is in no team needs no record to be healed.
pub fn healed_outside()
    ensures legal { Legal six healed_outside }
    ensures destroyed { members (destroyed (history six healed_outside)) ≡ 2 ∷ [] }
    ensures emptied { synced (history six healed_outside) 0 ≡ [] }
    ensures keeper { keeper six (history six healed_outside) 0 ≡ Some (process 1) }
{}

/// A record stays acknowledged, whoever comes into its team.
pub fn stays_acknowledged()
    ensures legal { Legal six stays_acknowledged }
    ensures marked { members (marked (history six stays_acknowledged) 0) ≡ 0 ∷ 2 ∷ 3 ∷ [] }
    ensures acked { acked (history six stays_acknowledged) 0 ≡ true }
{}

/// A member that is gone for good is replaced.
pub fn gone_replaced()
    ensures legal { Legal six gone_replaced }
    ensures gone { members (gone (history six gone_replaced)) ≡ 0 ∷ [] }
    ensures team { members_for (history six gone_replaced) 0 ≡ process 1 ∷ process 2 ∷ [] }
    ensures keeper { keeper six (history six gone_replaced) 0 ≡ Some (process 1) }
{}

/// The mark of who is no member counts once it becomes one.
pub fn mark_counts()
    ensures legal { Legal six mark_counts }
    ensures acked { acked (history six mark_counts) 0 ≡ true }
    ensures keeper { keeper six (history six mark_counts) 0 ≡ Some (process 0) }
{}

/// A replaced member acknowledges nothing, though all members have marks then.
pub fn all_marked()
    ensures legal { Legal six all_marked }
    ensures team { members_for (history six all_marked) 0 ≡ pair }
    ensures marked { members (marked (history six all_marked) 0) ≡ 0 ∷ 2 ∷ [] }
    ensures acked { acked (history six all_marked) 0 ≡ false }
    ensures keeper { keeper six (history six all_marked) 0 ≡ None }
{}

/// A record whose members have all marked it by a replacement isn't acknowledged yet, and is sent
/// again.
pub fn not_yet_acknowledged()
    ensures legal { Legal six not_yet_acknowledged }
    ensures acked { acked (history six not_yet_acknowledged) 0 ≡ false }
{}

/// A word of another record doesn't acknowledge it.
pub fn ack_of_another_record()
    ensures legal { Legal six ack_of_another_record }
    ensures acked { acked (history six ack_of_another_record) 0 ≡ false }
    ensures other { members (marked (history six ack_of_another_record) 1) ≡ 0 ∷ [] }
{}

/// The next word of the record acknowledges it, whoever sent it.
pub fn acknowledged_from_outside()
    ensures legal { Legal six acknowledged_from_outside }
    ensures marked { members (marked (history six acknowledged_from_outside) 0) ≡ 0 ∷ 1 ∷ 2 ∷ [] }
    ensures acked { acked (history six acknowledged_from_outside) 0 ≡ true }
    ensures keeper { keeper six (history six acknowledged_from_outside) 0 ≡ Some (process 0) }
{}

/// A heal takes marks away for records of every team.
pub fn mark_outside_taken()
    ensures legal { Legal six mark_outside_taken }
    ensures marked { members (marked (history six mark_outside_taken) 0) ≡ 2 ∷ [] }
    ensures acked { acked (history six mark_outside_taken) 0 ≡ false }
{}

/// Members stand by rising number, and a record is sent to those who are there.
pub fn sent_to_members()
    ensures legal { Legal six sent_to_members }
    ensures teams { teams (history six sent_to_members)
        ≡ record { members = pair; policy = 0 }
        ∷ record { members = process 1 ∷ process 3 ∷ process 4 ∷ []; policy = 0 } ∷ [] }
    ensures sent { sent (history six sent_to_members)
        ≡ Store 0 (process 2) ∷ Store 0 (process 4) ∷ Store 1 (process 1) ∷ Store 1 (process 3)
        ∷ Store 1 (process 4) ∷ Store 0 (process 0) ∷ [] }
{}

/// An acknowledged record is needed by those who come into its own team. Who left it keeps it no
/// more.
pub fn needed_by_its_team()
    ensures legal { Legal six needed_by_its_team }
    ensures team { members_for (history six needed_by_its_team) 0 ≡ pair_behind }
    ensures other { members_of (history six needed_by_its_team) 1 ≡ process 1 ∷ process 4 ∷ [] }
    ensures synced { synced (history six needed_by_its_team) 0 ≡ item 0 hi ∷ [] }
    ensures keeper { keeper six (history six needed_by_its_team) 0 ≡ Some (process 2) }
{}

/// Of several reasons not to replace a member the first is named.
pub fn replaces_refused()
    ensures legal { Legal six replaces_refused }
    ensures teams { teams (history six replaces_refused)
        ≡ record { members = pair; policy = 0 } ∷ [] }
    ensures gone { members (gone (history six replaces_refused)) ≡ 0 ∷ 1 ∷ [] }
{}

/// A team that changes has to meet its own policy, and keeps it.
pub fn short_by_its_policy()
    ensures legal { Legal three_and_two short_by_its_policy }
    ensures teams { teams (history three_and_two short_by_its_policy)
        ≡ record { members = pair_behind; policy = 1 } ∷ [] }
{}
