//! Wrong journals, none of which is legal.
ghost use Rattle.fy_cluster.specs.Replies.{Legal};
ghost use Rattle.fy_laws.specs.Clusters.{six, four};
ghost use Rattle.fy_laws.specs.Targets.{data_centers};
ghost use Rattle.fy_laws.specs.Wrong.{second_zone_killed, place_left_out, grant_overlooked, protection_named_first, replication_before_grant, replication_before_protection, two_zones_by_data_center, covered_in_part, number_left_out, marked_unsynced, ack_never_sent, sent_though_acknowledged, too_few_left, mark_kept, ack_kept, healed_in_need, replaced_in_need, replaced_by_member, replaced_short, acknowledged_by_replace, copied_from_nothing, copied_while_down, healed_and_counted, back_and_not_counted, short_lived, two_ticks};

/// A kill that is to be weakened isn't answered as one that struck.
pub fn second_zone_killed()
    ensures { Legal six second_zone_killed → ⊥ }
{}

/// No place is left out.
pub fn place_left_out()
    ensures { Legal six place_left_out → ⊥ }
{}

/// Who has a grant isn't told that there is none.
pub fn grant_overlooked()
    ensures { Legal six grant_overlooked → ⊥ }
{}

/// Who has no grant isn't told of a protection first.
pub fn protection_named_first()
    ensures { Legal six protection_named_first → ⊥ }
{}

/// Who has no grant is told that before replication.
pub fn replication_before_grant()
    ensures { Legal six replication_before_grant → ⊥ }
{}

/// A protection is told before replication.
pub fn replication_before_protection()
    ensures { Legal six replication_before_protection → ⊥ }
{}

/// A data centre in two zones isn't killed as one zone is.
pub fn two_zones_by_data_center()
    ensures { Legal data_centers two_zones_by_data_center → ⊥ }
{}

/// A grant for a part of a target doesn't cover it.
pub fn covered_in_part()
    ensures { Legal data_centers covered_in_part → ⊥ }
{}

/// No message number is left out.
pub fn number_left_out()
    ensures { Legal six number_left_out → ⊥ }
{}

/// A store that arrives is no word that it is synced.
pub fn marked_unsynced()
    ensures { Legal six marked_unsynced → ⊥ }
{}

/// No word comes before its process has synced.
pub fn ack_never_sent()
    ensures { Legal six ack_never_sent → ⊥ }
{}

/// An acknowledged record isn't sent again.
pub fn sent_though_acknowledged()
    ensures { Legal six sent_though_acknowledged → ⊥ }
{}

/// No kill leaves too few.
pub fn too_few_left()
    ensures { Legal four too_few_left → ⊥ }
{}

/// A heal takes the mark of a record that isn't acknowledged.
pub fn mark_kept()
    ensures { Legal six mark_kept → ⊥ }
{}

/// A heal takes the word that was sent before.
pub fn ack_kept()
    ensures { Legal six ack_kept → ⊥ }
{}

/// Who lacks an acknowledged record isn't healed.
pub fn healed_in_need()
    ensures { Legal six healed_in_need → ⊥ }
{}

/// Who lacks an acknowledged record of the team doesn't come into it.
pub fn replaced_in_need()
    ensures { Legal six replaced_in_need → ⊥ }
{}

/// No member comes in another's place.
pub fn replaced_by_member()
    ensures { Legal six replaced_by_member → ⊥ }
{}

/// No team that changes is short of its policy.
pub fn replaced_short()
    ensures { Legal six replaced_short → ⊥ }
{}

/// A replaced member acknowledges nothing.
pub fn acknowledged_by_replace()
    ensures { Legal six acknowledged_by_replace → ⊥ }
{}

/// Who hasn't a record copies none.
pub fn copied_from_nothing()
    ensures { Legal six copied_from_nothing → ⊥ }
{}

/// Who is down copies none.
pub fn copied_while_down()
    ensures { Legal six copied_while_down → ⊥ }
{}

/// Who is healed doesn't count as destroyed.
pub fn healed_and_counted()
    ensures { Legal six healed_and_counted → ⊥ }
{}

/// Who was never healed counts as destroyed.
pub fn back_and_not_counted()
    ensures { Legal six back_and_not_counted → ⊥ }
{}

/// No journal is longer than it may be. With more room this one is legal.
pub fn two_ticks()
    ensures long { Legal short_lived two_ticks → ⊥ }
    ensures fits { Legal six two_ticks }
{}
