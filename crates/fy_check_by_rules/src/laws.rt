//! What is synced and what isn't, by the places of entries.
ghost use Rattle.fy_check_by_rules.specs.Written.{SyncedByPlace, UnsyncedByPlace};

/// A process has synced exactly the writes that their first close kept and that were never wiped
/// since, and its unsynced writes are those that no entry closed. Both stand in the order of
/// writing.
#[tactic(auto, using(crate::proofs::Places::synced_by_places, crate::proofs::Places::unsynced_by_places))]
pub fn written_by_place()
    ensures synced { SyncedByPlace }
    ensures unsynced { UnsyncedByPlace }
{}
