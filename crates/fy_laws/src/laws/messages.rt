//! Messages: clogged, lost, sent again and delivered.
ghost use Rattle.std.specs.Prelude.{◌≡◌, false, [], ◌∷◌, length};
ghost use Rattle.fy_cluster.specs.History.{history, up, records, synced, unsynced, in_flight, now, clogged, marked, acked};
ghost use Rattle.fy_cluster.specs.Replies.{Legal};
ghost use Rattle.fy_laws.specs.Clusters.{six, members};
ghost use Rattle.fy_laws.specs.Records.{item, hi};
ghost use Rattle.fy_laws.specs.Messages.{clogged_until, unclogged, longest_clog_holds, clogged_again, clogged_by_zone, ack_held_back, ack_lost, clogged_to_the_end, lost_and_resent, lost_though_clogged, waited_for, delivered_once, clogged_and_down, ack_of_the_gone};

/// A clog holds messages back for its ticks and no longer.
pub fn clogged_until()
    ensures legal { Legal six clogged_until }
    ensures now { now (history six clogged_until) ≡ 10 }
    ensures clogged { members (clogged (history six clogged_until)) ≡ [] }
    ensures written { unsynced (history six clogged_until) 0 ≡ item 0 hi ∷ [] }
{}

/// An Unclog ends a clog at once.
pub fn unclogged()
    ensures legal { Legal six unclogged }
    ensures now { now (history six unclogged) ≡ 3 }
    ensures clogged { members (clogged (history six unclogged)) ≡ [] }
{}

/// Of several clogs the one that ends last holds.
pub fn longest_clog_holds()
    ensures legal { Legal six longest_clog_holds }
    ensures clogged { members (clogged (history six longest_clog_holds)) ≡ 0 ∷ [] }
{}

/// A clog counts from its own time.
pub fn clogged_again()
    ensures legal { Legal six clogged_again }
    ensures now { now (history six clogged_again) ≡ 4 }
    ensures clogged { members (clogged (history six clogged_again)) ≡ [] }
{}

/// Clogs and their ends are for the target's processes, and only without a rule.
pub fn clogged_by_zone()
    ensures legal { Legal six clogged_by_zone }
    ensures clogged { members (clogged (history six clogged_by_zone)) ≡ 0 ∷ [] }
{}

/// A clog holds a process's acknowledgements back as well as what it is sent.
pub fn ack_held_back()
    ensures legal { Legal six ack_held_back }
    ensures marked { members (marked (history six ack_held_back) 0) ≡ 0 ∷ [] }
{}

/// A word that is held back or lost marks nothing.
pub fn ack_lost()
    ensures legal { Legal six ack_lost }
    ensures marked { members (marked (history six ack_lost) 0) ≡ 2 ∷ [] }
    ensures acked { acked (history six ack_lost) 0 ≡ false }
{}

/// No clog outlasts the clock: at its last tick everything is delivered.
pub fn clogged_to_the_end()
    ensures legal { Legal six clogged_to_the_end }
    ensures now { now (history six clogged_to_the_end) ≡ 1099511627776 }
    ensures clogged { members (clogged (history six clogged_to_the_end)) ≡ [] }
{}

/// A lost message is gone, and a store that is sent again has a number of its own.
pub fn lost_and_resent()
    ensures legal { Legal six lost_and_resent }
    ensures in_flight { members (in_flight (history six lost_and_resent)) ≡ 1 ∷ 2 ∷ [] }
    ensures written { unsynced (history six lost_and_resent) 0 ≡ [] }
    ensures records { length (records (history six lost_and_resent)) ≡ 1 }
{}

/// A message of a clogged process can be lost, once.
pub fn lost_though_clogged()
    ensures legal { Legal six lost_though_clogged }
    ensures in_flight { members (in_flight (history six lost_though_clogged)) ≡ 1 ∷ [] }
    ensures clogged { members (clogged (history six lost_though_clogged)) ≡ 0 ∷ [] }
{}

/// A store waits until its process is up. A word comes though its sender is down.
pub fn waited_for()
    ensures legal { Legal six waited_for }
    ensures marked { members (marked (history six waited_for) 0) ≡ 0 ∷ [] }
    ensures synced { synced (history six waited_for) 0 ≡ item 0 hi ∷ [] }
    ensures up { members (up (history six waited_for)) ≡ 1 ∷ 2 ∷ 3 ∷ 4 ∷ 5 ∷ [] }
{}

/// What was delivered is in flight no more.
pub fn delivered_once()
    ensures legal { Legal six delivered_once }
    ensures in_flight { members (in_flight (history six delivered_once)) ≡ 1 ∷ [] }
    ensures synced { synced (history six delivered_once) 0 ≡ item 0 hi ∷ [] }
{}

/// Of a process that is both clogged and down, the clog is named.
pub fn clogged_and_down()
    ensures legal { Legal six clogged_and_down }
    ensures clogged { members (clogged (history six clogged_and_down)) ≡ [] }
{}

/// No clog is for a process that is gone, and its acknowledgement comes.
pub fn ack_of_the_gone()
    ensures legal { Legal six ack_of_the_gone }
    ensures clogged { members (clogged (history six ack_of_the_gone)) ≡ 1 ∷ [] }
    ensures marked { members (marked (history six ack_of_the_gone) 0) ≡ 0 ∷ [] }
{}
