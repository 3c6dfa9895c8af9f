//! Orders at machines and data centres: whom they name, and whose grants cover them.
ghost use Rattle.std.specs.Prelude.{◌≡◌, [], ◌∷◌};
ghost use Rattle.fy_cluster.specs.History.{history, destroyed, left, up};
ghost use Rattle.fy_cluster.specs.Replies.{Legal};
ghost use Rattle.fy_laws.specs.Clusters.{members};
ghost use Rattle.fy_laws.specs.Targets.{data_centers, by_machine_and_data_center, covered_by_two_grants};

/// An order at a machine or a data centre names its processes that are left, in whatever zones they
/// lie. A process without a data centre is in none.
pub fn by_machine_and_data_center()
    ensures legal { Legal data_centers by_machine_and_data_center }
    ensures destroyed { members (destroyed (history data_centers by_machine_and_data_center))
        ≡ 1 ∷ 2 ∷ [] }
    ensures left { members (left data_centers (history data_centers by_machine_and_data_center))
        ≡ 0 ∷ 3 ∷ 4 ∷ 5 ∷ [] }
    ensures up { members (up (history data_centers by_machine_and_data_center)) ≡ 5 ∷ [] }
{}

/// Several grants may cover a target together, each a part of it.
pub fn covered_by_two_grants()
    ensures legal { Legal data_centers covered_by_two_grants }
    ensures up { members (up (history data_centers covered_by_two_grants)) ≡ 0 ∷ 1 ∷ 2 ∷ 5 ∷ [] }
{}
