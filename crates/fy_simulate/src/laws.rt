//! The law of seeds.
ghost use Rattle.std.specs.Prelude.{◌≡◌, ℕ, List};
ghost use Rattle.fy_acts.specs.declared.entry.Entry.{Entry};
ghost use Rattle.fy_cluster.specs.Setup.{Setup};
ghost use Rattle.fy_players.specs.declared.faults.Plan.{Plan};
ghost use Rattle.fy_simulate.specs.Simulate.{IsSimulated};

/// What a cluster file, a seed, a plan and a number of turns make is one journal: whoever simulates
/// by them makes the same.
pub fn a_simulation_is_one()
    ensures { (c : Setup) → (seed : ℕ) → (plan : Plan) → (acts : ℕ) → (one other : List Entry) →
        IsSimulated c seed plan acts one → IsSimulated c seed plan acts other → one ≡ other }
{
    fy_players::laws::a_turn_is_one();
}
