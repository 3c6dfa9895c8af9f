//! The law of turns.
ghost use Rattle.std.specs.Prelude.{◌≡◌};
ghost use Rattle.fy_cluster.specs.Execution.{Execution};
ghost use Rattle.fy_players.specs.declared.player.Player.{Player};
ghost use Rattle.fy_players.specs.Turns.{TakesTurn};

/// A turn is determined by the actor and the cluster before it: there is one that it can be.
pub fn a_turn_is_one()
    ensures { (was one other : Player × Execution) →
        TakesTurn was one → TakesTurn was other → one ≡ other }
{}
