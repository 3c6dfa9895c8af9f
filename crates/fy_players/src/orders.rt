//! The orders of a fault actor, one a turn, without a cluster.
ghost use Rattle.std.specs.Prelude.{◌≡◌, IfOk};
ghost use Rattle.fy_players.specs.Draws.{stream_of};
ghost use Rattle.fy_players.specs.Faults.{fault_of};
ghost use Rattle.fy_players.specs.Orders.{StrikesOnce};

use crate::draws::Draws;
use crate::faults::{FaultPlayer, Plan};
use fy_acts::Act;
use fy_locality::Map;
use std::alloc::{AllocError, Global};
use std::marker::Model;

/// A fault actor with its stream: the orders of its turns, one after another. What it does doesn't
/// depend on what became of its orders.
pub struct Orders {
    fault: FaultPlayer,
    draws: Draws,
}

impl Model for Orders {
    ghost use Rattle.std.specs.Coded.{codes};
    ghost use Rattle.rand_chacha.specs.ChaCha.{ChaCha};
    ghost use Rattle.fy_players.specs.Faults.{FaultState};

    ghost Value = { FaultState × ChaCha };

    ghost view = { λ o. (o.fault, o.draws) };
}

// Written out and not derived: see `Drop` in docs/DECISIONS.md.
impl Drop for Orders {
    fn drop(self) {
        let Orders { fault: _, draws: _ } = self;
    }
}

impl Orders {
    /// The orders of the fault actor with this number, from its first turn on.
    pub fn make(alloc: Global, seed: u64, plan: Plan, actor: u32) -> Orders
        ensures { result ≡ (fault_of seed plan, stream_of seed actor) }
    {
        Orders {
            fault: FaultPlayer::make(alloc, seed, plan),
            draws: Draws::make(seed, u64::from(actor)),
        }
    }

    /// The order of the next turn.
    ///
    /// # Errors
    ///
    /// `AllocError` where an allocation fails.
    pub fn next(&mut self, map: &Map) -> Result<Act, AllocError>
        ensures { IfOk result (λ made. StrikesOnce map.now self.old self.new made) }
    {
        let words = self.draws.words();
        self.fault.ready(map, words)?;
        let made = self.fault.next(map, words)?;
        self.fault.learn();
        Ok(made)
    }
}
