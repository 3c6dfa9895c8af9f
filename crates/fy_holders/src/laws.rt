//! Whose fault a lost record is, over the definitions alone.
ghost use Rattle.fy_holders.specs.Blames.{ThreeKeepTwo, HoldersAreLeftByTwo, StoreLostIt, OneOfThreeIsBroken, SomeHealIsBelieved};

use fy_cluster::laws as cluster;
use fy_policy::laws as policy;

/// A store that keeps the three premises from one moment to the next keeps the first two.
pub fn three_keep_two()
    ensures { ThreeKeepTwo }
{}

/// Of a store that keeps the first two premises: where the processes that were destroyed since a
/// record was acknowledged are short of every policy, the record has a holder that was never
/// destroyed since, whatever the heals were worth.
#[tactic(auto, using(crate::proofs::Blaming::holders_are_left_by_two))]
pub fn holders_are_left_by_two()
    ensures { HoldersAreLeftByTwo }
{
    policy::more_of_map_satisfies();
    policy::some_holder_is_left();
}

/// Where there is no such holder, the store broke one of the two.
#[tactic(auto, using(crate::proofs::Blaming::store_lost_it))]
pub fn store_lost_it()
    ensures { StoreLostIt }
{
    holders_are_left_by_two();
}

/// Where an acknowledged record has no holder that isn't destroyed, one of the three premises was
/// broken.
#[tactic(auto, using(crate::proofs::Blaming::one_of_three_is_broken))]
pub fn one_of_three_is_broken()
    ensures { OneOfThreeIsBroken }
{
    cluster::holders_are_left();
}

/// Where the processes that were destroyed since a position aren't short of every policy, an entry
/// from there on healed one of them.
#[tactic(auto, using(crate::proofs::Blaming::some_heal_is_believed))]
pub fn some_heal_is_believed()
    ensures { SomeHealIsBelieved }
{
    policy::more_satisfies();
    cluster::destroyed_short();
    cluster::one_entry_more();
}
