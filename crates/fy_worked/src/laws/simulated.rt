//! What a seed makes: an operator and a fault actor take two turns. The words are those of ChaCha
//! with eight rounds, worked out from its definition.
ghost use Rattle.fy_worked.specs.Simulated.{Makes, first_turn, both_turns, swapped, overlooked, from_the_second, another_protected};

/// Of the seed's first two words of turns, 0x8e01dfd8 and 0xdb4289e7, three lots draw actors 0 and
/// 1. The operator protects, by its word 0x082ddb71, and then the fault actor's plan begins. The
/// journal has no room for more.
pub fn two_turns()
    ensures made { Makes 2 both_turns }
    ensures one { Makes 1 first_turn }
    ensures full { Makes 5 both_turns }
    ensures fewer { Makes 2 first_turn → ⊥ }
    ensures more { Makes 1 both_turns → ⊥ }
    ensures order { Makes 2 swapped → ⊥ }
    ensures reply { Makes 2 overlooked → ⊥ }
    ensures plan { Makes 2 from_the_second → ⊥ }
    ensures words { Makes 2 another_protected → ⊥ }
{
    fy_cluster::laws::journals_survive();
    fy_simulate::laws::a_simulation_is_one();
}
