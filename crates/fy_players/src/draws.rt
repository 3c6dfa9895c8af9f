//! The words of turns.
ghost use Rattle.std.specs.Prelude.{◌≡◌};
ghost use Rattle.fy_players.specs.Draws.{stream_of, word_of, words_of};

use fy_actors::generator;
use rand_chacha::ChaCha8Rng;
use rand_core::utils::NextWord;
use std::marker::Model;

/// The words of a turn, in the order in which they are drawn: the first says what kind of act
/// comes, and the last two are the halves of a tear.
#[derive(Clone, Copy, PartialEq, Eq, Debug)]
pub struct Words {
    pub choice: u32,
    pub first: u32,
    pub second: u32,
    pub third: u32,
    pub fourth: u32,
    pub fifth: u32,
    pub low: u32,
    pub high: u32,
}

/// A stream of a seed, from its next word on.
#[derive(Drop)]
pub struct Draws {
    generator: ChaCha8Rng,
}

impl Model for Draws {
    ghost use Rattle.rand_chacha.specs.ChaCha.{ChaCha};

    ghost Value = { ChaCha };

    ghost view = { λ d. d.generator };
}

impl Draws {
    /// A stream of the seed, from its first word on.
    pub fn make(seed: u64, stream: u64) -> Draws
        ensures { result ≡ stream_of seed stream }
    {
        Draws {
            generator: generator(seed, stream),
        }
    }

    /// The next word.
    #[tactic(auto, unfolding(crate::specs::Draws::word_of))]
    pub fn word(&mut self) -> u32
        ensures { (result, self.new) ≡ word_of self.old }
    {
        self.generator.next_word()
    }

    /// The next eight words.
    pub fn words(&mut self) -> Words
        ensures { (result, self.new) ≡ words_of self.old }
    {
        let choice = self.word();
        let first = self.word();
        let second = self.word();
        let third = self.word();
        let fourth = self.word();
        let fifth = self.word();
        let low = self.word();
        let high = self.word();
        Words {
            choice,
            first,
            second,
            third,
            fourth,
            fifth,
            low,
            high,
        }
    }
}
