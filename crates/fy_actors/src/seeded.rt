//! Random words from a seed.
ghost use Rattle.std.specs.Prelude.{◌≡◌, IfOk};
ghost use Rattle.rand_chacha.specs.ChaCha.{key_of};
ghost use Rattle.fy_actors.specs.Words.{seed_bytes, stream_outputs};

use rand_chacha::ChaCha8Rng;
use rand_core::SeedableRng;
use rand_core::utils::NextWord;
use std::alloc::{AllocError, Global};

/// A seed as 32 bytes: its own 8, the low one first, and then zeros.
#[tactic(auto, unfolding(crate::specs::Words::seed_bytes))]
fn seed_bytes(seed: u64) -> [u8; 32]
    ensures { result ≡ seed_bytes seed }
{
    let mut bytes = [0; 32];
    bytes[..8].copy_from_slice(&seed.to_le_bytes());
    bytes
}

/// A stream of a seed, from its first word on: one of `ChaCha8`, whose key is the seed as 8 bytes,
/// the low one first, and 24 zero bytes. Each actor may have a stream of its own.
pub fn generator(seed: u64, stream: u64) -> ChaCha8Rng
    ensures { result ≡ record { key = key_of (seed_bytes seed); stream = stream; word_pos = 0 } }
{
    let mut generator = ChaCha8Rng::from_seed(seed_bytes(seed));
    generator.set_stream(stream);
    generator
}

/// The first `count` words of a stream of a seed.
///
/// # Errors
///
/// `AllocError` only where an allocation of them fails.
#[tactic(auto, using(crate::proofs::Drawing::no_words, crate::proofs::Drawing::one_word_more))]
pub fn words(alloc: Global, seed: u64, stream: u64, count: usize) -> Result<Vec<u32>, AllocError>
    ensures { IfOk result (λ made. made.items ≡ stream_outputs seed stream count) }
{
    let mut generator = generator(seed, stream);
    let mut words = Vec::new(alloc);
    for _ in 0..count {
        words.push(generator.next_word())?;
    }
    Ok(words)
}
