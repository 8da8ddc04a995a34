// The words of a seed.
ghost use Rattle.std.specs.Prelude.{◌≡◌};
ghost use Rattle.mdns_draw.specs.Drawn.{Drawn, word_of, drawn_after};

use rand_chacha::ChaCha8Rng;
use rand_core::SeedableRng;
use rand_core::utils::NextWord;
use std::marker::Model;

/// The words of a seed: those of ChaCha8 on stream 0, one after another. Contracts see the seed, and how many words were
/// taken. Who knows the seed knows the words.
#[derive(Drop)]
pub struct SeedWords {
    seed: u32,
    rng: ChaCha8Rng,
}

impl Model for SeedWords {
    ghost use Rattle.std.specs.Prelude.{◌≡◌};
    ghost use Rattle.mdns_base.specs.SeedWords.{seed_bytes};
    ghost use Rattle.rand_chacha.specs.ChaCha.{key_of};
    ghost use Rattle.mdns_draw.specs.Drawn.{Drawn};

    ghost Value = { Drawn };

    ghost view = { λ w. record { seed = w.seed; taken = w.rng.word_pos } };

    ghost invariant = { λ w. (w.rng.key ≡ key_of (seed_bytes w.seed)) × (w.rng.stream ≡ 0) };
}

impl SeedWords {
    /// The words of a seed, from the first on. The seed stands little-endian in the first four of the 32 bytes of a key whose
    /// others are 0.
    pub fn new(seed: u32) -> SeedWords
        ensures { result ≡ record { seed = seed; taken = 0 } }
    {
        let mut key = [0; 32];
        key[..4].copy_from_slice(&seed.to_le_bytes());
        let mut rng = ChaCha8Rng::from_seed(key);
        rng.set_stream(0);
        SeedWords { seed, rng }
    }

    /// Takes the next word.
    pub fn take(&mut self) -> u32
        ensures word { result ≡ word_of self.old }
        ensures after { self.new ≡ drawn_after self.old }
    {
        self.rng.next_word()
    }
}
