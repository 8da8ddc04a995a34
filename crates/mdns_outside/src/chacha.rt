// Random words from a seed.
ghost use Rattle.std.specs.Prelude.{◌≡◌};
ghost use Rattle.mdns_base.specs.SeedWords.{seed_bytes};
ghost use Rattle.rand_chacha.specs.ChaCha.{key_of};

use crate::Words;
use rand_chacha::ChaCha8Rng;
use rand_core::SeedableRng;
use rand_core::utils::NextWord;
use std::marker::Model;

/// The words of a seed on a stream: those of ChaCha8, one after the other. Contracts see the generator. Who knows the seed
/// knows the words.
#[derive(Drop)]
pub struct ChaWords {
    rng: ChaCha8Rng,
}

impl Model for ChaWords {
    ghost use Rattle.rand_chacha.specs.ChaCha.{ChaCha};

    ghost Value = { ChaCha };

    ghost view = { λ w. w.rng };
}

impl ChaWords {
    /// The words of this seed on this stream, from the first on. The seed stands little-endian in the first four of the 32
    /// bytes of a key whose others are 0.
    pub fn new(seed: u32, stream: u64) -> ChaWords
        ensures { result ≡ record { key = key_of (seed_bytes seed); stream = stream; word_pos = 0 } }
    {
        let mut key = [0; 32];
        key[..4].copy_from_slice(&seed.to_le_bytes());
        let mut rng = ChaCha8Rng::from_seed(key);
        rng.set_stream(stream);
        ChaWords { rng }
    }
}

impl Words for ChaWords {
    ghost use Rattle.rand_chacha.specs.ChaCha.{next_word};

    /// The next word of the stream.
    fn word(&mut self) -> u32
        ensures { (result, self.new) ≡ next_word 4 self.old }
    {
        self.rng.next_word()
    }
}
