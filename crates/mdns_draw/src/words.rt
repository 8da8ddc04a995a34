// Where the words of events come from.
ghost use Rattle.std.specs.Prelude.{◌≡◌};
ghost use Rattle.mdns_draw.specs.Drawing.{next_word, words_after};

use crate::SeedWords;

/// Where the random words of events come from.
#[derive(Drop)]
pub enum Words {
    /// One word for all.
    Same { word: u32 },
    /// The words of a seed, one after another.
    Seeded { words: SeedWords },
}

impl Words {
    /// Takes the word of the next event.
    pub fn take(&mut self) -> u32
        ensures word { result ≡ next_word self.old }
        ensures after { self.new ≡ words_after self.old }
    {
        match self {
            Words::Same { word } => *word,
            Words::Seeded { words } => words.take(),
        }
    }
}
