// When an event comes.
ghost use Rattle.std.specs.Prelude.{◌≡◌, ◌≤◌, ◌^◌};

use mdns_base::Moment;

/// When an event comes: its moment, in ms and at most 2^53, and the random word that is drawn for it.
#[derive(Clone, Copy, Drop)]
pub struct When {
    pub moment: u64,
    pub word: u32,
    pub ghost bound: { moment ≤ 2 ^ 53 },
}

impl When {
    /// At a moment, with a word.
    pub fn new(now: Moment, word: u32) -> When
        ensures moment { result.moment ≡ now }
        ensures word { result.word ≡ word }
    {
        When {
            moment: now.ms(),
            word,
        }
    }

    /// Its moment.
    pub fn at(self) -> Moment
        ensures { result ≡ self.moment }
    {
        Moment::new(self.moment)
    }
}
