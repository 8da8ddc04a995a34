// Rows of random words.

use mdns_draw::{SeedWords, Words};
use row_words::{RowError, Told, number};

/// A row of random words: `seed` and `same` say where they come from, `take` takes one, in hexadecimal.
pub fn draw_row(told: &mut Told, words: &mut Words, row: &[&str]) -> Result<(), RowError> {
    match row {
        ["seed", seed] => {
            let seed = number(*seed)?;
            *words = Words::Seeded {
                words: SeedWords::new(seed),
            };
            told.put("done")
        }
        ["same", word] => {
            let word = number(*word)?;
            *words = Words::Same { word };
            told.put("done")
        }
        ["take"] => told.put_hex(&words.take().to_be_bytes()),
        _ => Err(RowError::NotUnderstood),
    }
}
