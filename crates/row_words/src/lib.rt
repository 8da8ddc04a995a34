//! What the programs of worked rows share: how a row spells values, and how what came of it is told.
#![tactic(auto)]

mod error;
mod lines;
mod parts;
mod spelled;
mod telling;
mod values;

pub use error::RowError;
pub use lines::is_row;
pub use parts::{first_word, quoted, two_parts, two_sides, words};
pub use spelled::{bytes_of, label_of, shown, text_from, text_of, word, yes_or_no};
pub use telling::Told;
pub use values::{hex_of, key, milliseconds, moment, name_of, number, record, records};
