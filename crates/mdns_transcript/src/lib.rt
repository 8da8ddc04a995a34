//! Transcripts read back: from the text of up to sixteen daemons' entries to the rows that it is the print of.
#![tactic(auto)]

mod draft;
mod law;
mod message;
mod print;
mod read;
mod reading;
mod row;

pub use law::print_is_of_one;
pub use print::print_transcript;
pub use read::{TranscriptError, read_transcript};
pub use row::{Row, Transcript};
