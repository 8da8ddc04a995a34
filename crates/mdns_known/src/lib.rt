//! Known answers: which held records a query lists, and which listed records silence a reply. (RFC 6762 7.1)
#![tactic(auto)]

mod all;
mod known;
mod laws;
mod listing;
mod suppression;

pub use all::all_known_answers;
pub use known::{known_answers, put_known_answers, put_known_listings};
pub use laws::known_answers_of_live_records;
pub use suppression::{is_struck, suppresses};
