//! The records that questions ask for: of each question those that match it, found by one look-up. (RFC 6762 6)
#![tactic(auto)]

mod asked;

pub use asked::{Asked, any_for};
