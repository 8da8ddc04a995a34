//! Which questions a request asks, and which answers records give to it. (RFC 6763 sections 4 to 7)
#![tactic(auto)]

mod agree;
mod answers;
mod laws;
mod questions;
mod records;

pub use answers::{Answers, answers_of};
pub use laws::{answers_are_in_order, only_matching_records_matter, order_of_records_is_free};
pub use questions::{questions_of, touches};
pub use records::KnownRecords;
