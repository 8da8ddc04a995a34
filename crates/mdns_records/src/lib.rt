//! The records that a daemon holds, and what an event makes of the records of each name. (RFC 6762 10)
#![tactic(auto)]

mod changing;
mod hear;
mod law;
mod names;
mod records;

pub use law::records_follow_hearings;
pub use records::Records;
