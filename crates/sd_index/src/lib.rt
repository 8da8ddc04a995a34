//! The operations that ask for a name, found by the name: nothing goes over all operations.
#![tactic(auto)]

mod asker;
mod askers;
mod search;

pub use asker::Asker;
pub use askers::Askers;
