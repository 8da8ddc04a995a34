//! Laws of the definitions: which live groups a daemon has, and how many.
#![tactic(auto)]

mod laws;

pub use laws::{groups_are_few, registrations_have_groups};
