//! Laws of the definitions: what a daemon asserts is earned by probes that nobody answered.
#![tactic(auto)]

mod laws;

pub use laws::{assertions_are_earned, names_stand_apart};
