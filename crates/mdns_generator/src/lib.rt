//! The generator: a script that is made of a number, played without its transcript, and the summary of what its daemons gave.
#![tactic(auto)]

mod commands;
mod play;
mod requests;
mod summary;

pub use summary::summarize;
