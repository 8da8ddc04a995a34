//! The daemon: what it is told, what it keeps, and the entry of each event.
#![tactic(auto)]

mod daemon;
mod law;
mod outcomes;
mod parts;
mod plan;
mod reading;

pub use daemon::Daemon;
pub use law::steps_follow_the_history;
