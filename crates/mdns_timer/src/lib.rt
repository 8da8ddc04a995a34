//! Moments at which something is due, kept so that the least one is told at once.
#![tactic(auto)]

mod deadlines;
mod moments;
mod part;
mod timed;
mod timers;
mod tree;

pub use deadlines::Deadlines;
pub use moments::earlier;
pub use timed::Timed;
pub use timers::Timers;
