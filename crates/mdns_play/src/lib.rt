//! Plays a script for up to sixteen daemons on a link, line by line, and prints what they do.
#![tactic(auto)]

mod lines;
mod script;
mod stop;

pub use lines::next_line;
pub use script::run_script;
pub use stop::{BAD_LINE, DONE, NO_MEMORY, READ_FAULT, TOO_LARGE, WRITE_FAULT};
