//! What `mdnsd` does with its command line: it plays a script, plays one that it makes of a number, or serves clients; and what it says of
//! that to a person.
#![tactic(auto)]

mod command;
mod failures;
mod generated;
mod help;
mod keeping;
mod notes;
mod stop;
mod top;

pub use failures::why;
pub use generated::run_gen;
pub use help::help_for;
pub use keeping::{Keeping, Naming};
pub use mdns_play::{DONE, WRITE_FAULT};
pub use notes::note_on;
pub use top::{CommandLine, mdnsd};
