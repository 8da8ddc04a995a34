//! What `dns-sd` does: it reads its words, asks the daemon for names and services or registers a service, and prints what comes.
#![tactic(auto)]

mod ending;
mod failures;
mod help;
mod lines;
mod listen;
mod plug;
mod request;
mod top;
mod words;
mod wrong;

pub use ending::Ending;
pub use failures::why;
pub use help::help_for;
pub use plug::UnixPlug;
pub use top::dns_sd;
pub use wrong::say_wrong;
