//! The scripted run: commands of a script, done on up to sixteen daemons and the link between them, with the print of each entry.
#![tactic(auto)]

mod daemons;
mod delivery;
mod error;
mod historic;
mod hub;
mod law;
mod link;
mod running;
mod slots;
mod steps;
mod tally;

pub use error::HubError;
pub use hub::Hub;
pub use law::scripts_are_played_once;
pub use tally::Tally;
