//! What a daemon is told and what it does: events, entries, and the history that they make.
#![tactic(auto)]

mod config;
mod entry;
mod event;
mod held;
mod laws;
mod mark;
mod operation;
mod print;
mod print_event;
mod print_sent;
mod shared;

pub use config::{Config, HostConfig};
pub use entry::{Entry, Gifts, Given, Items, Outcome, Sends, Sent};
pub use event::Event;
pub use held::{Held, drop_same};
pub use laws::{good_calls_succeed, items_replay, one_entry_fits, print_is_one_to_one};
pub use mark::{Cause, Mark, Marks};
pub use operation::{Operation, Operations};
pub use print::print_entry;
pub use shared::{SharedRr, SharedRrs, put_shared};
