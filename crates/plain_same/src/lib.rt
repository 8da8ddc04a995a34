//! Whether two values are the same in everything: names byte for byte, records with their TTL and flush bit, and all that an entry has.
#![tactic(auto)]

mod items;
mod marks;
mod messages;
mod records;
mod same;
mod sends;

pub use same::{Same, all_same};
