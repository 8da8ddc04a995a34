//! How questions and records are put into messages, and records into order. (RFC 6762 6, 6.7, 7.1, 7.2 and 17, RFC 6763 12)
#![tactic(auto)]

mod legacy;
mod listing;
mod messages;
mod order;
mod plain;
mod query;
mod reply;
mod wanting;

pub use legacy::pack_legacy;
pub use listing::Listing;
pub use messages::Messages;
pub use order::{Ordered, in_order, listings_in_order, sorted};
pub use plain::pack_plain;
pub use query::{pack_listings, pack_query};
pub use reply::pack_reply;
pub use wanting::Wanting;
