//! What becomes of a group at an event: whether it ends, what it is renewed to, and the group that begins with a registration.
//! (RFC 6762 8 and 9, RFC 6763 4)
#![tactic(auto)]

mod begin;
mod renew;

pub use begin::{Wish, begun, begun_claimant};
pub use renew::{Seen, ends, number_after, renaming_in};
