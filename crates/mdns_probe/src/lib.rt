//! Groups of records under one name: how each probes for it, when it is sure of it, and when it announces it. (RFC 6762 8)
#![tactic(auto)]

mod claim;
mod due;
mod groups;
mod law;
mod naming;
mod replacing;

pub use claim::{Change, Claim, Gone};
pub use due::Due;
pub use groups::Groups;
pub use law::{answers_follow_what_is_kept, claims_follow_the_history, groups_follow_the_history};
pub use naming::{Naming, Published, Service};
