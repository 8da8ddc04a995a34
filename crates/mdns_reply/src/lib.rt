//! Replies to queries: when each record was last multicast. (RFC 6762 6)
#![tactic(auto)]

mod lasts;
mod law;
mod mark;
mod moments;
mod sent;

pub use lasts::Lasts;
pub use law::kept_moments_stand_later;
pub use mark::Mark;
pub use sent::multicasts;
