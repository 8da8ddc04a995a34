//! Announcements, computed plainly from a whole history: since when a group has its records, when it was announced, and which
//! groups a tick announces. (RFC 6762 8.3 and 8.4)
#![tactic(auto)]

mod announced;
mod claim;
mod moments;

pub use announced::{announced_groups, is_announced_at, next_announcement};
pub use claim::{claim_moment, renews_last, same_records};
pub use moments::announcement_moments;
