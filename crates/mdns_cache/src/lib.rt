//! The records that were heard and are live, each until its end, by the names of their owners. (RFC 6762 10)
#![tactic(auto)]

mod cache;
mod count;
mod ended;
mod ends;
mod error;
mod expiry;
mod heard;
mod holdings;
mod law;
mod look;
mod prints;
mod removal;
mod steps;

pub use cache::Cache;
pub use error::HearError;
pub use law::held_records_stand_later;
pub use steps::Steps;
