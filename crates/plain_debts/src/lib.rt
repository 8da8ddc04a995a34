//! Debts, computed plainly from a whole history: what heard queries are owed, which debts stand, and which records a tick releases
//! for them. (RFC 6762 5.4, 6, 6.1, 6.3, 6.7, 7.1, 7.2 and 7.4)
#![tactic(auto)]

mod debt;
mod due;
mod last;
mod owed;
mod query;
mod standing;
mod ways;

pub use debt::{OwedRecord, StandingDebt};
pub use due::{due_multicasts, due_unicasts, may_go, released_records};
pub use last::{is_long_ago, is_multicast, is_multicast_in, is_recent, last_multicast};
pub use owed::{is_ours, nsecs_of, owed_to};
pub use query::{debts_made, owed_by};
pub use standing::standing_debts;
pub use ways::{debt_wait, dest_eq, host_eq, way_of};
