//! Which questions are due to be asked: the series of each, and the refreshes of the records that answer it. (RFC 6762 5.2)
#![tactic(auto)]

mod asker;
mod changes;
mod kept;
mod keys;
mod law;
mod named;
mod next;
mod points;
mod tracked;
mod users;

pub use asker::Asker;
pub use kept::first_refresh;
pub use law::{askings_follow_the_history, kept_points_tell_what_is_due};
pub use tracked::Tracked;
