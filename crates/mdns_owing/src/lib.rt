//! The heard queries that are owed something: what they are owed, when that is due, and what a tick sends for it. (RFC 6762 5.4, 6, 6.1,
//! 6.7 and 7.1 to 7.4)
#![tactic(auto)]

mod first;
mod found;
mod hearing;
mod law;
mod listed;
mod marks;
mod multicasts;
mod news;
mod owed;
mod owing;
mod query;
mod satisfied;
mod sending;
mod terms;

pub use hearing::Ours;
pub use law::queries_follow_the_event;
pub use multicasts::Multicasts;
pub use news::News;
pub use owed::Owed;
pub use owing::Owing;
pub use query::Query;
pub use terms::Terms;
