//! The sessions of a daemon: what they ask for, what they are brought, and what is queued for them.
#![tactic(auto)]

mod by_names;
mod change;
mod concerned;
mod index;
mod law;
mod names;
mod session;
mod sessions;
mod settle;
mod walks;

pub use change::SessionChange;
pub use law::sessions_follow_the_history;
pub use names::put_once;
pub use sessions::{Plan, Sessions};
