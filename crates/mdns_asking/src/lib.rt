//! The questions that a daemon asks for its sessions: which have users, which are asked now, and what is sent for them.
//! (RFC 6762 5.2, 7.1 and 7.3)
#![tactic(auto)]

mod asking;
mod due;
mod message;
mod names;
mod places;
mod plan;
mod queries;
mod timing;
mod users;
mod walked;

pub use asking::Asking;
pub use plan::Plan;
