//! The responses that a daemon sends to all: announcements of its groups, and goodbyes of those that end. (RFC 6762 6, 8.3, 8.4 and
//! 10.1, RFC 6763 12)
#![tactic(auto)]

mod announcing;
mod goodbyes;
mod law;
mod responder;
mod wanting;

pub use law::{announcements_follow_the_history, responses_follow_the_history};
pub use responder::Responder;
