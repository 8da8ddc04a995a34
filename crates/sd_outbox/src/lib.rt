//! What a session was given and hasn't taken yet.
#![tactic(auto)]

mod outbox;

pub use outbox::{AppendError, Outbox, Taken};
