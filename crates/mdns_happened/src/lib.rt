//! What an event amounts to, once it was read and decided: the one value that each part of a daemon is told.
#![tactic(auto)]

mod around;
mod happened;
mod walk;
mod when;

pub use around::{Around, Registered, registered_in};
pub use happened::{Happened, Heard, Idle, Refusal};
pub use walk::{OwnWalk, Walk, walk_of};
pub use when::When;
