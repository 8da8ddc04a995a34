//! Names of services: their types and subtypes, the names that they stand at, and numbered labels. (RFC 6335, RFC 6763)
#![tactic(auto)]

mod error;
mod grammar;
mod names;
mod regtype;
mod renaming;

pub use error::TypeError;
pub use grammar::is_service_label;
pub use names::{full_name, local_name, split_full, types_name};
pub use regtype::RegType;
pub use renaming::{host_renamed, renamed};
