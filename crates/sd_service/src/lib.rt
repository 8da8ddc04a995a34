//! The records of a host and of a registered service. (RFC 6762 2, RFC 6763 4 to 7 and 9)
#![tactic(auto)]

mod host;
mod nsec;
mod order;
mod service;

pub use host::{host_name, host_records};
pub use nsec::{is_nsec_of, nsec_of, unique_records_have_a_bitmap};
pub use service::{Service, service_name, service_records, shared_records};
