//! The outside of the daemon: the moments of its clock, where bytes come from and go to, and what stands for it in tests.
#![tactic(auto)]

mod host;
mod memory;
mod moment;
mod outside;

pub use host::{Dest, Host, MDNS_PORT};
pub use memory::{MemSink, MemSource};
pub use moment::Moment;
pub use outside::{Failed, Sink, Source};
