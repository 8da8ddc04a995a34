//! Readers, writers and connections as sources and sinks, each with its count of faults, and an input that is read whole.
#![tactic(auto)]

mod adapters;
mod connection;
mod whole;

pub use adapters::{Input, Output};
pub use connection::{StreamSink, StreamSource};
pub use whole::{ReadError, read_all};

#[cfg(test)]
mod tests;
