//! The words of `mdnsd serve`.
#![tactic(auto)]

mod label;
mod options;
mod plan;
mod words;

pub use label::HostLabel;
pub use plan::{Asked, serve_words};
