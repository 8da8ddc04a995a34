//! Requests and items as frames on a socket, read and written.
//!
//! A frame is a length word, the count of the bytes behind it, and then a kind, the number of an operation and a body.
#![tactic(auto)]

mod answers;
mod bodies;
mod data;
mod data_bytes;
mod error;
mod fields;
mod item_bodies;
mod items;
mod parts;
mod reading;
mod requests;
mod source;
mod writing;

pub use error::FrameError;
pub use reading::{read_item, read_request};
pub use writing::{write_item, write_request};
