//! The lines of a transcript, read from their text: a text is read where it is the print of a line.
#![tactic(auto)]

mod answers;
mod events;
mod items;
mod laws;
mod marks;
mod read;
mod requests;
mod sent;
mod tokens;

pub use laws::printed_lines_are_read;
pub use read::read_line;
