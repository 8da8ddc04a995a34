//! The lines of a transcript, and the text of each.
//!
//! A line is the first line of an entry, a mark, the first line of a message that was sent, a question, a record of a section, an item that
//! was given, an outcome, or an item that was taken. `print_line` gives the text of each.
#![tactic(auto)]

mod event;
mod line;
mod mark;
mod print;

pub use line::{Ending, Line, Section};
pub use print::print_line;
