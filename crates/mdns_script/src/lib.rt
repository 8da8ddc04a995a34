//! The lines of a script: what each asks for.
//!
//! `read_line` reads each: `daemon K`, `daemon K host LABEL IPV4 [IPV6]`, `at T`, `word W`, `seed S`, `delay D`, `lose N`, `part A B`, `meet A B`,
//! `open K`, `close K S`, `take K S N`, `hear K IPV4 PORT HEX` and `call K S OP REQUEST` with every request. `print_command` gives the line of a command.
#![tactic(auto)]

mod boot;
mod command;
mod laws;
mod line;
mod link;
mod print;
mod print_event;
mod print_request;
mod requests;
mod tokens;

pub use command::{Command, Line};
pub use laws::printed_commands_are_read;
pub use line::read_line;
pub use print::print_command;
