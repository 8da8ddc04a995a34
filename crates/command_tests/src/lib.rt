//! Tests of what `mdnsd` does with its command line, and of what it says of a line that stops a script.
#![tactic(auto)]

#[cfg(test)]
mod commands;
