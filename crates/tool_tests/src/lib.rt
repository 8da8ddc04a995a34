//! Tests of `dns-sd`: command lines over a plug in memory, and the plug over a Unix socket.
#![tactic(auto)]

#[cfg(test)]
mod tool;
