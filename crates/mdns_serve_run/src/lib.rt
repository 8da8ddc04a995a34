//! Tests of a server that runs in threads, over a place in memory, and of the real outside: what isn't proved of these is tested here.
#![tactic(auto)]

#[cfg(test)]
mod holding;
#[cfg(test)]
mod sockets;
#[cfg(test)]
mod tests;
