//! Tests of scripts that are run: their statuses, faults of the outside, and large scripts. Scripts of which the whole test is what they print are rows
//! of `script_tests`.
#![tactic(auto)]

#[cfg(test)]
mod large;
#[cfg(test)]
mod running;
#[cfg(test)]
mod statuses;
