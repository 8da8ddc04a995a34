//! One value that threads share by turns, all of which stand in one history.
#![tactic(auto)]

mod plays;
mod tale;
mod turn;
mod view;

pub use tale::{Tale, Work};
pub use turn::{Seat, Turn};
