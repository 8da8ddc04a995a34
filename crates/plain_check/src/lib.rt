//! Whether every daemon's history in a transcript is legal, computed plainly from the whole list for each of its rows.
#![tactic(auto)]

mod checking;
mod histories;
mod law;

pub use checking::check;
pub use law::legal_rows_begin_legally;
