//! A list of values, which a contract sees as the list that it is.
#![tactic(auto)]

mod list;

pub use list::List;
