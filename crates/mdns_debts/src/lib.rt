//! What heard queries are owed, query by query: the laws. (RFC 6762 5.4, 6, 6.7, 7.1 and 7.2)
#![tactic(auto)]

mod law;

pub use law::{
    debts_are_of_queries, kept_lasts_are_enough, queries_follow_the_history, replies_wait,
};
