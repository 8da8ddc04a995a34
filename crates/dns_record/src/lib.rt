//! Resource records and questions of class IN: their data, when two records are the same, and their order.
#![tactic(auto)]

mod compare;
mod copies;
mod error;
mod forms;
pub mod kinds;
mod law;
mod read;
mod record;
mod write;

pub use compare::{matches, matches_any, rdata_cmp, record_cmp};
pub use copies::put_copies;
pub use error::RecordError;
pub use law::record_order_is_total;
pub use read::read_kind;
pub use record::{Key, Question, Rdata, Rr};
pub use write::{put_kind, put_name, put_rdata, put_record, put_srv};
