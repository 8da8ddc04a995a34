//! A daemon's history, computed plainly from its whole list of entries: what it heard, which records are live, and which sessions
//! and operations are there.
#![tactic(auto)]

mod calls;
mod entry;
mod heard;
mod hearing;
mod live;
mod lives;
mod operation;
mod order;
mod running;
mod sessions;

pub use calls::{detached, ends_operation};
pub use entry::{HistoryEntry, config_of, now};
pub use heard::{HeardMessage, brought, counted_records, heard_in, is_ignored, query_of};
pub use hearing::{HeardRecord, hearings};
pub use live::{find_op, operation_request, operations, operations_of, present_txt};
pub use lives::{live_of, live_records};
pub use operation::LiveOperation;
pub use order::{key_eq, ordered_keys, ordered_records, sorted_records};
pub use sessions::{attached_sessions, is_attached, is_cut, opened, opened_count};
