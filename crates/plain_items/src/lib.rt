//! What sessions are told, computed plainly from a whole history: the answers of operations, the items that an entry gives, what is
//! queued, and the outcomes of events. (RFC 6763 4 to 7)
#![tactic(auto)]

mod change;
mod code;
mod found;
mod known;
mod limit;
mod name_conflict;
mod outcome;
mod queued;
mod served;

pub use change::change_items;
pub use code::call_code;
pub use found::{answers, operation_group};
pub use known::known_records;
pub use limit::{cut_marks, would_pass};
pub use outcome::{attach_outcome, call_outcome, early_outcome, late_outcome, take_outcome};
pub use queued::{queue, session_items, taken_items};
pub use served::{given_items, served_sessions};
