//! Claims of names, computed plainly from a whole history: when each group is probed, and what a packet does to its claim.
//! (RFC 6762 8.1, 8.2 and 9)
#![tactic(auto)]

mod claim;
mod conflict;
mod holding;
mod probed;
mod turns;
mod waiting;

pub use claim::{claim_mark, giving_up, was_probed};
pub use conflict::conflict_moments;
pub use holding::{HeldName, held_by_others, holdings_after, holdings_of};
pub use probed::{is_probed_at, probed_groups};
pub use turns::{claim_marks, marks_in_turn};
pub use waiting::{first_due, first_wait, probe_due};
