//! What a packet does to the claims of groups: which are contested, which give up their names and to what number they go, which lose a tie.
//! (RFC 6762 8.1, 8.2 and 9)
#![tactic(auto)]

mod disturb;
mod turns;

pub use disturb::{Disturbance, disturbs};
pub use turns::{MOST_GROUPS, claim_marks};
