//! The names that a daemon claims, for its host and for registrations: how they are probed, contested and given up, and which
//! records are its own. (RFC 6762 8 and 9)
#![tactic(auto)]

mod beginning;
mod behind;
mod claims;
mod copies;
mod deciding;
mod doing;
mod kept;
mod later;
mod law;
mod moved;
mod plan;

pub use beginning::Beginning;
pub use behind::Behind;
pub use claims::Claims;
pub use law::{claims_follow_the_history, own_and_nsecs_are_known};
pub use mdns_claimants::Claimant;
pub use mdns_renewals::ends;
pub use plan::{Deed, Plan};
