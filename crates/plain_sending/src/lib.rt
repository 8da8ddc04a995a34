//! What a daemon sends, computed plainly from a whole history. (RFC 6762 5 to 8 and 10.1, RFC 6763 12)
#![tactic(auto)]

mod duties;
mod goodbyes;
mod multicasts;
mod probes;
mod queries;
mod replies;
mod sent;
mod tick;
mod wanted;

pub use duties::DaemonDuties;
pub use goodbyes::sent_goodbyes;
pub use multicasts::{is_free, sent_multicasts};
pub use probes::{probe_message, sent_probes};
pub use queries::sent_queries;
pub use replies::{reply_at, reply_to, sent_unicasts};
pub use sent::{to_all, to_one};
pub use tick::tick_sends;
pub use wanted::wanted_by;
