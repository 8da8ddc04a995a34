//! A server: it boots the daemon that `mdnsd serve` asks for, accepts connections, and gives each two halves in threads that share it by turns.
#![tactic(auto)]

mod accepting;
mod booting;
mod by_words;
mod chair;
mod closing;
mod making;
mod serving;
mod session;
mod slot;
mod starting;
mod status;
mod wrong;

pub use booting::{SharedDaemon, boot_plan};
pub use by_words::serve_by_words;
pub use serving::serve;
pub use wrong::say_wrong;
