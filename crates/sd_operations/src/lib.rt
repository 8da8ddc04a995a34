//! The operations of one session: how a call is answered, what it makes of them, and what one has no more and newly.
#![tactic(auto)]

mod call;
mod codes;
mod items;
mod numbered;
mod running;

pub use call::Call;
pub use codes::{Registering, call_code, is_running, is_start, is_stop, operation_of, registers};
pub use items::{put_adds, put_removes};
pub use numbered::{concerned_after, has_one};
pub use running::run_own;
