//! Messages of the domain name system, as Multicast DNS uses them. (RFC 1035 4.1, RFC 6762 18)
#![tactic(auto)]

mod data;
mod draft;
mod law;
mod message;
mod reading;
mod sections;
mod writing;

pub use draft::Draft;
pub use law::{one_message_is_spelled, what_is_written_is_read_again};
pub use message::{LONGEST_MESSAGE, Message, MessageError, Questions, Rrs, WriteError};
pub use reading::read;
pub use writing::write;
