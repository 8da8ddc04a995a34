//! TXT records: the pairs of keys and values that describe a service. (RFC 6763 section 6)
#![tactic(auto)]

mod error;
mod pair;
mod strings;
mod txt;

pub use error::TxtError;
pub use pair::{Found, Octets, Pair};
pub use strings::{Strings, is_txt};
pub use txt::Txt;
