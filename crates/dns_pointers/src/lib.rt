//! Names in messages of the domain name system: read where pointers aim, and written with pointers to what was written
//! before. (RFC 1035 4.1.4, RFC 6762 18.14)
#![tactic(auto)]

mod chains;
mod compressing;
mod fault;
mod labels;
mod packet;
mod written_names;

pub use compressing::{Compressed, compress};
pub use fault::NameFault;
pub use packet::Packet;
pub use written_names::WrittenNames;
