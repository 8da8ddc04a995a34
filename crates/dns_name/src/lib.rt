//! Domain names: labels, names in wire form, their comparison in any case, and their text.
#![tactic(auto)]

mod error;
mod fold;
mod folded;
mod items;
mod label;
mod laws;
mod name;
mod put_text;
mod reading;
mod text;
mod wire_bytes;

pub use error::NameError;
pub use folded::FoldedName;
pub use items::{TextItem, TextItems, read_label};
pub use label::Label;
pub use laws::names_are_lawful;
pub use name::{Labels, Name};
pub use put_text::{put_byte_text, put_label_text};
pub use text::{NameText, write_label_byte};
