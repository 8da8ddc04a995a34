//! What clients ask of the daemon, and what they are given for it. (RFC 6763 4 to 7)
#![tactic(auto)]

mod answer;
mod form;
mod item;
mod order;
mod print;
mod replayed;
mod request;
mod text;
mod tokens;

pub use answer::Answer;
pub use form::well_formed;
pub use item::{Item, item_len};
pub use order::answer_cmp;
pub use print::{put_answer, put_code, put_item, put_request};
pub use replayed::Replayed;
pub use request::{Request, Verb};
pub use text::Text;
pub use tokens::{put_label, put_type};
