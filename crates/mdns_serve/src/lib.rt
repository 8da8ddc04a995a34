//! A daemon that threads share by turns, and what takes them: the two halves of a session, the ear and the ticker.
#![tactic(auto)]

mod air;
mod bell;
mod common;
mod happening;
mod hearing;
mod laws;
mod order;
mod reading;
mod shared;
mod step;
mod taking;
mod ticking;
mod writing;

pub use bell::Bell;
pub use common::{Common, Half, Kit};
pub use happening::Happening;
pub use hearing::{HearEnd, hear_loop};
pub use laws::owed_ends_have_room;
pub use order::{SendOrder, SendPlace};
pub use reading::{ReadEnd, detach, read_half};
pub use shared::Shared;
pub use step::{Miss, Step, Tend};
pub use taking::take_turn;
pub use ticking::tick_loop;
pub use writing::{WriteEnd, write_half};
