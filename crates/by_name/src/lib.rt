//! Values by name: each name has any number of values, counted from 0, and all of them stand in one map.
#![tactic(auto)]

mod filing;
mod keyed;
mod place;
mod taking;

pub use filing::ByName;
pub use keyed::KeyedState;
pub use place::Place;
pub use taking::Taken;
