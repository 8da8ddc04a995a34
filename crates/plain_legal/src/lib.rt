//! Which histories are legal, computed plainly from the whole list of entries.
#![tactic(auto)]

mod following;
mod law;
mod marks;
mod next;
mod sends;
mod trial;

pub use following::follow;
pub use law::legal_entries_may_stand;
pub use marks::event_marks;
pub use next::next_entry;
