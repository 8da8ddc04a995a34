//! Groups, computed plainly from a whole history: which are live, their names and records, and which are sure.
#![tactic(auto)]

mod begun;
mod group;
mod live;
mod names;
mod probing;
mod records;
mod registration;
mod sure;

pub use group::{GroupType, LiveGroup};
pub use live::{groups, host_name, is_group, names_of};
pub use names::{free_number, group_name, is_taken, number_of, numbered_name};
pub use probing::{is_probe, probe_moments, probes, put_moment_if, sets_back, tick_moments};
pub use records::{group_records, shared_records, unique_record, unique_records};
pub use registration::registered_count;
pub use sure::{has_same, is_own, is_sure, own_records, sure_groups};
