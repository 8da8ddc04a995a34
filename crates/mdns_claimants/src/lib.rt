//! The live groups of a daemon, each with its name and its claim of it, and the moments at which something is due of each; and what is read
//! off them: own records, NSEC records, answers, probes. (RFC 6762 6 and 8)
#![tactic(auto)]

pub mod answers;
mod claimant;
mod claimants;
mod due;
pub mod held;
mod looks;
mod moment;
pub mod names;
pub mod ours;
pub mod own;
pub mod owners;
pub mod probes;
mod renewal;

pub use claimant::Claimant;
pub use claimants::Claimants;
pub use looks::look_at;
pub use renewal::Renewal;
