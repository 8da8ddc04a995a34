//! The random words of a script: one for all, or those of a seed one after another.
#![tactic(auto)]

mod seeded;
mod words;

pub use seeded::SeedWords;
pub use words::Words;
