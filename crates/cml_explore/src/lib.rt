//! An exploration: all endings that the threads of a script can have, in whatever order they go.
#![tactic(auto)]

mod ending;
mod exploring;
mod found;
mod key;
mod reading;
mod search;
mod states;
mod telling;
mod walk;

pub use ending::Ending;
pub use exploring::{explore, explore_journal};
