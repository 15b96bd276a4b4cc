//! A switchboard whose journal is kept in a file: what each call that returned did survives a kill of the process.
#![tactic(auto)]

mod disk;
mod failed;
mod fault;
mod filing;
mod finding;
mod judging;
mod kept;
mod kept_lane;
mod lines;
mod recovered;
mod refused;
mod unstored;

pub use failed::Failed;
pub use fault::{Fault, Unopened};
pub use judging::{Judged, More, judge};
pub use kept::KeptSwitchboard;
pub use kept_lane::{KeptLane, Unsent};
pub use recovered::Recovered;
pub use refused::Refused;
