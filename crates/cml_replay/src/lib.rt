//! Scripts without lanes and feeds, performed on one board by one thread, always in one order.
#![tactic(auto)]

mod execution;
mod laws;
mod perform;
mod replaying;

pub use laws::{
    reports_tell_what_is_left, schedules_are_one, scripts_have_a_schedule, stalled_threads_wait,
};
pub use perform::play;
pub use replaying::{replay, replay_journal, replay_text};
