//! Seats at a board with its lanes and feeds, and which of them can go on. Threads share it behind a lock, which is not here.
//! None of its calls blocks.
#![tactic(auto)]

mod laws;
mod news;
mod notice;
mod place;
mod places;
mod queues;
mod room;
mod seats;
mod state;
mod turns;
mod waiting;
mod waking;

pub use laws::{
    asked_is_not_due, next_due_ends, next_due_returns_anew, nobody_is_left_asleep,
    one_next_due_is_enough, woken_is_returned,
};
pub use notice::Notice;
pub use room::Room;
pub use state::State;
