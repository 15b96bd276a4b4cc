//! Threads that share one room: its lock, their seats, how they block and wake each other, a ledger of their answers, and a sink
//! for their journal.
#![tactic(auto)]

mod backoff;
mod hall;
mod keeping;
mod laws;
mod locked;
mod parker;
mod roused;
mod seat;
mod settled;
mod switchboard;
mod turn;
mod yields;

pub use cml_room::State;
pub use hall::{Hall, PARTS};
pub use keeping::{Collecting, Dropping, Failure, Keeping, PendingJournal, Sink, Start};
pub use laws::{
    halls_call_their_floor, nobody_is_left_asleep_in_a_hall, one_next_due_is_enough_in_a_hall,
    reserved_lasts_in_a_hall,
};
pub use seat::{Left, Seat};
pub use settled::{Count, Settled};
pub use switchboard::Switchboard;
