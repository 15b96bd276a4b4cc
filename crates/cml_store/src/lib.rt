//! The rule of a journal's file, without input and output: what to store and to sync next, what a kill keeps, and what a loss of
//! power keeps.
#![tactic(auto)]

mod exchange;
mod exchanges;
mod histories;
mod laws;
mod stage;
mod step;
mod store;

pub use exchange::{Exchange, Move, Way};
pub use exchanges::{
    acknowledged_stays, each_file_is_of_a_store, exchange_goes_on, exchange_keeps,
    failed_renaming_keeps_the_old_file,
};
pub use histories::{histories_stay, kept_is_recovered};
pub use laws::{
    either_will_do, it_goes_on, marks_stay, nothing_left_is_refused, nothing_more_is_done,
    refused_is_untouched, stored_survives_kills, stores_lie_inside, synced_survives_power_loss,
    whatever_is_behind,
};
pub use stage::Stage;
pub use step::{Step, Unaccepted};
pub use store::{GROWTH, LIMIT, Store};
