//! Compaction: a short journal that leaves what a board's long one leaves.
#![tactic(auto)]

mod compacting;
mod laws;
mod making;
mod measuring;
mod planning;
mod sending;
mod settling;
mod shortening;
mod slowest;
mod telling;

pub use compacting::compact;
pub use laws::same_is_answered_alike;
pub use measuring::compact_length;
pub use shortening::{last_seat, short_journal, short_journal_of};
