//! Mailboxes, channels with their ports, and variables on one board, with the journal of every call that the board accepted.
#![tactic(auto)]

mod answer;
mod base_laws;
mod board;
mod call;
mod checking;
mod cut_entries;
mod entry;
mod expected;
mod ghost_entries;
mod laws;
mod message;
mod object;
mod outcome;
mod parts;
mod restored;
mod want;

pub use answer::Answer;
pub use base_laws::{bases_tell_answers, bases_tell_messages, bases_tell_objects};
pub use board::{Board, BoardLog};
pub use call::{Call, Name};
pub use checking::{Checker, check};
pub use cml_calls::{
    Ask, BadText, Bytes, Give, Kind, Make, ReplyKind, Shape, Takers, Text, TooLong,
};
pub use entry::{Entry, Reply, Who};
pub use expected::{Expected, Unlawful};
pub use ghost_entries::GhostEntries;
pub use laws::{
    calls_are_their_parts, calls_wait_by_want, lawful_at_every_position, replies_suit_calls,
    reserved_lasts,
};
pub use message::Message;
pub use outcome::{Outcome, Refusal, Response};
pub use restored::{Makers, Restored};
pub use want::Want;
