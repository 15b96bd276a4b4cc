//! Journals as text: how an entry is written on a line and read back, and the sum of a text.
#![tactic(auto)]

mod beginning;
mod bytes;
mod check;
mod due;
mod fault;
mod laws;
mod lines;
mod pieces;
mod reader;
mod reading;
mod sealed;
mod spelling;
mod stop;
mod sum;
mod summing;
mod words;
mod writing;
mod written;

pub use check::Check;
pub use fault::{TooLong, Unended, Unread, Unwritten, What};
pub use laws::{
    journals_are_pieces, lines_are_entries, pieces_are_read, sealed_pieces_are_read,
    streams_are_pieces, streams_may_be_cut,
};
pub use pieces::{add_piece, add_piece_in, write_piece};
pub use reader::Reader;
pub use reading::read_entry;
pub use sealed::{add_sealed_piece, write_sealed_piece};
pub use spelling::{ScriptWords, Spelling};
pub use stop::{Halt, Stop};
pub use sum::Sum;
pub use summing::Summing;
pub use writing::{write_entry, write_reply};
pub use written::Written;
