//! Rooms, lanes and feeds for C and whatever calls C. Messages are 64-bit numbers, or bytes. `include/seryugo.h` says
//! in plain words what the clauses say here.
#![tactic(auto)]

mod asking;
mod blocks;
mod bytes_asking;
mod bytes_entries;
mod checked_entries;
mod checkers;
mod code;
mod common_calls;
mod compacting;
mod door;
mod door_bytes;
mod due;
mod entries;
mod entry_lines;
mod exchanges;
mod feeds;
mod handle;
mod journals;
mod keeper;
mod lanes;
pub mod laws;
mod message_kind;
mod messages;
mod owned;
mod putting;
mod raw;
mod read_journals;
mod readers;
mod restoring;
mod room_compacting;
mod rooms;
mod sealed_texts;
mod stores;
mod summing;
mod telling;
mod texts;
mod version;
