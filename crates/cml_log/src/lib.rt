//! A list of messages. Each cursor reads it from its own place, and chunks that no cursor still needs are freed.
//!
//! This is a `ChunkLog` with four places in a chunk, after 10 pushes. Cursor `a` is at place 5, cursor `b` at the end:
//!
//! ```text
//!                head                                tail
//!                 |                                   |
//!                 v                                   v
//!     freed:      +-----+-----+-----+-----+  link     +-----+-----+-----+-----+
//!     0 to 3      |  4  |  5  |  6  |  7  | --------> |  8  |  9  |     |     |
//!                 +-----+-----+-----+-----+           +-----+-----+-----+-----+
//!                 cursors: 1  ^                       cursors: 1        ^
//!                             |                                         |
//!                             a                                    b, and next
//! ```
//!
//! A push writes at `next`, which is always in the tail: a push that fills the tail makes the next chunk first. When `a` goes on
//! to place 8, it follows the link. Then no cursor is in the head, and the log frees it.
#![tactic(auto)]

mod back;
mod chain;
mod chunk;
mod chunk_log;
mod cursors;
mod key;
mod message_log;
mod places;
mod plain_log;
mod row;

pub use back::Back;
pub use chunk_log::ChunkLog;
pub use key::Key;
pub use message_log::MessageLog;
pub use plain_log::PlainLog;
