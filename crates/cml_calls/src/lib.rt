//! What threads say, as data: the table of calls (which objects take each, which replies it may have, whether it may block, its
//! word), and the messages that calls carry.
#![tactic(auto)]

mod body;
mod bytes;
mod few;
mod impls;
mod kind;
mod shape;
mod table;
mod text;

pub use bytes::{Bytes, TooLong};
pub use kind::Kind;
pub use shape::{ReplyKind, Shape, Takers};
pub use table::{Ask, Give, Make, shape_of_filled};
pub use text::{BadText, Text, is_text};
