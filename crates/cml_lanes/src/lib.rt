//! Lanes onto a board and feeds from its ports: rings on which threads send and receive without a lock. The floor moves what
//! lanes sent into the board's journal, and what ports receive into the feeds.
//!
//! Here one thread has sent `a`, `b`, `c` and `d` on lane 0 to mailbox 7, and two of them were drained. Feed 0 of a channel, whose
//! port is 9, was given `x` and `y`, and its thread has received `x`:
//!
//! ```text
//!  Lane::send --> ring of lane 0   [ c | d |   |   ]       no lock: one thread sends, and the floor takes
//!                                    |
//!  Floor::drain                      v  one by one: Board::apply(Who::Lane(0), Call::Send(7, ..))
//!  the board     journal  .. Lane 0: Send(7, a)  Lane 0: Send(7, b)  Feed 0: Recv(9) = x  Feed 0: Recv(9) = y
//!                mailbox 7's log   [ a | b ]               a seat receives them from there
//!                the channel's log [ x | y | z ]           port 9 is owed z next
//!  Floor::pump                       |  one by one: Board::apply(Who::Feed(0), Call::Recv(9))
//!                                    v
//!  Feed::recv <-- ring of feed 0   [ y |   |   |   ]       no lock: the floor puts, and one thread receives
//! ```
#![tactic(auto)]

mod feed;
mod feed_slots;
mod floor;
mod inner_feed;
mod inner_lane;
mod lane;
mod lane_slots;
mod laws;
mod moving;
mod pumping;
mod way;

pub use feed::{Feed, FeedEnd, Taken};
pub use floor::Floor;
pub use lane::{Lane, LaneEnd, LaneFull};
pub use laws::{closed_lanes_get_no_entry, ended_feeds_get_no_entry, reserved_lasts_on_a_floor};

/// The most messages for which the ring of a lane or a feed may have room.
pub const MAX_CAPACITY: usize = 1024;
