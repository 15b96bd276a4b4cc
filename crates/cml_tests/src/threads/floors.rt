//! A feed that has ended, on a floor: what is left in its ring.
ghost use Rattle.std.specs.Prelude.{◌≡◌};
ghost use Rattle.cml_lanes.specs.{SameFeedRing};

use cml_board::{Board, BoardLog, Call, Name};
use cml_lanes::{Feed, FeedEnd, Floor};
use std::alloc::{AllocError, Global};

/// Each floor's seat, and its object.
const SEAT: u64 = 0;

const FIRST: Name = Name(0);

type Numbers = Floor<u64, BoardLog<u64>>;

/// Whether a feed with room for one message gives what was pumped, before and after it is ended, and its port is owed the
/// rest.
pub fn gives_what_was_pumped(alloc: Global) -> Result<bool, AllocError> {
    let mut floor: Numbers = Floor::new(alloc, Board::new(alloc, 100)?);
    floor.apply(SEAT, Call::NewChannel);
    Ok(gives(&mut floor) == Some(true))
}

fn gives(floor: &mut Numbers) -> Option<bool> {
    let Ok((mut feed, number)) = floor.open_feed(FIRST, 1) else {
        return None;
    };
    let taken = takes_one_of_two(floor, &mut feed, number);
    let Ok(Some(end)) = floor.end_feed(number) else {
        return None;
    };
    let port = feed.port();
    let left = leaves_two(feed, end);
    let board = floor.board();
    Some(taken && left && board.owed_count(port) == Some(1) && board.got_count(port) == Some(2))
}

/// Three are multicast; one is pumped and taken, and a second one pumped.
fn takes_one_of_two(floor: &mut Numbers, feed: &mut Feed<u64>, number: u64) -> bool
    ensures floor { SameFeedRing number floor.old floor.new }
    ensures feed { feed.new.ring ≡ feed.old.ring }
{
    cast_three(floor);
    let counts = (pump(floor, number), pump(floor, number));
    let taken = feed.recv();
    let last = pump(floor, number);
    counts == (Some(1), Some(0)) && taken == Some(1) && last == Some(1)
}

fn cast_three(floor: &mut Numbers)
    ensures { floor.new.feeds ≡ floor.old.feeds }
{
    for number in 1..4u64 {
        floor.apply(SEAT, Call::Cast(FIRST, number));
    }
}

fn pump(floor: &mut Numbers, number: u64) -> Option<usize>
    ensures { SameFeedRing number floor.old floor.new }
{
    floor.pump(number).ok()
}

fn leaves_two(feed: Feed<u64>, end: FeedEnd<u64>) -> bool
    requires { end.ring ≡ feed.ring }
{
    let mut rest = feed.rest(end);
    let before = rest.left();
    let given = (rest.next(), rest.next());
    before == 1 && given == (Some(2), None) && rest.left() == 0
}
