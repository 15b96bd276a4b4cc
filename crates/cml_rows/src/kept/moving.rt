//! A lane and a feed of a switchboard in a file.
use super::playing::Kept;
use cml_board::{Message, Name};
use cml_file::Unsent;
use cml_journal::Written;
use std::sync::Wait;
use std::sync::ledger::Ledger;

/// What became of a message that was sent by a lane.
#[derive(Debug, Drop)]
pub enum Moved {
    /// So many messages were drained, and the lane is closed.
    Drained(usize),
    TooLong,
    Failed,
}

/// Sends a message by a lane, drains it, and closes the lane by its end.
pub fn move_by_lane<M: Message + Written, Led: Ledger, R: Wait>(
    rt: &R,
    board: &Kept<M, Led>,
    target: Name,
    message: M,
) -> Moved {
    let Ok((mut lane, number)) = board.open_lane(rt, target, 4) else {
        return Moved::Failed;
    };
    match lane.send(message) {
        Ok(()) => {}
        Err(Unsent::Refused(_, _)) => return abandon(rt, board, number),
        Err(Unsent::Full(_)) => return Moved::Failed,
    }
    let (Ok(moved), Some(end)) = (board.drain(rt, number), lane.finish()) else {
        return Moved::Failed;
    };
    match board.close_lane(rt, end) {
        Ok(()) => Moved::Drained(moved),
        Err(_) => Moved::Failed,
    }
}

fn abandon<M: Message + Written, Led: Ledger, R: Wait>(
    rt: &R,
    board: &Kept<M, Led>,
    lane: u64,
) -> Moved {
    match board.abandon_lane(rt, lane) {
        Ok(()) => Moved::TooLong,
        Err(_) => Moved::Failed,
    }
}

/// Multicasts a message by a lane that is then dropped, and returns what a feed gives, and how many messages were pumped.
pub fn move_by_feed<M: Message + Written, Led: Ledger, R: Wait>(
    rt: &R,
    board: &Kept<M, Led>,
    channel: Name,
    message: M,
) -> Option<(Option<M>, usize)> {
    let (mut feed, number) = board.open_feed(rt, channel, 4).ok()?;
    let (mut lane, of_lane) = board.open_lane(rt, channel, 4).ok()?;
    lane.send(message).ok()?;
    board.drop_lane(rt, of_lane).ok()?;
    let pumped = board.pump(rt, number).ok()?;
    let taken = feed.recv();
    board.end_feed(rt, number).ok()?;
    Some((taken, pumped))
}
