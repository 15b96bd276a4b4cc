//! How messages go from a port into a feed's ring: each is received once a slot is free for it.
ghost use Rattle.std.specs.Prelude.{◌≡◌, ◌≢◌, ◌<◌, None, IfNone, IfSome};
ghost use Rattle.cml_board.specs.declared.call.Call.TheVariants.{Recv};
ghost use Rattle.cml_board.specs.{answer};
ghost use Rattle.cml_lanes.specs.{KeepsFeed, PumpsIn, Balks, IsSated, OnSlot, HasFeed, PumpsUntil, EndsSlot};

use crate::feed::FeedEnd;
use crate::inner_feed::InnerFeed;
use cml_board::{Board, Call, Message, Refusal, Reply, Response, Who};
use cml_log::MessageLog;

/// Looks how many slots of a slot's feed are free, and pumps messages into them until its port is owed no more or one is
/// refused. Returns how many it pumped, and the refusal.
pub fn pump_slot<M: Message, L: MessageLog<M>>(
    board: &mut Board<M, L>,
    slot: &mut Option<InnerFeed<M>>,
    number: u64,
) -> (usize, Option<Refusal>)
    requires { HasFeed board.old.history number slot.old }
    ensures { OnSlot slot.old slot.new (PumpsUntil L.CHUNK M.SURE number result.0 result.1 board.old board.new) }
{
    let Some(feed) = slot else { unreachable!() };
    feed.look();
    pump_free(board, feed, number)
}

/// Ends a slot's feed, and empties the slot. Returns `None` if there was none, or if its subscriber has dropped it.
pub fn finish_slot<M: Drop>(slot: &mut Option<InnerFeed<M>>, number: u64) -> Option<FeedEnd<M>>
    ensures ended { IfSome result (λ end. EndsSlot number slot.old end) }
    ensures emptied { slot.new ≡ None }
{
    slot.take()?.finish(number)
}

/// Pumps messages into all slots that are known to be free until the port is owed no more or one is refused. Returns how
/// many it pumped, and the refusal.
fn pump_free<M: Message, L: MessageLog<M>>(
    board: &mut Board<M, L>,
    feed: &mut InnerFeed<M>,
    number: u64,
) -> (usize, Option<Refusal>)
    requires { KeepsFeed board.old.history number feed.old }
    ensures pumped { IfNone result.1 (PumpsIn number result.0 board.old board.new feed.old feed.new × IsSated board.new feed.new) }
    ensures balked { IfSome result.1 (λ refusal. Balks L.CHUNK M.SURE number result.0 board.old board.new feed.old feed.new refusal) }
{
    let count = feed.free();
    for pumped in 0..count {
        // A full journal is no refusal if nothing is owed.
        if board.would_wait(&Call::Recv(feed.port())) {
            return (pumped, None);
        }
        let refusal = pump_next(board, feed, number);
        if refusal.is_some() {
            return (pumped, refusal);
        }
    }
    (count, None)
}

/// Pumps the next message that the port is owed. It stays owed if its call is refused.
fn pump_next<M: Message, L: MessageLog<M>>(
    board: &mut Board<M, L>,
    feed: &mut InnerFeed<M>,
    number: u64,
) -> Option<Refusal>
    requires kept { KeepsFeed board.old.history number feed.old }
    requires room { 0 < feed.old.free }
    requires owed { answer board.old.history (Recv feed.old.port) ≢ None }
    ensures pumped { IfNone result (PumpsIn number 1 board.old board.new feed.old feed.new) }
    ensures balked { IfSome result (λ refusal. Balks L.CHUNK M.SURE number 0 board.old board.new feed.old feed.new refusal) }
{
    match board.call(Who::Feed(number), Call::Recv(feed.port())) {
        Response::Reply(reply) => {
            let Reply::Got(message) = reply else {
                unreachable!()
            };
            feed.push(message);
            None
        }
        Response::WouldWait(_) => unreachable!(),
        Response::Refused(refusal, _) => Some(refusal),
    }
}
