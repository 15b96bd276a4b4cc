ghost use Rattle.std.specs.Prelude.{◌≡◌, ◌≤◌, ◌^◌, IfOk, IfErr};
ghost use Rattle.cml_board.specs.{entries_in};
ghost use Rattle.cml_compact.specs.{AllBy, Compacts, Stops, compact_size};

use crate::making::make_all;
use crate::planning::plan_of;
use crate::sending::send_all;
use crate::settling::settle_all;
use crate::slowest::slowest;
use cml_board::{Board, Message, Refusal, Who};
use cml_log::MessageLog;
use std::alloc::Global;

/// Makes a board that leaves to later calls what this one leaves. It makes each object and sends again what is owed. A port is made
/// when its channel has come to its place, unless one that is made later reads from an earlier place: then it receives what it
/// is ahead. Then it closes ports and fills variables. These are `compact_length` calls, all by `who`.
/// The new journal has no entry before them. What was counted since this board was made begins at 0: positions of entries, and
/// how many messages an object sent and received. Its time grows with the number of those calls.
///
/// Fails with `JournalFull` if the calls are more than `limit`, or with `NoMemory`.
pub fn compact<M: Message, L: MessageLog<M>>(
    alloc: Global,
    board: &Board<M, L>,
    who: Who,
    limit: u64,
) -> Result<Board<M, L>, Refusal>
    requires least { 1 ≤ limit }
    requires most { limit ≤ 2 ^ 32 }
    ensures ok { IfOk result (λ new. Compacts board.now new) }
    ensures fits { IfOk result (λ new. entries_in new.history ≤ limit) }
    ensures whose { IfOk result (λ new. AllBy who new.history) }
    ensures limit { IfOk result (λ new. new.limit ≡ limit) }
    ensures err { IfErr result (Stops limit (compact_size board.now.history)) }
{
    board.facts();
    let Ok(slowest) = slowest(alloc, board) else {
        return Err(Refusal::NoMemory);
    };
    let Ok(plan) = plan_of(alloc, board, &slowest) else {
        return Err(Refusal::NoMemory);
    };
    // It has room for what is sure to come, and so moves nothing again and again while it grows.
    let objects = board.object_count();
    let entries = objects.min(limit);
    let Ok(mut new) = Board::with_capacity(alloc, limit, entries as usize, objects as usize) else {
        return Err(Refusal::NoMemory);
    };
    make_all(alloc, board, &mut new, who, &plan)?;
    send_all(alloc, board, &mut new, who, &slowest, &plan)?;
    settle_all(alloc, board, &mut new, who)?;
    // The contract of `journal` says that a journal has no more entries than its limit.
    let _journal = new.journal();
    Ok(new)
}
