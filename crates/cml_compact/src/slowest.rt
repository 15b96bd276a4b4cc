//! Which open port of each channel is owed most.
ghost use Rattle.std.specs.Prelude.{◌≡◌, ◌<◌, ◌+◌, length, IfOk};
ghost use Rattle.cml_board.specs.{Lawful, owed_to, made};
ghost use Rattle.cml_compact.specs.Slowest.{AreNames, AreSlowest};

use cml_board::{Board, Message, Name};
use cml_log::MessageLog;
use std::alloc::{AllocError, Global};

/// Returns for each channel, by its name, an open port that is owed most. It looks at each object once.
pub fn slowest<M: Message, L: MessageLog<M>>(
    alloc: Global,
    board: &Board<M, L>,
) -> Result<Vec<Name>, AllocError>
    ensures { IfOk result (λ found. AreSlowest board.now.history (length (made board.now.history)) found.items) }
{
    board.facts();
    let count = board.object_count();
    let mut found = names(alloc, count)?;
    for port in 0..count {
        compare(board, &mut found, Name(port));
    }
    Ok(found)
}

/// The names of this many objects, in order.
fn names(alloc: Global, count: u64) -> Result<Vec<Name>, AllocError>
    ensures { IfOk result (λ names. AreNames count names.items) }
{
    let mut names = Vec::new(alloc);
    for name in 0..count {
        names.push(Name(name))?;
    }
    Ok(names)
}

/// If the object is a port that is owed more than the one that was found for its channel, it takes that one's place.
fn compare<M: Message, L: MessageLog<M>>(board: &Board<M, L>, found: &mut Vec<Name>, port: Name)
    requires lawful { Lawful board.now.history }
    requires within { port.0 < length (made board.now.history) }
    requires before { AreSlowest board.now.history port.0 found.old.items }
    ensures { AreSlowest board.now.history (port.0 + 1) found.new.items }
{
    let Some(channel) = board.channel_of(port) else {
        return;
    };
    let at = channel.0 as usize;
    if owed(board, found[at]) < owed(board, port) {
        found[at] = port;
    }
}

/// How many messages an object is owed. If it was never sent one, it is owed none, and there is no need to look at its cursor.
pub fn owed<M: Message, L: MessageLog<M>>(board: &Board<M, L>, name: Name) -> u64
    ensures { result ≡ length (owed_to board.now.history name.0) }
{
    if board.sent_count(name) == Some(0) {
        return 0;
    }
    board.owed_count(name).unwrap_or(0)
}
