//! How long a compacted journal is.
ghost use Rattle.std.specs.Prelude.{◌≡◌, ◌<◌, true, false, length, min, IfOk};
ghost use Rattle.cml_calls.specs.{is_port};
ghost use Rattle.cml_board.specs.{Lawful, made, is_a, is_open};
ghost use Rattle.cml_compact.specs.Stages.{weight, settled};
ghost use Rattle.cml_compact.specs.Planning.{AreBeginnings};
ghost use Rattle.cml_compact.specs.Slowest.{AreSlowest};
ghost use Rattle.cml_compact.specs.{compact_size};

use crate::planning::beginnings;
use crate::slowest::{owed, slowest};
use cml_board::{Board, Message, Name};
use cml_calls::Kind;
use cml_log::MessageLog;
use std::alloc::{AllocError, Global};

/// Returns how many entries `compact` would make of this board, or 2^64 - 1 if they are more. Its time grows with the number of
/// objects alone.
pub fn compact_length<M: Message, L: MessageLog<M>>(
    alloc: Global,
    board: &Board<M, L>,
) -> Result<u64, AllocError>
    ensures { IfOk result (λ entries. entries ≡ min (compact_size board.now.history) 18446744073709551615) }
{
    board.facts();
    let slowest = slowest(alloc, board)?;
    let begins = beginnings(alloc, board, &slowest)?;
    let mut entries: u64 = 0;
    for name in 0..board.object_count() {
        let calls = calls_of(board, Name(name), &slowest, &begins);
        entries = entries.saturating_add(calls).saturating_add(1);
    }
    Ok(entries)
}

/// How many calls give an object what it has, once it is made.
fn calls_of<M: Message, L: MessageLog<M>>(
    board: &Board<M, L>,
    name: Name,
    slowest: &Vec<Name>,
    begins: &Vec<u64>,
) -> u64
    requires lawful { Lawful board.now.history }
    requires within { name.0 < length (made board.now.history) }
    requires slowest { AreSlowest board.now.history (length (made board.now.history)) slowest.now.items }
    requires begins { AreBeginnings board.now.history begins.now.items }
    ensures { result ≡ weight (settled board.now.history name.0) }
{
    match board.is_open(name) {
        Some(true) => calls_of_open(board, name, slowest, begins),
        Some(false) => 1,
        None => calls_of_other(board, name, slowest),
    }
}

/// How many calls give an open port what it has, once it is made.
fn calls_of_open<M: Message, L: MessageLog<M>>(
    board: &Board<M, L>,
    name: Name,
    slowest: &Vec<Name>,
    begins: &Vec<u64>,
) -> u64
    requires lawful { Lawful board.now.history }
    requires within { name.0 < length (made board.now.history) }
    requires slowest { AreSlowest board.now.history (length (made board.now.history)) slowest.now.items }
    requires begins { AreBeginnings board.now.history begins.now.items }
    requires port { is_a is_port board.now.history name.0 ≡ true }
    requires opened { is_open board.now.history name.0 ≡ true }
    ensures { result ≡ weight (settled board.now.history name.0) }
{
    match board.channel_of(name) {
        Some(channel) => {
            let passed = owed(board, slowest[channel.0 as usize]) - owed(board, name);
            passed - begins[name.0 as usize]
        }
        None => unreachable!(),
    }
}

/// How many calls give an object that is no port what it has, once it is made.
fn calls_of_other<M: Message, L: MessageLog<M>>(
    board: &Board<M, L>,
    name: Name,
    slowest: &Vec<Name>,
) -> u64
    requires lawful { Lawful board.now.history }
    requires within { name.0 < length (made board.now.history) }
    requires slowest { AreSlowest board.now.history (length (made board.now.history)) slowest.now.items }
    requires port { is_a is_port board.now.history name.0 ≡ false }
    ensures { result ≡ weight (settled board.now.history name.0) }
{
    if let Some(held) = board.held(name) {
        return match held {
            Some(_) => 1,
            None => 0,
        };
    }
    match board.kind(name) {
        Some(Kind::Mailbox) => owed(board, name),
        Some(Kind::Channel) => owed(board, slowest[name.0 as usize]),
        Some(Kind::Port) => 0,
        Some(Kind::IVar) => 0,
        Some(Kind::MVar) => 0,
        None => 0,
    }
}
