//! What a compaction plans: where in its channel's stream each port begins, and what is multicast again.
ghost use Rattle.std.specs.Prelude.{ℕ, ◌≡◌, ◌+◌, ◌-◌, ◌<◌, ◌≤◌, ◌++◌, take, drop, length, slice_get, Some, OnOk, IfOk};
ghost use Rattle.cml_calls.specs.declared.kind.Kind.TheVariants.{Channel};
ghost use Rattle.cml_board.specs.{Lawful, kind_of, made, owed_to};
ghost use Rattle.cml_compact.specs.{stock};
ghost use Rattle.cml_compact.specs.Planning.{AreBeginnings, AreFewest, IsPlan, stream};
ghost use Rattle.cml_compact.specs.Slowest.{AreSlowest};

use crate::slowest::owed;
use cml_board::{Board, Message, Name};
use cml_calls::Kind;
use cml_log::MessageLog;
use std::alloc::{AllocError, Global};

/// What is known before the first object is made again.
#[derive(Drop)]
pub struct Plan<M> {
    /// For each port, by its name, how many messages its channel gets before the port is made.
    pub begins: Vec<u64>,
    /// For each object, by its name, how many of `messages` come before its own.
    pub fronts: Vec<u64>,
    /// What is multicast again on each channel, channel after channel.
    pub messages: Vec<M>,
}

impl<M> Plan<M> {
    /// The messages of a channel's stream from one place to another.
    pub fn part(&self, channel: Name, from: u64, to: u64) -> &[M]
        requires order { from ≤ to }
        requires within { channel.0 < length self.now.fronts.items }
        requires enough { (front : ℕ) → slice_get self.now.fronts.items channel.0 ≡ Some front
            → front + to ≤ length self.now.messages.items }
        ensures { (front : ℕ) → slice_get self.now.fronts.items channel.0 ≡ Some front
            → result.now ≡ take (to - from) (drop (front + from) self.now.messages.items) }
    {
        let front = self.fronts[channel.0 as usize];
        &self.messages[(front + from) as usize..(front + to) as usize]
    }
}

/// Plans a compaction. Its time grows with the number of objects, and of messages that are multicast again.
pub fn plan_of<M: Message, L: MessageLog<M>>(
    alloc: Global,
    board: &Board<M, L>,
    slowest: &Vec<Name>,
) -> Result<Plan<M>, AllocError>
    requires slowest { AreSlowest board.now.history (length (made board.now.history)) slowest.now.items }
    ensures ok { IfOk result (λ plan. IsPlan board.now.history plan.begins.items plan.fronts.items plan.messages.items) }
{
    let begins = beginnings(alloc, board, slowest)?;
    board.facts();
    let mut fronts = Vec::new(alloc);
    let mut messages = Vec::new(alloc);
    for name in 0..board.object_count() {
        let from = slowest[name as usize];
        fronts.push(messages.len() as u64)?;
        add_stream(board, &mut messages, Name(name), from)?;
    }
    Ok(Plan {
        begins,
        fronts,
        messages,
    })
}

/// Adds what is multicast again on a channel, whose slowest port is `from`. Adds nothing for any other object.
fn add_stream<M: Message, L: MessageLog<M>>(
    board: &Board<M, L>,
    messages: &mut Vec<M>,
    name: Name,
    from: Name,
) -> Result<(), AllocError>
    requires slowest { kind_of board.now.history name.0 ≡ Some Channel → owed_to board.now.history from.0 ≡ stock board.now.history name.0 }
    ensures ok { OnOk result (messages.new.items ≡ messages.old.items ++ stream board.now.history name.0) }
{
    match board.kind(name) {
        Some(Kind::Channel) => add_owed(board, messages, from),
        Some(Kind::Mailbox | Kind::Port | Kind::IVar | Kind::MVar) | None => Ok(()),
    }
}

/// Adds what this object is owed.
fn add_owed<M: Message, L: MessageLog<M>>(
    board: &Board<M, L>,
    messages: &mut Vec<M>,
    from: Name,
) -> Result<(), AllocError>
    ensures ok { OnOk result (messages.new.items ≡ messages.old.items ++ owed_to board.now.history from.0) }
{
    for message in board.share_owed(from)? {
        messages.push(message)?;
    }
    Ok(())
}

/// Returns for each port, by its name, how many messages its channel gets before the port is made. A port begins no later than it
/// reads, and no later than a port that is made after it. It looks at each object twice.
pub fn beginnings<M: Message, L: MessageLog<M>>(
    alloc: Global,
    board: &Board<M, L>,
    slowest: &Vec<Name>,
) -> Result<Vec<u64>, AllocError>
    requires slowest { AreSlowest board.now.history (length (made board.now.history)) slowest.now.items }
    ensures { IfOk result (λ found. AreBeginnings board.now.history found.items) }
{
    board.facts();
    let count = board.object_count();
    let mut found = lengths(alloc, board, slowest)?;
    for made_later in 0..count {
        look(board, slowest, &mut found, Name(count - 1 - made_later));
    }
    Ok(found)
}

/// How long the stream of each channel is, by its name.
fn lengths<M: Message, L: MessageLog<M>>(
    alloc: Global,
    board: &Board<M, L>,
    slowest: &Vec<Name>,
) -> Result<Vec<u64>, AllocError>
    requires slowest { AreSlowest board.now.history (length (made board.now.history)) slowest.now.items }
    ensures { IfOk result (λ found. AreFewest board.now.history (length (made board.now.history)) found.items) }
{
    let mut found = Vec::new(alloc);
    for name in 0..board.object_count() {
        found.push(owed(board, slowest[name as usize]))?;
    }
    Ok(found)
}

/// Finds where a port begins, once this is known of those that are made after it.
fn look<M: Message, L: MessageLog<M>>(
    board: &Board<M, L>,
    slowest: &Vec<Name>,
    found: &mut Vec<u64>,
    name: Name,
)
    requires lawful { Lawful board.now.history }
    requires within { name.0 < length (made board.now.history) }
    requires slowest { AreSlowest board.now.history (length (made board.now.history)) slowest.now.items }
    requires after { AreFewest board.now.history (name.0 + 1) found.old.items }
    ensures { AreFewest board.now.history name.0 found.new.items }
{
    let Some(channel) = board.channel_of(name) else {
        return;
    };
    let at = channel.0 as usize;
    let passed = owed(board, slowest[at]) - owed(board, name);
    let fewest = passed.min(found[at]);
    found[at] = fewest;
    found[name.0 as usize] = fewest;
}
