//! What threads that share a board have in common: their switchboard, what they take from a reply, and the end.
ghost use Rattle.std.specs.Prelude.{◌≡◌, ◌+◌, IfOk, Ok};
ghost use Rattle.cml_threads.specs.{answers_in};

use crate::calls::{Trouble, message_of, name_of, nothing_of};
use cml_board::{Call, Message, Name, Refusal, Reply};
use cml_lanes::LaneEnd;
use cml_log::MessageLog;
use cml_threads::{Count, Left, Settled, Switchboard};
use std::alloc::{AllocFailed, Global};
use std::sync::ledger::Ledger;
use std::thread::{JoinHandle, Threads};

/// A switchboard whose messages are numbers. `L` is the type of its logs: `BoardLog<u64>`. The prover needs less time for a
/// function over each such type.
pub type Shared<L, Led> = Switchboard<u64, L, Led>;

/// What is left of one at the end.
pub type Ended<L> = Settled<u64, L>;

/// The result of a call on a switchboard: the reply, or the refusal and the call that came back.
pub type Replied<M> = Result<Reply<M>, (Refusal, Call<M>)>;

impl From<Refusal> for Trouble {
    fn from(refusal: Refusal) -> Trouble {
        Trouble::Refused(refusal)
    }
}

impl<M: Message> From<(Refusal, Call<M>)> for Trouble {
    fn from(back: (Refusal, Call<M>)) -> Trouble {
        Trouble::Refused(back.0)
    }
}

impl From<(LaneEnd<u64>, Refusal)> for Trouble {
    fn from(back: (LaneEnd<u64>, Refusal)) -> Trouble {
        Trouble::Refused(back.1)
    }
}

impl<T: Drop> From<AllocFailed<T>> for Trouble {
    fn from(_failed: AllocFailed<T>) -> Trouble {
        Trouble::NoMemory
    }
}

/// The name of the object that was made.
pub fn made<M: Message>(replied: Replied<M>) -> Result<Name, Trouble>
    ensures { IfOk result (λ name. replied ≡ Ok (Reply.Made name)) }
{
    name_of(replied?)
}

/// The message that was got.
pub fn got<M: Message>(replied: Replied<M>) -> Result<M, Trouble>
    ensures { IfOk result (λ message. replied ≡ Ok (Reply.Got message)) }
{
    message_of(replied?)
}

/// Nothing, of a call whose reply must be `Done`.
pub fn done<M: Message>(replied: Replied<M>) -> Result<(), Trouble>
    ensures { IfOk result (λ _. replied ≡ Ok Reply.Done) }
{
    nothing_of(replied?)
}

/// What is left of a switchboard that all seats have left.
pub fn settle<M: Message, L: MessageLog<M>, Led: Ledger>(
    shared: Switchboard<M, L, Led>,
    lefts: Vec<Left<Led>>,
) -> Result<Settled<M, L>, Trouble>
    ensures { IfOk result (λ settled. settled.seats ≡ answers_in lefts.items) }
{
    match shared.settle(lefts) {
        Ok(settled) => Ok(settled),
        Err(_) => Err(Trouble::Unsettled),
    }
}

/// What an example found, and the seats of its threads.
pub type Came<T, Led> = Result<(T, Vec<Left<Led>>), Trouble>;

/// What an example found, and what is left of its switchboard once all seats have left.
pub fn settled<T: Drop, M: Message, L: MessageLog<M>, Led: Ledger>(
    shared: Switchboard<M, L, Led>,
    came: Came<T, Led>,
) -> Result<(T, Settled<M, L>), Trouble>
    ensures { IfOk result (λ found. IfOk came (λ gave. found.1.seats ≡ answers_in gave.1.items)) }
{
    let (found, lefts) = came?;
    Ok((found, settle(shared, lefts)?))
}

/// What an example found, and how many entries there are at the end.
pub fn counted<T: Drop, M: Message, L: MessageLog<M>, Led: Ledger>(
    shared: Switchboard<M, L, Led>,
    came: Came<T, Led>,
) -> Result<(T, Count), Trouble>
    ensures seats { IfOk result (λ found. IfOk came (λ gave. found.1.seats ≡ answers_in gave.1.items)) }
    ensures total { IfOk result (λ found. found.1.total ≡ found.1.seats + found.1.rings) }
{
    let (found, ended) = settled(shared, came)?;
    Ok((found, ended.count()))
}

/// What a thread found, and its seat.
pub fn with_one<T: Drop, Led: Ledger>(
    alloc: Global,
    found: Result<T, Trouble>,
    left: Left<Led>,
) -> Came<T, Led> {
    let mut lefts = Vec::new(alloc);
    lefts.push(left)?;
    Ok((found?, lefts))
}

/// What two threads found, and their seats.
pub fn with_both<T: Drop, Led: Ledger>(
    alloc: Global,
    found: Result<T, Trouble>,
    one: Left<Led>,
    two: Left<Led>,
) -> Came<T, Led>
    ensures found { IfOk result (λ gave. found ≡ Ok gave.0) }
    ensures seats { IfOk result (λ gave. answers_in gave.1.items ≡ one.share + two.share) }
{
    let mut lefts = Vec::new(alloc);
    lefts.push(one)?;
    lefts.push(two)?;
    Ok((found?, lefts))
}

/// What several threads found, if each found something, and their seats.
pub fn gathered<T: Drop, Led: Ledger>(
    alloc: Global,
    each: Vec<(Result<T, Trouble>, Left<Led>)>,
) -> Came<Vec<T>, Led> {
    let mut all = Vec::new(alloc);
    let mut lefts = Vec::new(alloc);
    for (found, left) in each {
        all.push(found?)?;
        lefts.push(left)?;
    }
    Ok((all, lefts))
}

/// Joins threads, and adds what each returned to what was done without a thread.
pub fn join_all<T: Drop, R: Threads>(
    rt: &R,
    running: Vec<JoinHandle<T>>,
    returned: Vec<T>,
) -> Result<Vec<T>, Trouble> {
    let mut returned = returned;
    for handle in running {
        returned.push(handle.join(rt))?;
    }
    Ok(returned)
}
