//! Whether a journal from elsewhere is a lawful history of one thread.
ghost use Rattle.std.specs.Prelude.{◌≡◌, ◌+◌, ◌≤◌, ◌<◌, ◌^◌, length, option_map, IfOk, OnErr};
ghost use Rattle.cml_board.specs.{no_entries, entries_in, Checks, Feeds, Pauses, Restores, RestoresWith, count_of, verdict_of, expected_of};
ghost use Rattle.cml_board.specs.{IsClean, Follows, FollowsOne, FollowsSome};

use crate::board::{Board, BoardLog};
use crate::entry::Entry;
use crate::expected::{Expected, Unlawful};
use crate::message::Message;
use crate::outcome::{Refusal, Response};
use crate::restored::{Makers, Restored};
use cml_log::MessageLog;
use std::alloc::{AllocError, Global};
use std::marker::Model;
use std::mem;

/// Checks whether a journal is a lawful history of one thread. If not, returns its first position that is unlawful. It makes
/// each call again on a new board, for which it allocates memory.
pub fn check<M: Message>(
    alloc: Global,
    entries: &[Entry<M>],
) -> Result<Result<(), usize>, AllocError>
    requires { length entries.now ≤ 2 ^ 32 }
    ensures { IfOk result (λ verdict. Checks entries.now verdict) }
{
    let mut checker = Checker::new(alloc)?;
    match checker.feed(entries)? {
        Ok(()) => Ok(Ok(())),
        Err(at) => Ok(Err(at as usize)),
    }
}

/// Checks a journal that comes in pieces, as one does that was cut. Feed it the pieces in order, the first from when the board
/// was made. It keeps the objects and what waits in them, and no entry. `L` is the type of the board's logs.
#[derive(Drop)]
pub struct Checker<M: Message, L: MessageLog<M> = BoardLog<M>> {
    alloc: Global,

    // Its journal is cut after each entry.
    board: Board<M, L>,
    makers: Makers,
    unlawful: Option<Unlawful<M>>,
}

impl<M: Message, L: MessageLog<M>> Model for Checker<M, L> {
    ghost use Rattle.std.specs.Prelude.{MatchOption, ⊤};
    ghost use Rattle.cml_board.specs.Checking.{Found, checked, IsClean};

    ghost Value = { Found M };

    ghost view = { λ c. checked c.unlawful c.board.history };

    ghost invariant = { λ c. MatchOption c.unlawful (IsClean c.board c.makers) (λ _. ⊤) };
}

impl<M: Message> Checker<M> {
    /// Makes a checker that has seen no entry.
    pub fn new(alloc: Global) -> Result<Checker<M>, AllocError>
        ensures { IfOk result (λ checker. checker ≡ Ok no_entries) }
    {
        Checker::with_logs(alloc)
    }
}

impl<M: Message, L: MessageLog<M>> Checker<M, L> {
    /// Makes a checker that has seen no entry, whose board has logs of this type. A board that goes on from it has them too.
    pub fn with_logs(alloc: Global) -> Result<Checker<M, L>, AllocError>
        ensures { IfOk result (λ checker. checker ≡ Ok no_entries) }
    {
        Ok(Checker {
            alloc,
            board: Board::new(alloc, 1)?,
            makers: Makers::none(),
            unlawful: None,
        })
    }

    /// Returns how many entries it found lawful: all that you fed it, or those before the first that isn't.
    pub fn entries(&self) -> u64
        ensures { result ≡ count_of self.now }
    {
        match &self.unlawful {
            Some(unlawful) => unlawful.at,
            None => self.board.entries(),
        }
    }

    /// Returns whether all entries that you fed it are lawful. If not, returns the first position that isn't, counted from the
    /// journal's first entry.
    pub fn verdict(&self) -> Result<(), u64>
        ensures { result ≡ verdict_of self.now }
    {
        match &self.unlawful {
            Some(unlawful) => Err(unlawful.at),
            None => Ok(()),
        }
    }

    /// Returns what a board with the history before the first unlawful entry does with that entry's call. `None` if no entry is
    /// unlawful.
    pub fn expected(&self) -> Option<&Expected<M>>
        ensures { option_map (λ expected. expected.now) result ≡ expected_of self.now }
    {
        match &self.unlawful {
            Some(unlawful) => Some(&unlawful.expected),
            None => None,
        }
    }

    /// Returns a board with the objects and the history that these entries give, as if it had made each call and then cut its
    /// journal. Its journal takes `limit` entries until the next cut. If an entry is unlawful, returns the checker.
    pub fn into_board(self, limit: u64) -> Result<Board<M, L>, Checker<M, L>>
        requires least { 1 ≤ limit }
        requires most { limit ≤ 2 ^ 32 }
        ensures { Restores self limit result }
    {
        match self.unlawful {
            Some(_) => Err(self),
            None => Ok(self.board.with_limit(limit)),
        }
    }

    /// Returns the same board, and who made its entries. The checker is then like a new one. If an entry is unlawful, returns
    /// `None`, and the checker stays as it is.
    pub fn restore(&mut self, limit: u64) -> Option<Restored<M, L>>
        requires least { 1 ≤ limit }
        requires most { limit ≤ 2 ^ 32 }
        ensures { RestoresWith self.old limit self.new result }
    {
        if let Some(_) = &self.unlawful {
            return None;
        }
        let board = mem::replace(&mut self.board, Board::fresh(self.alloc, 1));
        let makers = mem::replace(&mut self.makers, Makers::none());
        Some(Restored::new(board.with_limit(limit), makers))
    }

    /// Checks the journal's next entries. If the journal isn't lawful with them, returns its first position that isn't, counted
    /// from its first entry, and returns the same from then on.
    ///
    /// If it has no memory, it has checked some of them. `entries` says how many in all: go on with the next.
    pub fn feed(&mut self, entries: &[Entry<M>]) -> Result<Result<(), u64>, AllocError>
        requires { count_of self.old + length entries.now < 2 ^ 64 }
        ensures verdict { IfOk result (λ verdict. Feeds self.old entries.now self.new verdict) }
        ensures refused { OnErr result (Pauses self.old entries.now self.new) }
    {
        if let Some(unlawful) = &self.unlawful {
            return Ok(Err(unlawful.at));
        }
        match follow_all(self.alloc, &mut self.board, &mut self.makers, entries)? {
            Ok(()) => Ok(Ok(())),
            Err(unlawful) => {
                let at = unlawful.at;
                self.unlawful = Some(unlawful);
                Ok(Err(at))
            }
        }
    }
}

/// Makes the calls of entries again, up to the first that ends in another way than its entry says.
fn follow_all<M: Message, L: MessageLog<M>>(
    alloc: Global,
    board: &mut Board<M, L>,
    makers: &mut Makers,
    entries: &[Entry<M>],
) -> Result<Result<(), Unlawful<M>>, AllocError>
    requires clean { IsClean board.old makers.old }
    requires counted { entries_in board.old.history + length entries.now < 2 ^ 64 }
    ensures ok { IfOk result (λ verdict. Follows board.old board.new makers.new entries.now verdict) }
    ensures err { OnErr result (IsClean board.new makers.new × FollowsSome board.old.history entries.now board.new.history) }
{
    let start = board.entries();
    for (at, entry) in entries.iter().enumerate() {
        if let Some(expected) = follow(alloc, board, makers, entry)? {
            return Ok(Err(Unlawful {
                at: start + at as u64,
                expected,
            }));
        }
    }
    Ok(Ok(()))
}

/// Makes an entry's call again. If the answer differs, returns what the board did with the call.
#[tactic(auto, using(crate::proofs::NumberingLemmas::makers_with, crate::proofs::NumberingLemmas::rings_within))]
fn follow<M: Message, L: MessageLog<M>>(
    alloc: Global,
    board: &mut Board<M, L>,
    makers: &mut Makers,
    entry: &Entry<M>,
) -> Result<Option<Expected<M>>, AllocError>
    requires clean { IsClean board.old makers.old }
    requires counted { entries_in board.old.history + 1 < 2 ^ 64 }
    ensures ok { IfOk result (λ expected. FollowsOne board.old board.new makers.new entry.now expected) }
    ensures err { OnErr result (IsClean board.new makers.new × (board.new.history ≡ board.old.history)) }
{
    let call = entry.call.share(alloc)?;
    match board.call(entry.who, call) {
        Response::Reply(reply) => {
            board.cut();
            *makers = makers.with(entry.who);
            if reply.same(&entry.reply) {
                return Ok(None);
            }
            Ok(Some(Expected::Reply(reply)))
        }
        Response::WouldWait(_) => Ok(Some(Expected::WouldWait)),
        Response::Refused(Refusal::NoSuch, _) => Ok(Some(Expected::Refused(Refusal::NoSuch))),
        Response::Refused(Refusal::WrongKind, _) => Ok(Some(Expected::Refused(Refusal::WrongKind))),
        Response::Refused(Refusal::NoMemory, _) => Err(AllocError),
        Response::Refused(_, _) => unreachable!(),
    }
}
