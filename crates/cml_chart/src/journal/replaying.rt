//! The calls of a journal are made again, on a new board.
ghost use Rattle.std.specs.Prelude.{◌≡◌, ◌≤◌, ◌-◌, ◌∷◌, ◌++◌, ℕ, List, [], length, None, IfOk, IfErr, OnOk};
ghost use Rattle.cml_board.specs.{Lawful};
ghost use Rattle.cml_journal.specs.{unended};
ghost use Rattle.cml_chart.specs.{IsReplayed, IsWholeJournal, Replays, EndsReplay};

use crate::ending::Ending;
use cml_board::{Board, BoardLog, Entry, Message, Refusal, Response};
use cml_journal::{Reader, Unread, Written};
use std::alloc::Global;
use std::marker::Model;

/// More entries than a journal in memory has.
const LIMIT: u64 = 4_294_967_296;

/// The board that a journal's entries leave, which has all of them in its journal.
pub(crate) fn replayed<M: Message + Written>(
    alloc: Global,
    text: &[u8],
) -> Result<Board<M, BoardLog<M>>, Ending>
    ensures whole { IfOk result (λ board. IsWholeJournal M.VERSION M.meaning text.now board) }
    ensures ended { IfErr result (λ ending. EndsReplay ending) }
{
    let mut replay = Replay::<M>::new(alloc)?;
    let mut rest = text;
    while !rest.is_empty() {
        rest = replay.take_line(rest)?;
    }
    replay.end()
}

/// How far a journal was read, and the board after its entries.
#[derive(Drop)]
struct Replay<M: Message> {
    alloc: Global,
    reader: Reader,
    board: Board<M, BoardLog<M>>,
}

impl<M: Message + Written> Replay<M> {
    #[tactic(auto, using(crate::proofs::JournalLemmas::begins))]
    fn new(alloc: Global) -> Result<Replay<M>, Ending>
        ensures begins { IfOk result (λ replay. IsReplayed M.VERSION M.meaning [] replay.reader replay.board) }
        ensures ended { IfErr result (λ ending. EndsReplay ending) }
    {
        Ok(Replay {
            alloc,
            reader: Reader::from(alloc, 0),
            board: Board::new(alloc, LIMIT)?,
        })
    }

    /// Reads up to a line end, and makes the call on that line. Returns the bytes after it.
    fn take_line<'a>(&mut self, bytes: &'a [u8]) -> Result<&'a [u8], Ending>
        ensures taken { IfOk result (λ rest. (taken : List ℕ) × (bytes.now ≡ taken ++ rest.now)
            × Replays M.VERSION M.meaning taken self.old.reader self.old.board self.new.reader self.new.board) }
        ensures shorter { IfOk result (λ rest. length rest.now ≤ length bytes.now - 1) }
        ensures ended { IfErr result (λ ending. EndsReplay ending) }
    {
        let (found, rest) = match self.reader.next(self.alloc, bytes) {
            Ok(read) => read,
            Err(Unread::Memory) => return Err(Ending::NoMemory),
            Err(Unread::Fault(what)) => {
                let line = self.reader.lines().wrapping_add(1);
                return Err(Ending::JournalFault(line, what));
            }
        };
        let Some(entry) = found else {
            return Ok(rest);
        };
        self.perform(entry)?;
        Ok(rest)
    }

    /// Makes an entry's call, which must have the entry's reply.
    fn perform(&mut self, entry: Entry<M>) -> Result<(), Ending>
        ensures reader { self.new.reader ≡ self.old.reader }
        ensures history { OnOk result (self.new.board.history ≡ entry ∷ self.old.board.history) }
        ensures past { OnOk result (self.new.board.past ≡ self.old.board.past) }
        ensures ended { IfErr result (λ ending. EndsReplay ending) }
    {
        let Entry { who, call, reply } = entry;
        let at = self.board.entries();
        let found = match self.board.call(who, call) {
            Response::Reply(found) => found,
            Response::Refused(Refusal::NoMemory, _) => return Err(Ending::NoMemory),
            _ => return Err(Ending::Unlawful(at)),
        };
        if !found.same(&reply) {
            return Err(Ending::Unlawful(at));
        }
        Ok(())
    }

    /// The board, if the last piece has its end.
    fn end(self) -> Result<Board<M, BoardLog<M>>, Ending>
        ensures same { IfOk result (λ board. board ≡ self.board) }
        ensures whole { OnOk result (unended M.VERSION self.reader ≡ None) }
        ensures lawful { IfOk result (λ board. Lawful board.history) }
        ensures ended { IfErr result (λ ending. EndsReplay ending) }
    {
        self.board.facts();
        match self.reader.unended::<M>() {
            None => Ok(self.board),
            Some(unended) => Err(Ending::Unended(unended)),
        }
    }
}
