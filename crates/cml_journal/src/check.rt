//! A journal is read and checked as it comes, in memory for the objects, what waits in them, and one line.
ghost use Rattle.std.specs.Prelude.{◌≡◌, ◌≤◌, ◌-◌, ◌^◌, ◌∷◌, ◌++◌, ℕ, List, [], Ok, None, Some, length, IfOk, IfErr, IfSome, IsNone};
ghost use Rattle.std.specs.Prelude.{OnOk, OnErr, OnSome, IsErr, ◌↔◌, option_map, string_bytes};
ghost use Rattle.cml_board.specs.{Feeds, count_of, expected_of};
ghost use Rattle.cml_journal.specs.{Halt, State, IsSoFar, Goes, HaltsIn, StopsIn, MayHaltAt, IsTold, IsSpent, unended, due_line};
ghost use Rattle.cml_journal.specs.{line_of_last, kept_sum, last_sum, shown_line, IsLawfulJournal, IsRestored};

use crate::fault::{Unended, What};
use crate::reader::Reader;
use crate::stop::{Halt, Stop};
use crate::sum::Sum;
use crate::writing::write_entry;
use crate::written::Written;
use cml_board::{BoardLog, Checker, Entry, Expected, Message, Restored};
use cml_log::MessageLog;
use std::alloc::{AllocError, Global};
use std::marker::Model;

/// A journal's text, from its first entry on, that is read and checked as it comes. `L` is the type of the logs of a board that goes
/// on from it.
#[derive(Drop)]
pub struct Check<M: Message, L: MessageLog<M> = BoardLog<M>> {
    alloc: Global,
    reader: Reader,
    // In a box, since a drop of a check in a box gets no proof where it has the checker in place.
    checker: Box<Checker<M, L>>,
    halt: Option<Halt>,
    // The entry that was read last, alone. It is kept so that its memory is used again.
    entry: Vec<Entry<M>>,
}

impl<M: Message, L: MessageLog<M>> Model for Check<M, L> {
    ghost use Rattle.std.specs.Prelude.{slice_get};
    ghost use Rattle.cml_journal.specs.Checks.{Progress};

    ghost Value = { Progress M };

    ghost view = { λ check.
        record { state = check.reader; checker = check.checker.value; halt = check.halt; last = slice_get check.entry.items 0 } };
}

impl<M: Message + Written> Check<M> {
    pub fn new(alloc: Global) -> Result<Check<M>, AllocError>
        ensures { IfOk result (λ check. IsSoFar M.VERSION M.meaning [] check) }
    {
        Check::with_logs(alloc)
    }
}

impl<M: Message + Written, L: MessageLog<M>> Check<M, L> {
    /// Makes a check that has read nothing, whose board has logs of this type.
    pub fn with_logs(alloc: Global) -> Result<Check<M, L>, AllocError>
        ensures { IfOk result (λ check. IsSoFar M.VERSION M.meaning [] check) }
    {
        Ok(Check {
            alloc,
            reader: Reader::from(alloc, 0),
            checker: Box::new(alloc, Checker::with_logs(alloc)?)?,
            halt: None,
            entry: Vec::new(alloc),
        })
    }

    /// Reads the stream's next bytes, cut anywhere, and checks the entries in them.
    ///
    /// Errors: the first entry that isn't lawful, or the first fault, whichever comes first; `NoMemory` if an allocation fails.
    /// `lines` and `entries` then say how far it was read. After a fault `found` shows its line, and `due` says what that may be. A check that failed is spent: it fails the same way from then on, or
    /// with `NoMemory` if there is no memory for an entry's line.
    pub fn take(&mut self, bytes: &[u8]) -> Result<(), Stop>
        ensures taken { OnOk result (Goes M.VERSION M.meaning self.old bytes.now self.new) }
        ensures stopped { IfErr result (λ stop. StopsIn M.VERSION M.meaning M.text self.old bytes.now self.new stop) }
        ensures spent { IfErr result (λ stop. IsSpent M.text self.new stop) }
        ensures again { (halt : Halt) → self.old.halt ≡ Some halt → (self.new ≡ self.old) × IsErr result }
    {
        match self.advance(bytes) {
            Ok(()) => Ok(()),
            Err(halt) => Err(self.told(halt)),
        }
    }

    /// Does what `take` does, and returns no line of an entry. So it allocates nothing to say why it stopped, and fails the same
    /// way from then on.
    pub fn advance(&mut self, bytes: &[u8]) -> Result<(), Halt>
        ensures taken { OnOk result (Goes M.VERSION M.meaning self.old bytes.now self.new) }
        ensures halted { IfErr result (λ halt. HaltsIn M.VERSION M.meaning self.old bytes.now self.new halt) }
        ensures running { OnOk result (self.new.halt ≡ None) }
        ensures spent { IfErr result (λ halt. self.new.halt ≡ Some halt) }
        ensures again { (halt : Halt) → self.old.halt ≡ Some halt → (self.new ≡ self.old) × IsErr result }
    {
        if let Some(halt) = self.halt {
            return Err(halt);
        }
        let taken = self.take_lines(bytes);
        if let Err(halt) = taken {
            self.halt = Some(halt);
        }
        taken
    }

    fn take_lines(&mut self, bytes: &[u8]) -> Result<(), Halt>
        ensures taken { OnOk result (Goes M.VERSION M.meaning self.old bytes.now self.new) }
        ensures halted { IfErr result (λ halt. HaltsIn M.VERSION M.meaning self.old bytes.now self.new halt) }
        ensures halt { OnOk result (self.new.halt ≡ self.old.halt) }
    {
        let mut rest = bytes;
        while !rest.is_empty() {
            rest = self.take_line(rest)?;
        }
        Ok(())
    }

    /// Reads up to a line end, and gives the bytes after it.
    fn take_line<'a>(&mut self, bytes: &'a [u8]) -> Result<&'a [u8], Halt>
        ensures taken { IfOk result (λ rest. (taken : List ℕ) × (bytes.now ≡ taken ++ rest.now)
            × Goes M.VERSION M.meaning self.old taken self.new) }
        ensures halted { IfErr result (λ halt. HaltsIn M.VERSION M.meaning self.old bytes.now self.new halt) }
        ensures halt { OnOk result (self.new.halt ≡ self.old.halt) }
        ensures shorter { IfOk result (λ rest. length rest.now ≤ length bytes.now - 1) }
    {
        let (found, rest) = match self.reader.next(self.alloc, bytes) {
            Ok(read) => read,
            Err(unread) => {
                let line = self.reader.lines().wrapping_add(1);
                return Err(Halt::of_unread(unread, line));
            }
        };
        let Some(entry) = found else {
            return Ok(rest);
        };
        self.feed(entry)?;
        Ok(rest)
    }

    fn feed(&mut self, entry: Entry<M>) -> Result<(), Halt>
        ensures fed { OnOk result (Feeds self.old.checker (entry ∷ []) self.new.checker (Ok tt)) }
        ensures state { self.new.state ≡ self.old.state }
        ensures halt { OnOk result (self.new.halt ≡ self.old.halt) }
        ensures halted { IfErr result (λ halt. MayHaltAt self.old.checker entry self.new halt) }
    {
        self.entry.clear();
        self.entry.reserve(1)?;
        self.entry.push_reserved(entry);
        if self.checker.entries() == u64::MAX {
            return Err(Halt::Fault(self.reader.lines(), What::TooMany));
        }
        match self.checker.feed(&self.entry)? {
            Ok(()) => Ok(()),
            Err(at) => Err(Halt::Unlawful(at)),
        }
    }

    /// What it says that it stopped so.
    fn told(&self, halt: Halt) -> Stop
        ensures { IsTold M.text self.now.last halt result }
    {
        match halt {
            Halt::Unlawful(at) => match self.line() {
                Ok(line) => Stop::Unlawful(at, line),
                Err(AllocError) => Stop::NoMemory,
            },
            Halt::Fault(line, what) => Stop::Fault(line, what),
            Halt::NoMemory => Stop::NoMemory,
        }
    }

    /// The line of the entry that was read last, if there is one.
    fn line(&self) -> Result<String, AllocError>
        ensures { IfOk result (λ line. string_bytes line ≡ line_of_last M.text self.now.last) }
    {
        let mut line = String::new(self.alloc);
        if let Some(entry) = self.entry.first() {
            write_entry(&mut line, entry)?;
        }
        Ok(line)
    }

    /// Returns how the text ends, if nothing more comes of it and the check hasn't stopped. `None`: the bytes so far are a whole
    /// journal.
    pub fn unended(&self) -> Option<Unended>
        ensures same { result ≡ unended M.VERSION self.now.state }
        ensures whole { (bytes : List ℕ) → IsSoFar M.VERSION M.meaning bytes self.now
            → (result ≡ None) ↔ IsLawfulJournal M.VERSION M.meaning bytes (count_of self.now.checker) }
    {
        self.reader.unended::<M>()
    }

    /// What becomes of the call of the first unlawful entry, on a board with the history before it. `None` if no entry is
    /// unlawful.
    pub fn expected(&self) -> Option<&Expected<M>>
        ensures { option_map (λ expected. expected.now) result ≡ expected_of self.now.checker }
    {
        self.checker.expected()
    }

    /// A board with the history that the whole entries so far give, as if it had made each call itself, and had cut its journal
    /// then; and who made these entries. Its journal takes `limit` entries until it is cut again. The check is then as a new one.
    /// Ask `unended` before, if only a whole journal is to be taken. `None` if the check has stopped: then it stays as it is.
    pub fn restore(&mut self, limit: u64) -> Option<Restored<M, L>>
        requires least { 1 ≤ limit }
        requires most { limit ≤ 2 ^ 32 }
        ensures restored { IfSome result (λ restored. (bytes : List ℕ) → IsSoFar M.VERSION M.meaning bytes self.old
            → IsRestored M.VERSION M.meaning bytes limit restored) }
        ensures anew { OnSome result (IsSoFar M.VERSION M.meaning [] self.new) }
        ensures stopped { IsNone result → (self.new ≡ self.old) × ((bytes : List ℕ) → ¬ (IsSoFar M.VERSION M.meaning bytes self.old)) }
    {
        if self.halt.is_some() {
            return None;
        }
        let restored = self.checker.restore(limit)?;
        self.reader = Reader::from(self.alloc, 0);
        Some(restored)
    }

    /// Why it stopped, if it has stopped.
    pub fn halt(&self) -> Option<Halt>
        ensures { result ≡ self.now.halt }
    {
        self.halt
    }

    /// How many entries it found lawful.
    pub fn entries(&self) -> u64
        ensures { result ≡ count_of self.now.checker }
    {
        self.checker.entries()
    }

    /// How many lines have ended, modulo 2^64.
    pub fn lines(&self) -> u64
        ensures { result ≡ self.now.state.lines }
    {
        self.reader.lines()
    }

    /// How many bytes may be kept of the text, as `Reader::kept` says.
    pub fn kept(&self) -> u64
        ensures { result ≡ self.now.state.kept }
    {
        self.reader.kept()
    }

    /// The sum of the last piece, if that is sealed and the bytes so far end with it.
    pub fn sum(&self) -> Option<Sum>
        ensures { result ≡ last_sum self.now.state }
    {
        self.reader.sum()
    }

    /// Returns what the line that has not ended may be, in words for a person, once the check has stopped at this fault.
    pub fn due(&self, what: What) -> Result<String, AllocError>
        ensures { IfOk result (λ due. string_bytes due ≡ due_line M.VERSION self.now.state what) }
    {
        self.reader.due::<M>(self.alloc, what)
    }

    /// Returns what has come of the line that has not ended, in words for a person: once the check has stopped at a fault, the
    /// line that has it.
    pub fn found(&self) -> Result<String, AllocError>
        ensures { IfOk result (λ found. string_bytes found ≡ shown_line self.now.state.line) }
    {
        self.reader.found(self.alloc)
    }

    /// Does what `Reader::kept_sum` does, also once it has stopped.
    pub fn kept_sum(&self) -> Result<Option<Sum>, AllocError>
        ensures { IfOk result (λ sum. sum ≡ kept_sum self.now.state) }
    {
        self.reader.kept_sum()
    }
}
