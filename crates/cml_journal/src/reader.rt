//! How a journal's text is read as it comes.
ghost use Rattle.std.specs.Prelude.{◌≡◌, ◌≤◌, ◌-◌, ◌++◌, ◌∷◌, [], ℕ, List, Ok, false, true, length, position, IfOk, IfErr};
ghost use Rattle.std.specs.Prelude.{OnOk, OnErr, OnSome, MatchOption, string_bytes};
ghost use Rattle.std.specs.Option.{option_to_list};
ghost use Rattle.cml_journal.specs.{Gives, Meets, State, begun_at, fresh, waiting_at, has_end, is_end, held_all, most, kept_behind};
ghost use Rattle.cml_journal.specs.{header_behind, turned, reading, end_of, kept_sum, last_sum, Leaves, due_line, shown_line, unended};

use crate::beginning::first_unended;
use crate::due::{write_due, write_found};
use crate::fault::{Unended, Unread, What};
use crate::lines::{line_read, sum_read};
use crate::sum::Sum;
use crate::summing::Summing;
use crate::written::Written;
use cml_board::Entry;
use std::alloc::{AllocError, Global};
use std::marker::Model;

/// The most bytes of a line.
pub(crate) const MOST: usize = 4_194_304;

/// Whether a piece has a sum.
#[derive(Clone, Copy, Debug, PartialEq, Eq)]
pub(crate) enum Form {
    Plain,
    Sealed,
}

/// What the next header has to say.
#[derive(Clone, Copy, Debug, PartialEq, Eq)]
pub(crate) enum Link {
    /// It is the first, and may name any sum.
    Any,
    /// It is the first of a journal, and may name no sum.
    First,
    /// The piece before is plain.
    Unsealed,
    /// The piece before has this sum.
    Behind(Sum),
}

/// Where in a stream of pieces a line is.
#[derive(Clone, Copy, Debug, PartialEq, Eq)]
pub(crate) enum Stage {
    /// Before a piece, and after one that ended at this position, if there was one before.
    Waiting(Option<u64>, Link),
    /// After a header.
    Headed(Option<u64>, Form),
    /// Before a piece's entry at this position, or its end.
    Inside(u64, Form),
}

/// A reader of a stream of pieces that comes in parts, cut anywhere. It keeps at most one line.
///
/// Use one type of messages for a stream.
#[derive(Drop)]
pub struct Reader {
    stage: Stage,
    lines: u64,
    kept: u64,
    header: u64,
    line: Vec<u8>,
    summing: Summing,
    is_over: bool,
}

impl Model for Reader {
    ghost use Rattle.std.specs.Prelude.{◌≤◌, ◌+◌, length};
    ghost use Rattle.cml_journal.specs.Feeding.{State, most};

    ghost Value = { State };

    ghost view = { λ reader. record {
      stage = reader.stage;
      lines = reader.lines;
      kept = reader.kept;
      header = reader.header;
      line = reader.line.items;
      summed = reader.summing;
      over = reader.is_over;
    } };

    ghost invariant = { λ reader. (length reader.line.items ≤ most) × (reader.header ≤ most + 1) };
}

/// Bytes before the first that ends a line or the text, that byte, and those behind it.
#[derive(Drop)]
struct Cut<'a> {
    front: &'a [u8],
    end: u8,
    rest: &'a [u8],
}

fn cut_line(bytes: &[u8]) -> Option<Cut<'_>>
    ensures { MatchOption result
        (has_end bytes.now ≡ false)
        (λ cut. (bytes.now ≡ cut.front.now ++ cut.end ∷ cut.rest.now) × (has_end cut.front.now ≡ false) × (is_end cut.end ≡ true)) }
{
    let at = end_at(bytes)?;
    Some(Cut {
        front: &bytes[..at],
        end: bytes[at],
        rest: &bytes[at + 1..],
    })
}

fn end_at(bytes: &[u8]) -> Option<usize>
    ensures { result ≡ position is_end bytes.now }
{
    bytes.iter().position(|byte| *byte == 0 || *byte == b'\n')
}

impl Reader {
    pub fn new(alloc: Global) -> Reader
        ensures { result ≡ fresh }
    {
        Reader::at(alloc, Stage::Waiting(None, Link::Any))
    }

    /// A reader of a stream whose first piece begins at this position: it is a gap if that begins elsewhere. `end` gives the
    /// position before the first line too. If the position is 0, a sealed piece there names no sum of a piece before.
    pub fn from(alloc: Global, position: u64) -> Reader
        ensures { result ≡ waiting_at position }
    {
        let link = if position == 0 {
            Link::First
        } else {
            Link::Any
        };
        Reader::at(alloc, Stage::Waiting(Some(position), link))
    }

    fn at(alloc: Global, stage: Stage) -> Reader
        ensures { result ≡ begun_at stage }
    {
        Reader {
            stage,
            lines: 0,
            kept: 0,
            header: 0,
            line: Vec::new(alloc),
            summing: Summing::new(),
            is_over: false,
        }
    }

    /// Reads the bytes up to the first line end, or all bytes if no line ends. It returns the entry on that line, if it has one,
    /// and the bytes that are left. The text ends before its first byte 0: nothing behind that is read.
    ///
    /// Errors: `Memory` if an allocation fails; else the stream's first fault. The fault is on line `lines() + 1`, `found` shows that
    /// line, and `due` says what it may be. Read no more.
    pub fn next<'a, M: Written>(
        &mut self,
        alloc: Global,
        bytes: &'a [u8],
    ) -> Result<(Option<Entry<M>>, &'a [u8]), Unread>
        ensures taken { IfOk result (λ given. (taken : List ℕ) × (bytes.now ≡ taken ++ given.1.now)
            × (reading M.VERSION M.meaning self.old taken ≡ Ok (self.new, option_to_list given.0))) }
        ensures fault { IfErr result (λ unread. Meets M.VERSION M.meaning self.old bytes.now self.new unread) }
        ensures ended { IfOk result (λ given. OnSome given.0 (self.new.line ≡ [])) }
        ensures shorter { IfOk result (λ given. length given.1.now ≤ length bytes.now - 1) }
        ensures line { OnErr result (self.new.lines ≡ self.old.lines) }
    {
        let nothing = &bytes[bytes.len()..];
        if self.is_over {
            return Ok((None, nothing));
        }
        let Some(cut) = cut_line(bytes) else {
            self.hold(bytes)?;
            return Ok((None, nothing));
        };
        self.hold(cut.front)?;
        if cut.end == 0 {
            self.is_over = true;
            return Ok((None, nothing));
        }
        let entry = self.turn(alloc)?;
        Ok((entry, cut.rest))
    }

    /// Adds bytes to the line that has not ended. If they are too many, it adds as many as a line may have.
    fn hold(&mut self, bytes: &[u8]) -> Result<(), Unread>
        ensures held { Gives (λ _. self.new) result (held_all self.old bytes.now) }
        ensures leaves { IfErr result (λ unread. Leaves self.old bytes.now self.new unread) }
        ensures short { length self.old.line ≤ most }
        ensures line { self.new.lines ≡ self.old.lines }
    {
        let room = MOST - self.line.len();
        if bytes.len() > room {
            self.line.extend_from_slice(&bytes[..room])?;
            return Err(Unread::Fault(What::TooLong));
        }
        self.line.extend_from_slice(bytes)?;
        Ok(())
    }

    /// Ends the line.
    #[tactic(auto, unfolding(crate::specs::Feeding::turned))]
    fn turn<M: Written>(&mut self, alloc: Global) -> Result<Option<Entry<M>>, Unread>
        ensures turned { Gives (λ entry. (self.new, entry)) result (turned M.VERSION M.meaning self.old) }
        ensures ended { OnOk result (self.new.line ≡ []) }
        ensures stays { OnErr result (self.new ≡ self.old) }
    {
        let (stage, entry) = line_read(alloc, &self.summing, self.stage, &self.line)?;
        sum_read(&mut self.summing, stage, &self.line);
        self.count(stage);
        self.stage = stage;
        self.lines = self.lines.wrapping_add(1);
        self.line.clear();
        Ok(entry)
    }

    /// Counts the bytes of a line that leads to this stage.
    fn count(&mut self, stage: Stage)
        ensures { self.new ≡ record self.old {
          kept = kept_behind stage self.old.kept self.old.header (length self.old.line);
          header = header_behind stage (length self.old.line);
        } }
    {
        let length = self.line.len() as u64 + 1;
        match stage {
            Stage::Headed(_, _) => self.header = length,
            Stage::Waiting(_, _) | Stage::Inside(_, _) => {
                self.kept = self.kept.wrapping_add(self.header + length);
                self.header = 0;
            }
        }
    }

    /// Returns how many bytes the whole lines have, modulo 2^64. A header counts only once there is a line behind it. So the text may
    /// be cut there, and a next piece begin.
    pub fn kept(&self) -> u64
        ensures { result ≡ self.now.kept }
    {
        self.kept
    }

    /// Returns how many lines have ended, modulo 2^64.
    pub fn lines(&self) -> u64
        ensures { result ≡ self.now.lines }
    {
        self.lines
    }

    /// Returns the position after the last piece, if the stream so far ends with a whole piece.
    pub fn end(&self) -> Option<u64>
        ensures { result ≡ end_of self.now }
    {
        match self.stage {
            Stage::Waiting(end, _) if self.line.is_empty() => end,
            _ => None,
        }
    }

    /// Returns how the text ends, if nothing more comes of it and it isn't whole.
    pub fn unended<M: Written>(&self) -> Option<Unended>
        ensures { result ≡ unended M.VERSION self.now }
    {
        let is_at_line_end = self.line.is_empty();
        match self.stage {
            Stage::Waiting(_, link) if self.lines == 0 => {
                Some(first_unended::<M>(link, &self.line))
            }
            Stage::Waiting(Some(_), _) if is_at_line_end => None,
            Stage::Headed(_, _) | Stage::Inside(_, _) if is_at_line_end => {
                Some(Unended::Open(self.lines))
            }
            _ => Some(Unended::Torn(self.lines)),
        }
    }

    /// Returns the sum of the last piece, if that is sealed and the stream so far ends with it.
    pub fn sum(&self) -> Option<Sum>
        ensures { result ≡ last_sum self.now }
    {
        match self.stage {
            Stage::Waiting(_, Link::Behind(sum)) if self.line.is_empty() => Some(sum),
            _ => None,
        }
    }

    /// Returns the sum that guards the whole lines so far: that of the last piece, or, if a piece has no end yet, of its lines. So a torn
    /// text is ended by a line `end N` with this sum. None if its last line is a header.
    pub fn kept_sum(&self) -> Result<Option<Sum>, AllocError>
        ensures { IfOk result (λ sum. sum ≡ kept_sum self.now) }
    {
        match self.stage {
            Stage::Waiting(_, Link::Behind(sum)) => Ok(Some(sum)),
            Stage::Inside(_, Form::Sealed) => Ok(Some(self.summing.sum()?)),
            Stage::Waiting(_, Link::Any | Link::First | Link::Unsealed) => Ok(None),
            Stage::Headed(_, _) | Stage::Inside(_, Form::Plain) => Ok(None),
        }
    }

    /// Returns what the line that has not ended may be, in words for a person, once `next` has failed with this fault.
    pub fn due<M: Written>(&self, alloc: Global, what: What) -> Result<String, AllocError>
        ensures { IfOk result (λ due. string_bytes due ≡ due_line M.VERSION self.now what) }
    {
        let mut due = String::new(alloc);
        match what {
            What::TooLong => due.push_str("at most 4,194,304 bytes")?,
            _ => write_due::<M>(&mut due, self.stage, &self.summing)?,
        }
        Ok(due)
    }

    /// Returns what has come of the line that has not ended, in words for a person.
    pub fn found(&self, alloc: Global) -> Result<String, AllocError>
        ensures { IfOk result (λ found. string_bytes found ≡ shown_line self.now.line) }
    {
        let mut found = String::new(alloc);
        write_found(&mut found, &self.line)?;
        Ok(found)
    }
}
