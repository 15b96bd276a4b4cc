ghost use Rattle.std.specs.Prelude.{◌≡◌, ◌≢◌, ◌^◌, ◌≤◌, [], ◌∷◌, ◌++◌, length, reverse, IfOk, IfErr, OnOk, MatchResult};
ghost use Rattle.cml_board.specs.declared.outcome.Refusal.TheVariants.{Gone, NoMemory};
ghost use Rattle.cml_board.specs.{no_entries, entries_in, IsSound};
ghost use Rattle.cml_lanes.specs.{KeepsLanes, KeepsFeeds, KeepsRings, Reserves, CutsAFloor, CutsFloor, CutsOpenFloor, NotCut};
ghost use Rattle.cml_room.specs.{KeepsSeats, MakesNoneDue, AllSleepRightly, NoneDue, Other, IsMade, free_in, parked_in};
ghost use Rattle.cml_threads.specs.{Sitting, floor_of, room_of, MayAsk, with_state};

mod asking;
mod counting;
mod due;
mod feeds;
mod lanes;
mod restoring;
mod settling;

use crate::seat::Seat;
use cml_board::{Board, Entry, Message, Refusal};
use cml_log::MessageLog;
use cml_room::{Room, State};
use std::alloc::{AllocError, Global};
use std::marker::Model;
use std::sync::ledger::{Blank, Book, Ledger, Share};

/// How many parts a hall's ledger has: more than there can be seats. Make the `Blank` with as many.
pub const PARTS: u64 = 1 << 63;

/// The content of a switchboard's lock: a room and the book of a ledger that counts each answer. The room is the board with
/// its lanes, its feeds and its seats. None of its calls blocks.
#[derive(Drop)]
pub struct Hall<M, L: MessageLog<M>, Led: Ledger> {
    room: Room<M, L>,
    book: Book<Led>,
    rest: Share<Led>,
}

impl<M, L: MessageLog<M>, Led: Ledger> Model for Hall<M, L, Led> {
    ghost use Rattle.std.specs.Prelude.{length};
    ghost use Rattle.cml_threads.specs.Hosting.{Hosted, IsCounted};

    ghost Value = { Hosted M };

    ghost view = { λ h. record {
      board = h.room.board;
      lanes = h.room.lanes;
      feeds = h.room.feeds;
      seats = h.room.seats;
      notices = h.room.notices;
      all_due = h.room.all_due;
      book = h.book.total;
    } };

    ghost invariant = { λ h. IsCounted h.room.board (length h.room.seats) h.book.total h.rest.amount h.rest.parts Led.parts };
}

impl<M: Message, L: MessageLog<M>, Led: Ledger> Hall<M, L, Led> {
    /// Makes a hall with no seats, no lanes and no feeds, on a board with no objects. Its journal takes `limit` entries
    /// between two cuts. The blank is `Blank::new(PARTS)`, and names the hall's ledger.
    pub fn new(alloc: Global, limit: u64, blank: Blank) -> Result<Hall<M, L, Led>, AllocError>
        requires least { 1 ≤ limit }
        requires most { limit ≤ 2 ^ 32 }
        requires name { blank.name ≡ Led.name }
        requires parts { blank.parts ≡ Led.parts }
        requires enough { blank.parts ≡ 2 ^ 63 }
        ensures history { IfOk result (λ hall. hall.board.history ≡ no_entries) }
        ensures limit { IfOk result (λ hall. hall.board.limit ≡ limit) }
        ensures lanes { IfOk result (λ hall. hall.lanes ≡ []) }
        ensures feeds { IfOk result (λ hall. hall.feeds ≡ []) }
        ensures seats { IfOk result (λ hall. hall.seats ≡ []) }
        ensures quiet { IfOk result (λ hall. NoneDue (room_of hall)) }
    {
        let room = Room::new(alloc, limit)?;
        let (book, rest) = blank.open::<Led>();
        Ok(Hall { room, book, rest })
    }

    /// Lends the board, as it is between two calls. The facts of the journal and of the objects are facts of a hall's type.
    /// So they hold of each hall, and whenever the lock of a switchboard is free.
    pub fn board(&self) -> &Board<M, L>
        ensures board { result.now ≡ self.now.board }

        // The book counts each entry.
        ensures book { self.now.book ≡ entries_in self.now.board.history }

        // The journal has of each open lane exactly what was taken out of its ring, and nothing of a number never given.
        ensures lanes { KeepsLanes self.now.board.history self.now.lanes }

        // The journal has of each open feed exactly what was put into its ring, which is all that its own port received.
        ensures feeds { KeepsFeeds self.now.board.history self.now.feeds }

        // All that always holds of a board: of its history, and of what its objects really hold.
        ensures sound { IsSound L.CHUNK self.now.board }

        // A seat that waits and isn't due sleeps rightly.
        ensures asleep { AllSleepRightly (room_of self.now) }
    {
        self.room.board()
    }

    /// Reserves memory for `n` more entries of any seat, lane or feed, as `Floor::reserve` does. Fails only with `NoMemory`.
    pub fn reserve(&mut self, n: usize) -> Result<(), Refusal>
        ensures reserves { Reserves (floor_of self.old) (floor_of self.new) n result }
        ensures rings { KeepsRings (floor_of self.old) (floor_of self.new) }
        ensures kept { KeepsSeats (room_of self.old) (room_of self.new) }
        ensures book { self.new.book ≡ self.old.book }
    {
        self.room.reserve(n)
    }

    /// Cuts the journal, as `Floor::cut` does. A seat that waits goes on waiting, and all answers stay counted. Fails only
    /// with `Busy`, if a lane or a feed is open.
    pub fn cut(&mut self) -> Result<(), Refusal>
        ensures cut { CutsAFloor (floor_of self.old) (floor_of self.new) result }
        ensures reserved { self.old.board.reserved ≤ self.new.board.reserved }
        ensures rings { KeepsRings (floor_of self.old) (floor_of self.new) }
        ensures kept { KeepsSeats (room_of self.old) (room_of self.new) }
        ensures book { self.new.book ≡ self.old.book }
    {
        self.room.cut()
    }

    /// Cuts the journal and returns the entries that it had, as `Floor::take_journal` does. Fails as `cut` does.
    pub fn take_journal(&mut self) -> Result<Vec<Entry<M>>, Refusal>
        ensures taken { IfOk result (λ taken. reverse taken.items ++ self.old.board.past ≡ self.old.board.history) }
        ensures cut { MatchResult result (λ _. CutsFloor (floor_of self.old) (floor_of self.new))
            (NotCut (floor_of self.old) (floor_of self.new)) }
        ensures rings { KeepsRings (floor_of self.old) (floor_of self.new) }
        ensures kept { KeepsSeats (room_of self.old) (room_of self.new) }
        ensures book { self.new.book ≡ self.old.book }
    {
        self.room.take_journal()
    }

    /// Cuts the journal while lanes and feeds are open, as `Floor::cut_open` does. A seat that waits goes on waiting, and all
    /// answers stay counted.
    pub fn cut_open(&mut self)
        ensures cut { CutsOpenFloor (floor_of self.old) (floor_of self.new) }
        ensures reserved { self.old.board.reserved ≤ self.new.board.reserved }
        ensures rings { KeepsRings (floor_of self.old) (floor_of self.new) }
        ensures kept { KeepsSeats (room_of self.old) (room_of self.new) }
        ensures book { self.new.book ≡ self.old.book }
    {
        self.room.cut_open();
    }

    /// Cuts the journal as `cut_open` does, and returns the entries that it had, as `Floor::take_journal_open` does.
    pub fn take_journal_open(&mut self) -> Vec<Entry<M>>
        ensures taken { reverse result.items ++ self.old.board.past ≡ self.old.board.history }
        ensures cut { CutsOpenFloor (floor_of self.old) (floor_of self.new) }
        ensures rings { KeepsRings (floor_of self.old) (floor_of self.new) }
        ensures kept { KeepsSeats (room_of self.old) (room_of self.new) }
        ensures book { self.new.book ≡ self.old.book }
    {
        self.room.take_journal_open()
    }

    /// Makes a new seat, which is free and has the next number. Fails only with `NoMemory`.
    pub fn new_seat(&mut self) -> Result<Seat<Led>, Refusal>
        ensures seat { IfOk result (λ seat. seat ≡ record { number = length self.old.seats; seats = 1; share = 0 }) }
        ensures seats { OnOk result (self.new.seats ≡ self.old.seats ++ State.Free ∷ []) }
        ensures board { self.new.board ≡ self.old.board }
        ensures lanes { self.new.lanes ≡ self.old.lanes }
        ensures feeds { self.new.feeds ≡ self.old.feeds }
        ensures book { self.new.book ≡ self.old.book }
        ensures refused { IfErr result (λ refusal. (refusal ≡ NoMemory) × (self.new ≡ self.old)) }
        ensures step { IsMade Other (room_of self.old) (room_of self.new) }
        ensures none { MakesNoneDue (room_of self.old) (room_of self.new) }
        ensures alarm { self.new.all_due ≡ self.old.all_due }
    {
        let number = self.room.new_seat()?;
        Ok(Seat::new(number, self.rest.split_off(1, 0)))
    }

    /// Makes the seat leave: it makes no more calls. Fails with `Gone` if the seat waits or has left before. If no seat is
    /// free then, all that wait are due.
    pub fn leave(&mut self, seat: &Seat<Led>) -> Result<(), Refusal>
        ensures left { OnOk result (MayAsk self.old seat.now.number
            × (self.new.seats ≡ with_state self.old seat.now.number State.Left)) }
        ensures board { self.new.board ≡ self.old.board }
        ensures lanes { self.new.lanes ≡ self.old.lanes }
        ensures feeds { self.new.feeds ≡ self.old.feeds }
        ensures book { self.new.book ≡ self.old.book }
        ensures refused { IfErr result (λ refusal. (refusal ≡ Gone) × ¬ (MayAsk self.old seat.now.number)
            × (self.new ≡ self.old)) }
        ensures step { IsMade Other (room_of self.old) (room_of self.new) }
        ensures none { MakesNoneDue (room_of self.old) (room_of self.new) }

        // It raises the alarm, by which all that wait are due, only if no seat is free then, and some wait.
        ensures alarm { free_in self.new.seats ≢ 0 → self.new.all_due ≡ self.old.all_due }
        ensures alone { parked_in self.new.seats ≡ 0 → self.new.all_due ≡ self.old.all_due }
    {
        self.room.leave(seat.number())
    }
}
