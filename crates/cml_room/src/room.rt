ghost use Rattle.std.specs.Prelude.{◌≡◌, ◌≢◌, ◌⊎◌, ℕ, true, false, ◌^◌, ◌<◌, ◌≤◌, [], ◌∷◌, ◌++◌, length, replicate};
ghost use Rattle.std.specs.Prelude.{Some, None, IfOk, IfErr, OnOk};
ghost use Rattle.cml_board.specs.declared.outcome.Refusal.TheVariants.{Gone, NoMemory};
ghost use Rattle.cml_board.specs.{Want, no_entries, seats_of, lanes_of, feeds_of, IsSound};
ghost use Rattle.cml_lanes.specs.{KeepsLanes, KeepsFeeds};
ghost use Rattle.cml_room.specs.{states_in, MakesNoneDue, free_in, parked_in, floor_of, is_due, state_of, MayAsk, AllSleepRightly, NoneDue};
ghost use Rattle.cml_room.specs.{SleepsRightly, with_state, Other, GivesNext, IsMade};

mod asking;
mod feeds;
mod journal;
mod lanes;

use crate::seats::Seats;
use crate::state::State;
use crate::waking::rouse_due;
use cml_board::{Board, Message, Refusal, Restored};
use cml_lanes::Floor;
use cml_log::MessageLog;
use std::alloc::{AllocError, Global};
use std::marker::Model;

/// A board with the lanes onto it, the feeds from its ports, and the state of each seat. None of its calls blocks. It has no
/// lock: the caller that has the room by `&mut` orders the calls.
#[derive(Drop)]
pub struct Room<M, L: MessageLog<M>> {
    floor: Floor<M, L>,
    seats: Seats,
}

impl<M, L: MessageLog<M>> Model for Room<M, L> {
    ghost use Rattle.cml_room.specs.Room.{RoomShown};
    ghost use Rattle.cml_room.specs.Places.{states_in, notices_in};
    ghost use Rattle.cml_room.specs.Waking.{IsWatched};

    ghost Value = { RoomShown M };

    ghost view = { λ r. record {
      board = r.floor.board;
      lanes = r.floor.lanes;
      feeds = r.floor.feeds;
      seats = states_in r.seats.places;
      notices = notices_in r.seats.places;
      all_due = r.seats.all_due;
    } };

    ghost invariant = { λ r. IsWatched r.floor r.seats.places r.seats.all_due };
}

impl<M: Message, L: MessageLog<M>> Room<M, L> {
    /// Makes a room with no seats, no lanes and no feeds, on a board with no objects. Its journal takes `limit` entries
    /// between two cuts.
    pub fn new(alloc: Global, limit: u64) -> Result<Room<M, L>, AllocError>
        requires least { 1 ≤ limit }
        requires most { limit ≤ 2 ^ 32 }
        ensures history { IfOk result (λ room. room.board.history ≡ no_entries) }
        ensures past { IfOk result (λ room. room.board.past ≡ no_entries) }
        ensures limit { IfOk result (λ room. room.board.limit ≡ limit) }
        ensures lanes { IfOk result (λ room. room.lanes ≡ []) }
        ensures feeds { IfOk result (λ room. room.feeds ≡ []) }
        ensures seats { IfOk result (λ room. room.seats ≡ []) }
        ensures quiet { IfOk result (λ room. NoneDue room) }
    {
        let board = Board::new(alloc, limit)?;
        Ok(Room {
            floor: Floor::new(alloc, board),
            seats: Seats::new(alloc)?,
        })
    }

    /// Makes a room on the board of a journal. The seats, the lanes and the feeds that made its entries keep their numbers. Those
    /// seats have left, and none of those lanes and feeds is open: a call of one fails with `Gone` or `NoSuch`. New ones are
    /// numbered after them.
    pub fn restore(alloc: Global, restored: Restored<M, L>) -> Result<Room<M, L>, AllocError>
        ensures board { IfOk result (λ room. room.board ≡ restored.board) }
        ensures lanes { IfOk result (λ room. room.lanes ≡ replicate restored.makers.lanes None) }
        ensures feeds { IfOk result (λ room. room.feeds ≡ replicate restored.makers.feeds None) }
        ensures seats { IfOk result (λ room. room.seats ≡ replicate restored.makers.seats State.Left) }
        ensures small { IfOk result (λ room. length room.seats < 2 ^ 63) }
        ensures none { IfOk result (λ room. (number : ℕ) → is_due room number ≡ false) }
        ensures quiet { IfOk result (λ room. NoneDue room) }

        // No number of a seat, a lane or a feed in the journal is given again.
        ensures behind_seats { IfOk result (λ room. seats_of room.board.history ≤ length room.seats) }
        ensures behind_lanes { IfOk result (λ room. lanes_of room.board.history ≤ length room.lanes) }
        ensures behind_feeds { IfOk result (λ room. feeds_of room.board.history ≤ length room.feeds) }
    {
        let makers = restored.makers();
        let seats = Seats::of_left(alloc, makers.seats as usize)?;
        Ok(Room {
            floor: Floor::restore(alloc, restored)?,
            seats,
        })
    }

    /// Lends the board, as it is between two calls. The facts of the journal and of the objects are facts of a room's type:
    /// they hold of each room.
    pub fn board(&self) -> &Board<M, L>
        ensures board { result.now ≡ self.now.board }

        // The journal has of each open lane exactly what was taken out of its ring, and nothing of a number never given.
        ensures lanes { KeepsLanes self.now.board.history self.now.lanes }

        // The journal has of each open feed exactly what was put into its ring, which is all that its own port received.
        ensures feeds { KeepsFeeds self.now.board.history self.now.feeds }

        // All that always holds of a board: of its history, and of what its objects really hold.
        ensures sound { IsSound L.CHUNK self.now.board }

        // A seat that waits and isn't due sleeps rightly.
        ensures asleep { AllSleepRightly self.now }
    {
        let board = self.floor.board();
        board.facts();
        board
    }

    /// Lends the board with its lanes and feeds.
    pub fn floor(&self) -> &Floor<M, L>
        ensures { result.now ≡ floor_of self.now }
    {
        &self.floor
    }

    /// Returns the board, and drops the rest: lanes and feeds that are still open, with the messages in their rings.
    pub fn into_board(self) -> Board<M, L>
        ensures { result ≡ self.board }
    {
        let Room { floor, seats: _ } = self;
        floor.into_board()
    }

    /// Returns how many seats were made.
    pub fn seats(&self) -> usize
        ensures { result ≡ length self.now.seats }
    {
        self.seats.count()
    }

    /// Returns the seat's state, if it was made.
    pub fn state(&self, seat: u64) -> Option<State>
        ensures { result ≡ state_of self.now seat }
    {
        self.seats.state(seat)
    }

    /// Says whether the seat is due: it waits, and has a notice or all that wait are due. A seat that waits and is not due sleeps
    /// rightly. Wake only the seats that `next_due` returns.
    pub fn is_due(&self, seat: u64) -> bool
        ensures due { result ≡ is_due self.now seat }
        ensures asleep { result ≡ false → (on : Want) → state_of self.now seat ≡ Some (State.Parked on) → SleepsRightly self.now on }
    {
        self.seats.is_due(seat)
    }

    /// Returns the next seat that is due, and was not returned since it last asked. Wake its thread, and let it ask again. The
    /// seat that has been due the longest comes first. Returns `None` if each seat that is due was returned. One call after each
    /// other call is enough (`one_next_due_is_enough`).
    pub fn next_due(&mut self) -> Option<u64>
        ensures gives { GivesNext result self.old self.new }
    {
        rouse_due(&mut self.seats);
        self.seats.wake_next()
    }

    /// Makes a new seat, which is free. Returns its number: how many were made before. Fails only with `NoMemory`.
    pub fn new_seat(&mut self) -> Result<u64, Refusal>
        ensures number { IfOk result (λ number. number ≡ length self.old.seats) }
        ensures seats { OnOk result (self.new.seats ≡ self.old.seats ++ State.Free ∷ []) }
        ensures small { OnOk result (length self.new.seats < 2 ^ 63) }
        ensures board { self.new.board ≡ self.old.board }
        ensures lanes { self.new.lanes ≡ self.old.lanes }
        ensures feeds { self.new.feeds ≡ self.old.feeds }
        ensures refused { IfErr result (λ refusal. (refusal ≡ NoMemory) × (self.new ≡ self.old)) }
        ensures step { IsMade Other self.old self.new }
        ensures none { MakesNoneDue self.old self.new }
        ensures alarm { self.new.all_due ≡ self.old.all_due }
    {
        let number = self.seats.count() as u64;
        if self.seats.add().is_err() {
            return Err(Refusal::NoMemory);
        }
        Ok(number)
    }

    /// Makes the seat leave: it makes no more calls. Fails with `Gone` if there is no such seat, or if it waits or has left. If
    /// no seat is free then, all that wait are due, since they may be stalled. If none waits, nothing is noted.
    pub fn leave(&mut self, seat: u64) -> Result<(), Refusal>
        ensures left { OnOk result (MayAsk self.old seat × (self.new.seats ≡ with_state self.old seat State.Left)) }
        ensures board { self.new.board ≡ self.old.board }
        ensures lanes { self.new.lanes ≡ self.old.lanes }
        ensures feeds { self.new.feeds ≡ self.old.feeds }
        ensures refused { IfErr result (λ refusal. (refusal ≡ Gone) × ¬ (MayAsk self.old seat) × (self.new ≡ self.old)) }
        ensures step { IsMade Other self.old self.new }
        ensures none { MakesNoneDue self.old self.new }

        // It raises the alarm, by which all that wait are due, only if no seat is free then, and some wait.
        ensures alarm { free_in self.new.seats ≢ 0 → self.new.all_due ≡ self.old.all_due }
        ensures alone { parked_in self.new.seats ≡ 0 → self.new.all_due ≡ self.old.all_due }
    {
        if self.seats.state(seat) != Some(State::Free) {
            return Err(Refusal::Gone);
        }
        self.seats.leave(seat);
        rouse_if_none_free(&mut self.seats);
        Ok(())
    }
}

/// A seat has left. If no seat is free now, those that wait may be stalled: so all of them are due.
fn rouse_if_none_free(seats: &mut Seats)
    ensures places { seats.new.places ≡ seats.old.places }
    ensures alarm { free_in (states_in seats.new.places) ≢ 0 → seats.new.all_due ≡ seats.old.all_due }
    ensures alone { parked_in (states_in seats.new.places) ≡ 0 → seats.new.all_due ≡ seats.old.all_due }
    ensures rests { (parked_in (states_in seats.new.places) ≡ 0) ⊎ (seats.new.all_due ≡ false
        → (seats.old.all_due ≡ false) × (free_in (states_in seats.new.places) ≢ 0)) }
{
    if seats.parked() == 0 {
        return;
    }
    if seats.free() == 0 {
        seats.rouse_all();
    }
}
