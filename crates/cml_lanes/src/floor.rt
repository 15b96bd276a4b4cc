ghost use Rattle.std.specs.Prelude.{◌≡◌, ◌≤◌, true, false, [], ◌++◌, length, reverse, replicate, slice_set, None, count_by};
ghost use Rattle.std.specs.Prelude.{is_some, MatchBool, MatchResult, IfOk};
ghost use Rattle.cml_board.specs.declared.entry.Who.TheVariants.{Seat};
ghost use Rattle.cml_board.specs.declared.outcome.Outcome.TheVariants.{Refused};
ghost use Rattle.cml_board.specs.declared.outcome.Refusal.TheVariants.{WrongKind};
ghost use Rattle.cml_board.specs.{no_entries, entries_in, lanes_of, feeds_of, Applies, outcome_of};
ghost use Rattle.cml_lanes.specs.{laned, is_open_lane, is_open_feed, stays, OnLane, KeepsLanes, KeepsFeeds, KeepsRings, IsOfRing, GivesAll};
ghost use Rattle.cml_lanes.specs.{DrainsUntil, is_barred, Reserves, CutsAFloor, CutsFloor, CutsOpenFloor, NotCut, IsBusy};

mod feeds;
mod lanes;

use crate::feed_slots::FeedSlots;
use crate::lane::LaneEnd;
use crate::lane_slots::LaneSlots;
use cml_board::{Board, Call, Entry, Message, Outcome, Refusal, Response, Restored, Who};
use cml_log::MessageLog;
use std::alloc::{AllocError, Global};
use std::marker::Model;

/// A board with the inner ends of the lanes onto it and of the feeds from its ports. None of its calls blocks.
#[derive(Drop)]
pub struct Floor<M, L: MessageLog<M>> {
    alloc: Global,
    board: Board<M, L>,
    lanes: LaneSlots<M>,
    feeds: FeedSlots<M>,
}

impl<M, L: MessageLog<M>> Model for Floor<M, L> {
    ghost use Rattle.cml_lanes.specs.Floor.{FloorShown};

    ghost Value = { FloorShown M };

    ghost use Rattle.cml_lanes.specs.Floor.{KeepsLanes, KeepsFeeds};

    ghost view = { λ f. record { board = f.board; lanes = f.lanes; feeds = f.feeds.feeds } };

    ghost invariant = { λ f. KeepsLanes f.board.history f.lanes × KeepsFeeds f.board.history f.feeds.feeds };
}

impl<M: Message, L: MessageLog<M>> Floor<M, L> {
    /// Makes a floor with no lanes and no feeds, on a board without entries.
    pub fn new(alloc: Global, board: Board<M, L>) -> Floor<M, L>
        requires { board.history ≡ no_entries }
        ensures { result ≡ record { board = board; lanes = []; feeds = [] } }
    {
        Floor {
            alloc,
            board,
            lanes: LaneSlots::new(alloc),
            feeds: FeedSlots::new(alloc),
        }
    }

    /// A floor on the board of a journal. The lanes and the feeds that made its entries keep their numbers, and none of them
    /// is open: a call on one fails with `NoSuch`. New ones are numbered after them.
    pub fn restore(alloc: Global, restored: Restored<M, L>) -> Result<Floor<M, L>, AllocError>
        ensures board { IfOk result (λ floor. floor.board ≡ restored.board) }
        ensures lanes { IfOk result (λ floor. floor.lanes ≡ replicate restored.makers.lanes None) }
        ensures feeds { IfOk result (λ floor. floor.feeds ≡ replicate restored.makers.feeds None) }

        // No number of a lane or a feed in the journal is given again.
        ensures behind_lanes { IfOk result (λ floor. lanes_of floor.board.history ≤ length floor.lanes) }
        ensures behind_feeds { IfOk result (λ floor. feeds_of floor.board.history ≤ length floor.feeds) }
    {
        let makers = restored.makers();
        let lanes = LaneSlots::of_closed(alloc, makers.lanes as usize)?;
        let feeds = FeedSlots::of_closed(alloc, makers.feeds as usize)?;
        Ok(Floor {
            alloc,
            board: restored.into_board(),
            lanes,
            feeds,
        })
    }

    /// Lends the board, whose journal has the calls of seats, of lanes and of feeds.
    pub fn board(&self) -> &Board<M, L>
        ensures board { result.now ≡ self.now.board }

        // For each open lane the journal has exactly what was taken out of its ring; for a number never given, nothing.
        ensures lanes { KeepsLanes self.now.board.history self.now.lanes }

        // For each open feed the journal has exactly what was put into its ring, which is all that its port received.
        ensures feeds { KeepsFeeds self.now.board.history self.now.feeds }
    {
        &self.board
    }

    /// Returns the board, and drops the rest: lanes and feeds that are still open, with the messages in their rings.
    pub fn into_board(self) -> Board<M, L>
        ensures { result ≡ self.board }
    {
        self.board
    }

    /// Returns how many lanes are open.
    pub fn open_lanes(&self) -> u64
        ensures { result ≡ count_by is_some self.now.lanes }
    {
        self.lanes.open_count()
    }

    /// Returns how many feeds are open.
    pub fn open_feeds(&self) -> u64
        ensures { result ≡ count_by is_some self.now.feeds }
    {
        self.feeds.open_count()
    }

    /// Makes a call of the seat with this number, as `Board::apply` does. Receiving from the port of an open feed, polling or
    /// closing it fails with `WrongKind`. It may be copied, and once the feed has ended it is a port like any other.
    #[inline(always)]
    pub fn apply(&mut self, seat: u64, call: Call<M>) -> Outcome<M>
        ensures barred { is_barred self.old.feeds call ≡ true → (result ≡ Refused WrongKind call) × (self.new ≡ self.old) }
        ensures applied { is_barred self.old.feeds call ≡ false
            → Applies L.CHUNK M.SURE self.old.board self.new.board (Seat seat) call result }
        ensures lanes { self.new.lanes ≡ self.old.lanes }
        ensures feeds { self.new.feeds ≡ self.old.feeds }
        ensures rings { KeepsRings self.old self.new }
    {
        if self.feeds.bars(&call) {
            return Outcome::Refused(Refusal::WrongKind, call);
        }
        self.board.apply(Who::Seat(seat), call)
    }

    /// Makes a call of the seat with this number, as `apply` does, and returns the reply alone. The journal keeps the caller's
    /// own call, as in `Board::call`.
    #[inline(always)]
    pub fn call(&mut self, seat: u64, call: Call<M>) -> Response<M>
        ensures barred { is_barred self.old.feeds call ≡ true → (result ≡ Response.Refused WrongKind call) × (self.new ≡ self.old) }
        ensures applied { is_barred self.old.feeds call ≡ false
            → Applies L.CHUNK M.SURE self.old.board self.new.board (Seat seat) call
            (outcome_of (entries_in self.old.board.history) call result) }
        ensures lanes { self.new.lanes ≡ self.old.lanes }
        ensures feeds { self.new.feeds ≡ self.old.feeds }
        ensures rings { KeepsRings self.old self.new }
    {
        if self.feeds.bars(&call) {
            return Response::Refused(Refusal::WrongKind, call);
        }
        self.board.call(Who::Seat(seat), call)
    }

    /// Reserves memory for `n` more entries. Until `n` entries are added, `NoMemory` comes only of an entry that makes an
    /// object, fills a chunk, or shares a message whose `share` can fail. Opening a lane or a feed needs more memory.
    /// A `cut` or `cut_open` keeps the reserved memory. A `take_journal` or `take_journal_open` hands it over with the entries.
    /// Fails only with `NoMemory`, and then the floor is unchanged.
    pub fn reserve(&mut self, n: usize) -> Result<(), Refusal>
        ensures reserves { Reserves self.old self.new n result }
        ensures rings { KeepsRings self.old self.new }
    {
        match self.board.reserve(n) {
            Ok(()) => Ok(()),
            Err(_) => Err(Refusal::NoMemory),
        }
    }

    /// Cuts the board's journal, as `Board::cut` does. Fails only with `Busy`, if a lane or a feed is open: its part of the
    /// journal goes on.
    pub fn cut(&mut self) -> Result<(), Refusal>
        ensures cut { CutsAFloor self.old self.new result }
        ensures reserved { self.old.board.reserved ≤ self.new.board.reserved }
        ensures rings { KeepsRings self.old self.new }
    {
        if self.is_busy() {
            return Err(Refusal::Busy);
        }
        self.board.cut();
        Ok(())
    }

    /// Cuts the journal and returns the entries that it had, as `Board::take_journal` does. Fails as `cut` does.
    pub fn take_journal(&mut self) -> Result<Vec<Entry<M>>, Refusal>
        ensures taken { IfOk result (λ taken. reverse taken.items ++ self.old.board.past ≡ self.old.board.history) }
        ensures cut { MatchResult result (λ _. CutsFloor self.old self.new) (NotCut self.old self.new) }
        ensures rings { KeepsRings self.old self.new }
    {
        if self.is_busy() {
            return Err(Refusal::Busy);
        }
        Ok(self.board.take_journal())
    }

    /// Cuts the board's journal while lanes and feeds are open, and never fails. Their rings go on as they were. `KeepsLanes` and
    /// `KeepsFeeds` speak of all entries, those that were cut away included.
    pub fn cut_open(&mut self)
        ensures cut { CutsOpenFloor self.old self.new }
        ensures reserved { self.old.board.reserved ≤ self.new.board.reserved }
        ensures rings { KeepsRings self.old self.new }
    {
        self.board.cut();
    }

    /// Cuts the journal as `cut_open` does, and returns the entries that it had. The reserved memory goes with them.
    pub fn take_journal_open(&mut self) -> Vec<Entry<M>>
        ensures taken { reverse result.items ++ self.old.board.past ≡ self.old.board.history }
        ensures cut { CutsOpenFloor self.old self.new }
        ensures rings { KeepsRings self.old self.new }
    {
        self.board.take_journal()
    }

    fn is_busy(&self) -> bool
        ensures { MatchBool result (IsBusy self.now) ((count_by is_some self.now.lanes ≡ 0) × (count_by is_some self.now.feeds ≡ 0)) }
    {
        self.open_lanes() > 0 || self.open_feeds() > 0
    }

    fn has_lane(&self, lane: u64) -> bool
        ensures { result ≡ is_open_lane self.now lane }
    {
        self.lanes.has(lane)
    }

    fn has_feed(&self, feed: u64) -> bool
        ensures { result ≡ is_open_feed self.now feed }
    {
        self.feeds.has(feed)
    }

    /// Moves the messages seen on an open lane until one is refused. Returns how many it moved, and the refusal.
    fn drain_open(&mut self, lane: u64) -> (usize, Option<Refusal>)
        requires { is_open_lane self.old lane ≡ true }
        ensures until { OnLane stays lane self.old self.new
            (DrainsUntil L.CHUNK M.SURE lane result.0 result.1 self.old.board self.new.board) }
        ensures rings { KeepsRings self.old self.new }
    {
        self.lanes.drain(self.alloc, &mut self.board, lane)
    }

    /// Moves all messages left on an open lane, whose end this is, until one is refused. Returns how many it moved, and the refusal.
    fn drain_after(&mut self, lane: u64, end: &mut LaneEnd<M>) -> (usize, Option<Refusal>)
        requires opened { is_open_lane self.old lane ≡ true }
        requires ring { IsOfRing lane self.old end.old }
        ensures end { end.new ≡ end.old }
        ensures until { OnLane stays lane self.old self.new
            (DrainsUntil L.CHUNK M.SURE lane result.0 result.1 self.old.board self.new.board) }
        ensures all { GivesAll lane self.new end.old }
        ensures rings { KeepsRings self.old self.new }
    {
        self.lanes
            .drain_after(self.alloc, &mut self.board, lane, end)
    }

    /// Returns how many messages of an open lane are in the journal.
    fn moved_count(&self, lane: u64) -> u64
        requires { is_open_lane self.now lane ≡ true }
        ensures { result ≡ length (laned self.now.board.history lane) }
    {
        self.lanes.moved_count(lane)
    }

    /// Closes an open lane, and drops the messages left in its ring.
    fn let_go(&mut self, lane: u64)
        requires { is_open_lane self.old lane ≡ true }
        ensures floor { self.new ≡ record self.old { lanes = slice_set self.old.lanes lane None } }
        ensures rings { KeepsRings self.old self.new }
    {
        self.lanes.let_go(lane);
    }
}
