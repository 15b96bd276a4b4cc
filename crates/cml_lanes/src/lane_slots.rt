ghost use Rattle.std.specs.Prelude.{◌≡◌, ◌<◌, ◌-◌, ◌^◌, ◌∷◌, ◌++◌, [], true, length, slice_get, slice_set, replicate, Some};
ghost use Rattle.std.specs.Prelude.{None, is_some, count_by, IfSome, IfOk, OnOk, OnErr};
ghost use Rattle.cml_lanes.specs.{LaneSide, is_taken, stays, OnPlace, KeepsLane, DrainsUntil, LeavesAll};

use crate::inner_lane::InnerLane;
use crate::lane::LaneEnd;
use crate::moving::{drain_slot, drain_slot_after};
use cml_board::{Board, Message, Refusal};
use cml_log::MessageLog;
use std::alloc::{AllocError, Global};
use std::marker::Model;

/// The floor's ends of lanes by their numbers, and how many of them are open.
#[derive(Drop)]
pub struct LaneSlots<M> {
    // This many were closed before the floor was made. They take no memory: the slots are of the numbers after theirs.
    closed: usize,
    slots: Vec<Option<InnerLane<M>>>,
    opened: u64,
}

impl<M> Model for LaneSlots<M> {
    ghost use Rattle.std.specs.Prelude.{List, Option};
    ghost use Rattle.cml_lanes.specs.Sides.{LaneSide};

    ghost Value = { List (Option (LaneSide M)) };

    ghost use Rattle.std.specs.Prelude.{◌≡◌, ◌<◌, ◌^◌, count_by, is_some};
    ghost use Rattle.cml_lanes.specs.Slots.{behind};

    ghost view = { λ l. behind l.closed l.slots.items };

    ghost invariant = { λ l. (l.opened ≡ count_by is_some (behind l.closed l.slots.items)) × (l.closed < 2 ^ 63) };
}

impl<M: Message> LaneSlots<M> {
    pub fn new(alloc: Global) -> LaneSlots<M>
        ensures { result ≡ [] }
    {
        LaneSlots {
            closed: 0,
            slots: Vec::new(alloc),
            opened: 0,
        }
    }

    /// This many lanes, none of which is open. Allocates no memory, and fails only if there are 2^63.
    pub fn of_closed(alloc: Global, count: usize) -> Result<LaneSlots<M>, AllocError>
        ensures closed { IfOk result (λ lanes. lanes ≡ replicate count None) }
        ensures few { IfOk result (λ _. count < 2 ^ 64 - 1) }
    {
        if count >= 1 << 63 {
            return Err(AllocError);
        }
        Ok(LaneSlots {
            closed: count,
            slots: Vec::new(alloc),
            opened: 0,
        })
    }

    /// How many lanes were opened.
    pub fn count(&self) -> usize
        ensures { result ≡ length self.now }
    {
        self.closed + self.slots.len()
    }

    /// How many are open.
    pub fn open_count(&self) -> u64
        ensures { result ≡ count_by is_some self.now }
    {
        self.opened
    }

    pub fn has(&self, number: u64) -> bool
        ensures { result ≡ is_taken (slice_get self.now number) }
    {
        if (number as usize) < self.closed {
            return false;
        }
        matches!(self.slots.get(number as usize - self.closed), Some(Some(_)))
    }

    /// Adds a lane with the next number.
    pub fn add(&mut self, lane: InnerLane<M>) -> Result<(), AllocError>
        ensures added { OnOk result (self.new ≡ self.old ++ Some lane ∷ []) }
        ensures refused { OnErr result (self.new ≡ self.old) }
    {
        self.slots.reserve(1)?;
        self.slots.push_reserved(Some(lane));
        self.opened += 1;
        Ok(())
    }

    /// Moves what is seen of an open lane, until a message is refused: how many were moved, and the refusal.
    pub fn drain<L: MessageLog<M>>(
        &mut self,
        alloc: Global,
        board: &mut Board<M, L>,
        number: u64,
    ) -> (usize, Option<Refusal>)
        requires opened { is_taken (slice_get self.old number) ≡ true }
        requires kept { (side : LaneSide M) → slice_get self.old number ≡ Some (Some side) → KeepsLane board.old.history number side }
        ensures { OnPlace stays number self.old self.new (DrainsUntil L.CHUNK M.SURE number result.0 result.1 board.old board.new) }
    {
        drain_slot(
            alloc,
            board,
            &mut self.slots[number as usize - self.closed],
            number,
        )
    }

    /// Moves all that is left of an open lane, whose end this is, until a message is refused: how many were moved, and the refusal.
    pub fn drain_after<L: MessageLog<M>>(
        &mut self,
        alloc: Global,
        board: &mut Board<M, L>,
        number: u64,
        end: &mut LaneEnd<M>,
    ) -> (usize, Option<Refusal>)
        requires opened { is_taken (slice_get self.old number) ≡ true }
        requires kept { (side : LaneSide M) → slice_get self.old number ≡ Some (Some side) → KeepsLane board.old.history number side }
        requires ring { (side : LaneSide M) → slice_get self.old number ≡ Some (Some side) → end.old.ring ≡ side.ring }
        ensures end { end.new ≡ end.old }
        ensures until { OnPlace stays number self.old self.new (DrainsUntil L.CHUNK M.SURE number result.0 result.1 board.old board.new) }
        ensures all { (side : LaneSide M) → slice_get self.new number ≡ Some (Some side) → LeavesAll end.old side }
    {
        drain_slot_after(
            alloc,
            board,
            &mut self.slots[number as usize - self.closed],
            number,
            end,
        )
    }

    /// How many messages were taken out of an open lane's ring.
    pub fn moved_count(&self, number: u64) -> u64
        requires { is_taken (slice_get self.now number) ≡ true }
        ensures { (side : LaneSide M) → slice_get self.now number ≡ Some (Some side) → result ≡ length side.received }
    {
        match &self.slots[number as usize - self.closed] {
            Some(inner) => inner.count(),
            None => unreachable!(),
        }
    }

    /// Lets go of an open lane, and drops what is left in its ring.
    pub fn let_go(&mut self, number: u64)
        requires { is_taken (slice_get self.old number) ≡ true }
        ensures { self.new ≡ slice_set self.old number None }
    {
        self.slots[number as usize - self.closed] = None;
        self.opened -= 1;
    }
}
