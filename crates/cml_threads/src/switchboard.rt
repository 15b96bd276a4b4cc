ghost use Rattle.std.specs.Prelude.{◌≡◌, ◌+◌, ◌^◌, ◌≤◌, true, IfOk, IfErr, OnOk};
ghost use Rattle.cml_board.specs.declared.outcome.Refusal.TheVariants.{Busy, NoMemory};
ghost use Rattle.cml_board.specs.{want_in, entries_in, rings_in};
ghost use Rattle.cml_threads.specs.{HaveLeft, raised, answers_in, suits, MayRefuse, Returns};

mod channels;
mod compacting;
mod feeds;
mod lanes;
mod mailboxes;
mod replying;
mod variables;

use crate::hall::Hall;
use crate::locked::Locked;
use crate::seat::{Left, Seat};
use crate::settled::Settled;
use cml_board::{Answer, Call, Entry, Message, Outcome, Refusal, Restored};
use cml_log::MessageLog;
use std::alloc::{AllocError, Global};
use std::rt::Clock;
use std::sync::Wait;
use std::sync::ledger::{Blank, Ledger};
use std::thread::Threads;

/// A hall under one lock, which threads share. Each thread makes its calls by its seat. A call that would wait blocks, and is
/// made again when its seat is due. Each call wakes at most one of the seats that are due. A thread that is woken makes a
/// call, which wakes the next. The only code of a caller that runs while the lock is held is a message's `share` and its
/// drop.
///
/// A contract here is about what the caller holds: the call, the answer and the seat. It says nothing of the board, which
/// another thread may change before the caller looks. Whenever the lock is free, the facts of `Hall::board` hold. At the
/// end, `settle` returns the board with all that was answered.
#[derive(Drop)]
pub struct Switchboard<M, L: MessageLog<M>, Led: Ledger> {
    alloc: Global,
    locked: Locked<M, L, Led>,
}

impl<M: Message, L: MessageLog<M>, Led: Ledger> Switchboard<M, L, Led> {
    /// Makes a switchboard of a hall, whose seats have all left: a new hall, or a restored one. What the hall's contracts say of
    /// it holds whenever the switchboard's lock is free and no call was made yet.
    pub fn of(alloc: Global, hall: Hall<M, L, Led>) -> Result<Switchboard<M, L, Led>, AllocError>
        requires { HaveLeft hall.seats }
    {
        Ok(Switchboard {
            alloc,
            locked: Locked::new(alloc, hall)?,
        })
    }

    /// Makes a switchboard with no seats and no objects, of a hall that `Hall::new` makes. Its journal takes `limit` entries
    /// between two cuts. The blank is `Blank::new(PARTS)`, and names the switchboard's ledger.
    pub fn new(
        alloc: Global,
        limit: u64,
        blank: Blank,
    ) -> Result<Switchboard<M, L, Led>, AllocError>
        requires least { 1 ≤ limit }
        requires most { limit ≤ 2 ^ 32 }
        requires name { blank.name ≡ Led.name }
        requires parts { blank.parts ≡ Led.parts }
        requires enough { blank.parts ≡ 2 ^ 63 }
    {
        Switchboard::of(alloc, Hall::new(alloc, limit, blank)?)
    }

    /// Makes a switchboard that goes on from a journal, of a hall that `Hall::restore` makes, and the left of the seats that made
    /// its entries. New seats are numbered after these. Keep the left for `settle`.
    pub fn restore(
        alloc: Global,
        restored: Restored<M, L>,
        blank: Blank,
    ) -> Result<(Switchboard<M, L, Led>, Left<Led>), AllocError>
        requires name { blank.name ≡ Led.name }
        requires parts { blank.parts ≡ Led.parts }
        requires enough { blank.parts ≡ 2 ^ 63 }
        ensures number { IfOk result (λ made. made.1.number ≡ 0) }
        ensures left { IfOk result (λ made. made.1.seats ≡ restored.makers.seats) }
        ensures answers { IfOk result (λ made. made.1.share + rings_in restored.board.history ≡ entries_in restored.board.history) }
    {
        let (hall, left) = Hall::restore(alloc, restored, blank)?;
        Ok((Switchboard::of(alloc, hall)?, left))
    }

    /// Measures how long a yield takes now, with nothing else to do. If it is short, and there is more than one processor, threads
    /// yield a few times from now on before they sleep. With more threads than processors that halves the time of a request. If it
    /// is long, since other programs compute beside this one, threads sleep sooner, as they do before the first call. It takes some
    /// microseconds, or as long as one long yield. Call it before the threads start, and again if the other programs come or go.
    pub fn tune<R: Clock + Threads>(&self, rt: &R) {
        self.locked.measure_yields(rt);
    }

    /// Makes a new seat. Fails only with `NoMemory`. Make all seats before the first thread begins to wait. Keep no free seat
    /// while you wait for the threads themselves, as by a join: while a seat is free, no call fails with `Stalled`.
    pub fn seat<R: Wait>(&self, rt: &R) -> Result<Seat<Led>, Refusal>
        ensures share { IfOk result (λ seat. seat.share ≡ 0) }
        ensures refused { IfErr result (λ refusal. refusal ≡ NoMemory) }
    {
        let mut turn = self.locked.lock(rt);
        let made = self.make_seat(rt, turn.hall());
        self.locked.unlock(turn);
        made
    }

    /// Makes a seat and its parker.
    fn make_seat<R: Wait>(&self, rt: &R, hall: &mut Hall<M, L, Led>) -> Result<Seat<Led>, Refusal>
        ensures share { IfOk result (λ seat. seat.share ≡ 0) }
        ensures refused { IfErr result (λ refusal. refusal ≡ NoMemory) }
    {
        if self.locked.add_parker(rt, hall.seats()).is_err() {
            return Err(Refusal::NoMemory);
        }
        hall.new_seat()
    }

    /// Reserves memory for `n` more entries, as `Hall::reserve` does. Fails only with `NoMemory`. The entries of any thread,
    /// lane or feed use it, and some may be added before the caller's next call.
    pub fn reserve<R: Wait>(&self, rt: &R, n: usize) -> Result<(), Refusal>
        ensures { IfErr result (λ refusal. refusal ≡ NoMemory) }
    {
        let mut turn = self.locked.lock(rt);
        let told = turn.hall().reserve(n);
        self.locked.unlock(turn);
        told
    }

    /// Cuts the journal, as `Hall::cut` does. Fails only with `Busy`, if a lane or a feed is open. A blocked thread stays
    /// blocked, since a cut changes no call's answer. The journal's entries are dropped under the lock; `take_journal` returns
    /// them instead, so that you can drop or write them elsewhere.
    pub fn cut<R: Wait>(&self, rt: &R) -> Result<(), Refusal>
        ensures { IfErr result (λ refusal. refusal ≡ Busy) }
    {
        let mut turn = self.locked.lock(rt);
        let told = turn.hall().cut();
        self.locked.unlock(turn);
        told
    }

    /// Cuts the journal and returns the entries that it had, oldest first, as `Hall::take_journal` does. Fails as `cut` does.
    /// If nothing else cuts the journal, the pieces that it returns are all accepted calls, each once.
    pub fn take_journal<R: Wait>(&self, rt: &R) -> Result<Vec<Entry<M>>, Refusal>
        ensures { IfErr result (λ refusal. refusal ≡ Busy) }
    {
        let mut turn = self.locked.lock(rt);
        let told = turn.hall().take_journal();
        self.locked.unlock(turn);
        told
    }

    /// Cuts the journal while lanes and feeds are open, as `Hall::cut_open` does, and never fails. A lane that is closed later
    /// still has all that its thread sent, in order: the entries that were cut away, and then those of the journal.
    /// Their entries are dropped under the lock, as by `cut`.
    pub fn cut_open<R: Wait>(&self, rt: &R) {
        let mut turn = self.locked.lock(rt);
        turn.hall().cut_open();
        self.locked.unlock(turn);
    }

    /// Cuts the journal as `cut_open` does, and returns the entries that it had, oldest first. If nothing else cuts the journal,
    /// the pieces that it returns are all accepted calls, each once.
    pub fn take_journal_open<R: Wait>(&self, rt: &R) -> Vec<Entry<M>> {
        let mut turn = self.locked.lock(rt);
        let taken = turn.hall().take_journal_open();
        self.locked.unlock(turn);
        taken
    }

    /// Makes a call, and blocks until it returns or fails. It may block for ever, if no thread sends what it waits for. A call
    /// that fails is returned, and did nothing.
    ///
    /// `Stalled` means that the call would block, that each other seat is blocked too or has left, and that no lane is open. So
    /// no seat and no lane could ever answer it. The seat is free then: make another call, which may let others go on, or
    /// leave. Once no seat is free, the other calls fail with `Stalled` too, unless they can go on by then.
    ///
    /// Close your lanes before you block: while one is open no call fails with `Stalled`, and yours may block for ever.
    pub fn call<R: Wait>(
        &self,
        rt: &R,
        seat: &mut Seat<Led>,
        call: Call<M>,
    ) -> Result<Answer<M>, (Refusal, Call<M>)>
        ensures call { IfOk result (λ answer. answer.call ≡ call) }
        ensures reply { IfOk result (λ answer. suits call answer.reply ≡ true) }
        ensures counted { OnOk result (seat.new ≡ raised seat.old) }
        ensures back { IfErr result (λ back. MayRefuse (want_in call) back.0 × (back.1 ≡ call) × (seat.new ≡ seat.old)) }
    {
        let mut outcome = self.ask(rt, seat, call);
        for _ in rt.forever() {
            match outcome {
                Outcome::Answered(answer) => return Ok(answer),
                Outcome::Refused(refusal, call) => return Err((refusal, call)),
                Outcome::WouldWait(call) => {
                    self.locked.park(rt, seat.number());
                    outcome = self.ask_again(rt, seat, call);
                }
            }
        }
        unreachable!()
    }

    /// Makes the seat leave. If no seat is free then, all blocked threads look again whether they can go on, since they may be
    /// stalled now. Leave even if your calls failed: no call fails with `Stalled` while your seat is free.
    pub fn leave<R: Wait>(&self, rt: &R, seat: Seat<Led>) -> Left<Led>
        ensures { result ≡ seat }
    {
        let mut turn = self.locked.lock(rt);
        let _ = turn.hall().leave(&seat);
        self.locked.unlock(turn);
        seat.into_left()
    }

    /// Ends the switchboard, once all threads are joined: returns the board, with the counts of its entries. Needs the lefts
    /// of all seats that were made; otherwise it fails, and returns the switchboard and the lefts. So if a seat was dropped
    /// it always fails; use `into_hall` then.
    pub fn settle(
        self,
        lefts: Vec<Left<Led>>,
    ) -> Result<Settled<M, L>, (Switchboard<M, L, Led>, Vec<Left<Led>>)>
        ensures seats { IfOk result (λ settled. settled.seats ≡ answers_in lefts.items) }
        ensures rings { IfOk result (λ settled. settled.rings ≡ rings_in settled.board.history) }
        ensures total { IfOk result (λ settled. settled.seats + settled.rings ≡ entries_in settled.board.history) }
        ensures back { IfErr result (λ back. back.1 ≡ lefts) }
    {
        let alloc = self.alloc;
        let (hall, parkers) = self.locked.into_parts();
        match hall.settle(lefts) {
            Ok(settled) => Ok(settled),
            Err((hall, lefts)) => {
                let locked = Locked::of_parts(hall, parkers);
                Err((Switchboard { alloc, locked }, lefts))
            }
        }
    }

    /// Returns the content of the lock. If a seat was lost, so that `settle` always fails, read the board in this way: the
    /// facts of `Hall::board` hold of it.
    pub fn into_hall(self) -> Hall<M, L, Led> {
        self.locked.into_hall()
    }

    /// Makes the seat's call, and wakes a seat that is due. If the seat is parked, its thread parks next. What comes for it from
    /// now on unparks it, and that is kept.
    fn ask<R: Wait>(&self, rt: &R, seat: &mut Seat<Led>, call: Call<M>) -> Outcome<M>
        ensures { Returns seat.old seat.new call result }
    {
        let mut turn = self.locked.lock(rt);
        let outcome = ask(turn.hall(), seat, call);
        self.locked.unlock_after(turn, seat.number());
        outcome
    }

    /// Makes the call of a parked seat again, as `ask` makes one.
    fn ask_again<R: Wait>(&self, rt: &R, seat: &mut Seat<Led>, call: Call<M>) -> Outcome<M>
        ensures { Returns seat.old seat.new call result }
    {
        let mut turn = self.locked.lock(rt);
        let outcome = ask_again(turn.hall(), seat, call);
        self.locked.unlock_after(turn, seat.number());
        outcome
    }
}

/// `Hall::ask`, with as much of its contract as holds for the caller of a switchboard.
fn ask<M: Message, L: MessageLog<M>, Led: Ledger>(
    hall: &mut Hall<M, L, Led>,
    seat: &mut Seat<Led>,
    call: Call<M>,
) -> Outcome<M>
    ensures { Returns seat.old seat.new call result }
{
    hall.ask(seat, call)
}

/// `Hall::ask_again`, in the same way.
fn ask_again<M: Message, L: MessageLog<M>, Led: Ledger>(
    hall: &mut Hall<M, L, Led>,
    seat: &mut Seat<Led>,
    call: Call<M>,
) -> Outcome<M>
    ensures { Returns seat.old seat.new call result }
{
    hall.ask_again(seat, call)
}
