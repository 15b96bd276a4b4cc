ghost use Rattle.std.specs.Prelude.{◌≡◌, ◌≤◌, ◌^◌, true, IfOk, IfErr, OnOk};
ghost use Rattle.cml_board.specs.declared.outcome.Refusal.TheVariants.{NoMemory};
ghost use Rattle.cml_board.specs.{want_in};
ghost use Rattle.cml_threads.specs.{BeginsWith, Grows, MayFail, MayRefuse, raised, suits};

mod failure;
mod feeds;
mod guarded;
mod lanes;
mod pending;
mod piece;
mod sink;
mod sinks;
mod start;

use crate::seat::{Left, Seat};
use crate::switchboard::Switchboard;
use cml_board::{Answer, Call, Message, Refusal, Reply};
use cml_log::MessageLog;
pub use failure::Failure;
use guarded::GuardedJournal;
pub use pending::PendingJournal;
use piece::Piece;
pub use sink::Sink;
pub use sinks::{Collecting, Dropping};
pub use start::Start;
use std::alloc::{AllocError, Global};
use std::rt::Clock;
use std::sync::atomic::{AtomicU64, Ordering};
use std::sync::ledger::Blank;
use std::sync::{Mutex, Wait};
use std::thread::Threads;

/// A switchboard that cuts its journal by itself. The call that finds the journal full takes its entries, hands them to the sink,
/// and is then made. Lanes and feeds stay open.
///
/// The sink runs while other threads make calls, and not under the switchboard's lock. A thread that finds the journal full in
/// the meantime waits until the sink is done.
///
/// If the sink fails, the call fails with `NotKept`, and the entries that the sink didn't take are pending. The journal has room
/// again, so other calls are accepted. The next call that finds the journal full hands over the pending entries first, and cuts
/// the journal only if the sink took them all. So what waits for the sink is never more than one journal.
///
/// Whenever the pending journal's lock is free, the sink and the pending entries begin with all that they had at first: `Led.start`.
/// A ghost field of `GuardedJournal` says so. A cut keeps all that they had, and adds its `Piece` after it: see `cut` and `Piece`. No
/// clause says which entries were cut, since the journal lies under another lock. A contract here is about what the caller holds, as in
/// `Switchboard`.
///
/// No call fails with `JournalFull`: if other threads fill the journal again before this call is made, it makes room again. Only a
/// board that has accepted 2^64 - 1 calls has no room after a cut, and calls on it block for ever.
#[derive(Drop)]
pub struct Keeping<M, L: MessageLog<M>, Led: Start<M>, S: Sink<M>> {
    board: Switchboard<M, L, Led>,
    journal: Mutex<GuardedJournal<M, Led, S>>,
    // How often the journal was cut. Only a thread that has locked the pending journal writes it.
    cuts: AtomicU64,
}

impl<M: Message, L: MessageLog<M>, Led: Start<M>, S: Sink<M>> Keeping<M, L, Led, S> {
    /// Makes one of a switchboard and a pending journal, whose entries the sink gets first. `Led.start` is what the pending journal
    /// begins with, at most all that it has.
    pub fn of(board: Switchboard<M, L, Led>, journal: PendingJournal<M, S>) -> Keeping<M, L, Led, S>
        requires { BeginsWith Led.start journal }
    {
        Keeping {
            board,
            journal: Mutex::new(GuardedJournal::of(journal)),
            cuts: AtomicU64::new(0),
        }
    }

    /// Makes one with no seats and no objects, as `Switchboard::new` does. Its journal takes `limit` entries, and then it is cut.
    pub fn new(
        alloc: Global,
        limit: u64,
        blank: Blank,
        sink: S,
    ) -> Result<Keeping<M, L, Led, S>, AllocError>
        requires least { 1 ≤ limit }
        requires most { limit ≤ 2 ^ 32 }
        requires name { blank.name ≡ Led.name }
        requires parts { blank.parts ≡ Led.parts }
        requires enough { blank.parts ≡ 2 ^ 63 }
        requires start { S.taken sink ≡ Led.start }
    {
        let board = Switchboard::new(alloc, limit, blank)?;
        Ok(Keeping::of(board, PendingJournal::new(alloc, sink)))
    }

    /// Measures whether threads may yield before they sleep, as `Switchboard::tune` does.
    pub fn tune<R: Clock + Threads>(&self, rt: &R) {
        self.board.tune(rt);
    }

    /// Makes a new seat, as `Switchboard::seat` does.
    pub fn seat<R: Wait>(&self, rt: &R) -> Result<Seat<Led>, Refusal>
        ensures share { IfOk result (λ seat. seat.share ≡ 0) }
        ensures refused { IfErr result (λ refusal. refusal ≡ NoMemory) }
    {
        self.board.seat(rt)
    }

    /// Makes the seat leave, as `Switchboard::leave` does.
    pub fn leave<R: Wait>(&self, rt: &R, seat: Seat<Led>) -> Left<Led>
        ensures { result ≡ seat }
    {
        self.board.leave(rt, seat)
    }

    /// Makes a call, and blocks until it returns or fails, as `Switchboard::call` does. If the journal is full, it makes room first.
    /// A call that fails is returned, and did nothing.
    pub fn call<R: Wait>(
        &self,
        rt: &R,
        seat: &mut Seat<Led>,
        call: Call<M>,
    ) -> Result<Answer<M>, (Failure<S::Error>, Call<M>)>
        ensures call { IfOk result (λ answer. answer.call ≡ call) }
        ensures reply { IfOk result (λ answer. suits call answer.reply ≡ true) }
        ensures counted { OnOk result (seat.new ≡ raised seat.old) }
        ensures back { IfErr result (λ back. MayFail (MayRefuse (want_in call)) back.0 × (back.1 ≡ call) × (seat.new ≡ seat.old)) }
    {
        let mut call = call;
        for _ in rt.forever() {
            let seen = self.cuts();
            match self.board.call(rt, seat, call) {
                Ok(answer) => return Ok(answer),
                Err((Refusal::JournalFull, back)) => {
                    if let Err(error) = self.make_room_since(rt, seen) {
                        return Err((Failure::NotKept(error), back));
                    }
                    call = back;
                }
                Err((refusal, back)) => return Err((Failure::Refused(refusal), back)),
            }
        }
        unreachable!()
    }

    /// Makes a call as `call` does, and returns the reply alone, which takes less time: `reply(rt, &mut seat, Call::Send(mailbox, message))`.
    pub fn reply<R: Wait>(
        &self,
        rt: &R,
        seat: &mut Seat<Led>,
        call: Call<M>,
    ) -> Result<Reply<M>, (Failure<S::Error>, Call<M>)>
        ensures reply { IfOk result (λ reply. suits call reply ≡ true) }
        ensures counted { OnOk result (seat.new ≡ raised seat.old) }
        ensures back { IfErr result (λ back. MayFail (MayRefuse (want_in call)) back.0 × (back.1 ≡ call) × (seat.new ≡ seat.old)) }
    {
        let mut call = call;
        for _ in rt.forever() {
            let seen = self.cuts();
            match self.board.reply(rt, seat, call) {
                Ok(reply) => return Ok(reply),
                Err((Refusal::JournalFull, back)) => {
                    if let Err(error) = self.make_room_since(rt, seen) {
                        return Err((Failure::NotKept(error), back));
                    }
                    call = back;
                }
                Err((refusal, back)) => return Err((Failure::Refused(refusal), back)),
            }
        }
        unreachable!()
    }

    /// Hands the pending entries to the sink, then cuts the journal now and hands its entries over: at the end, or before a long
    /// pause. If the sink fails, the entries that it didn't take are pending.
    pub fn make_room<R: Wait>(&self, rt: &R) -> Result<(), S::Error> {
        let mut journal = self.journal.lock(rt);
        self.cut_locked(rt, &mut journal)
    }

    /// Returns the switchboard, the sink, and what is pending. The journal still has the entries since the last cut:
    /// call `make_room` before, or read them off the board at the end.
    pub fn into_parts(self) -> (Switchboard<M, L, Led>, PendingJournal<M, S>)
        ensures { BeginsWith Led.start result.1 }
    {
        let Keeping {
            board,
            journal,
            cuts: _,
        } = self;
        (board, journal.into_inner().into_journal())
    }

    /// How often the journal was cut. A thread reads it before its call.
    fn cuts(&self) -> u64 {
        self.cuts.load(Ordering::SeqCst)
    }

    /// Makes room for a call that found the journal full.
    fn make_room_since<R: Wait>(&self, rt: &R, seen: u64) -> Result<(), S::Error> {
        let mut journal = self.journal.lock(rt);
        // Another thread cut the journal while this one waited for the lock.
        if self.cuts() != seen {
            return Ok(());
        }
        self.cut_locked(rt, &mut journal)
    }

    /// Does what `cut` does, under the lock.
    #[tactic(auto, using(crate::proofs::GrowingLemmas::goes_on))]
    fn cut_locked<R: Wait>(
        &self,
        rt: &R,
        locked: &mut GuardedJournal<M, Led, S>,
    ) -> Result<(), S::Error>
        ensures { Grows locked.old.journal locked.new.journal }
    {
        self.cut(rt, &mut locked.journal)
    }

    /// Hands the pending entries over, then cuts the journal and hands its entries over. The caller has locked the pending journal
    /// before the journal, so the pieces reach the sink in the journal's order. If the sink doesn't take what is pending, the journal stays.
    fn cut<R: Wait>(&self, rt: &R, journal: &mut PendingJournal<M, S>) -> Result<(), S::Error>
        ensures { Grows journal.old journal.new }
    {
        journal.hand_over_pending()?;
        let piece = Piece::cut(rt, &self.board);
        self.cuts.fetch_add(1, Ordering::SeqCst);
        piece.hand_over_to(journal)
    }
}
