//! A switchboard whose journal is kept in a file.
mod moving;

ghost use Rattle.std.specs.Prelude.{◌≡◌, ◌≤◌, ◌^◌, [], true, IfOk, IfErr, OnOk};
ghost use Rattle.cml_board.specs.declared.outcome.Refusal.TheVariants.{NoMemory};
ghost use Rattle.cml_threads.specs.{raised, suits};
ghost use Rattle.cml_file.specs.{Fails, IsUnstored};

use crate::disk::Disk;
use crate::failed::Failed;
use crate::fault::Fault;
use crate::filing::Filing;
use crate::lines::fits;
use crate::recovered::Recovered;
use crate::unstored::Unstored;
use cml_board::{Answer, Call, Message, Refusal, Reply};
use cml_journal::Written;
use cml_log::MessageLog;
use cml_threads::{Left, Seat, Switchboard};
use std::alloc::{AllocError, Global};
use std::sync::atomic::{AtomicBool, Ordering};
use std::sync::ledger::{Blank, Ledger};
use std::sync::{Mutex, Wait};

/// How a seat's call fails.
pub type CallFailed<M> = Failed<Call<M>, Answer<M>>;

/// A switchboard whose journal is kept in a file. A call returns once its entry is stored: it survives a kill of the process. What
/// was synced survives a loss of power too.
///
/// Threads share it. After each call the thread takes the journal's entries, those of other threads' calls too, and writes their
/// lines before it returns. Other threads' calls are accepted meanwhile, and wait for the file before they return.
///
/// If the file fails, the call that was made returns `Unstored` with its answer. Its entry stays in memory. The next call stores it
/// first, or is not made: so nothing is lost while the process lives, and little is at stake.
///
/// A contract here is about what the caller holds, as in `Switchboard`. No clause says what a file has.
#[derive(Drop)]
pub struct KeptSwitchboard<M, L: MessageLog<M>, Led: Ledger> {
    alloc: Global,
    board: Switchboard<M, L, Led>,
    disk: Disk,
    filing: Mutex<Filing<M>>,
    // Whether something that was accepted may not be stored, though its call has returned. Only a thread that has locked the filing
    // writes it.
    is_behind: AtomicBool,
}

impl<M: Message + Written, L: MessageLog<M>, Led: Ledger> KeptSwitchboard<M, L, Led> {
    /// Makes one of what was recovered of a file. The blank is `Blank::new(PARTS)`, and names the switchboard's ledger. New seats
    /// are numbered after those of the journal.
    pub fn of(
        alloc: Global,
        recovered: Recovered<M, L>,
        blank: Blank,
    ) -> Result<KeptSwitchboard<M, L, Led>, AllocError>
        requires name { blank.name ≡ Led.name }
        requires parts { blank.parts ≡ Led.parts }
        requires enough { blank.parts ≡ 2 ^ 63 }
    {
        let (restored, filing, disk) = recovered.into_parts();
        let (board, _) = Switchboard::restore(alloc, restored, blank)?;
        Ok(KeptSwitchboard {
            alloc,
            board,
            disk,
            filing: Mutex::new(filing),
            is_behind: AtomicBool::new(false),
        })
    }

    /// Makes a new seat, as `Switchboard::seat` does.
    pub fn seat<R: Wait>(&self, rt: &R) -> Result<Seat<Led>, Refusal>
        ensures share { IfOk result (λ seat. seat.share ≡ 0) }
        ensures refused { IfErr result (λ refusal. refusal ≡ NoMemory) }
    {
        self.board.seat(rt)
    }

    /// Makes the seat leave, as `Switchboard::leave` does.
    pub fn leave<R: Wait>(&self, rt: &R, seat: Seat<Led>) -> Left<Led>
        ensures { result ≡ seat }
    {
        self.board.leave(rt, seat)
    }

    /// Makes a call, and blocks until it returns or fails, as `Switchboard::call` does. It returns once the call is stored. A call
    /// that was not made is returned.
    pub fn call<R: Wait>(
        &self,
        rt: &R,
        seat: &mut Seat<Led>,
        call: Call<M>,
    ) -> Result<Answer<M>, CallFailed<M>>
        ensures call { IfOk result (λ answer. answer.call ≡ call) }
        ensures reply { IfOk result (λ answer. suits call answer.reply ≡ true) }
        ensures counted { OnOk result (seat.new ≡ raised seat.old) }
        ensures failed { IfErr result (Fails seat.old seat.new call) }
    {
        if let Err(fault) = self.make_ready(rt, &call) {
            return Err(Failed::Unmade(fault, call));
        }
        match self.make_unstored(rt, seat, call) {
            Ok(answer) => self.keep(rt, answer),
            Err(failed) => Err(failed),
        }
    }

    /// Makes a call as `call` does, and returns the reply alone: `reply(rt, &mut seat, Call::Send(mailbox, message))`.
    pub fn reply<R: Wait>(
        &self,
        rt: &R,
        seat: &mut Seat<Led>,
        call: Call<M>,
    ) -> Result<Reply<M>, CallFailed<M>>
        ensures reply { IfOk result (λ reply. suits call reply ≡ true) }
        ensures counted { OnOk result (seat.new ≡ raised seat.old) }
        ensures failed { IfErr result (Fails seat.old seat.new call) }
    {
        match self.call(rt, seat, call) {
            Ok(answer) => Ok(answer.into_reply()),
            Err(failed) => Err(failed),
        }
    }

    /// Stores all that was accepted before.
    pub fn store<R: Wait>(&self, rt: &R) -> Result<(), Fault> {
        let mut filing = self.filing.lock(rt);
        self.store_locked(rt, &mut filing)
    }

    /// Syncs all that was accepted before: it survives a loss of power from then on. Other threads' calls return after that.
    pub fn sync<R: Wait>(&self, rt: &R) -> Result<(), Fault> {
        let mut filing = self.filing.lock(rt);
        self.store_locked(rt, &mut filing)?;
        self.disk.sync(&mut filing)
    }

    /// Closes the file, once all threads are joined: stores and syncs all, and cuts off the zeros after the text. If it fails, it
    /// returns the switchboard: call it again, or drop it.
    pub fn close<R: Wait>(self, rt: &R) -> Result<(), (KeptSwitchboard<M, L, Led>, Fault)> {
        match self.finish(rt) {
            Ok(()) => Ok(()),
            Err(fault) => Err((self, fault)),
        }
    }

    fn finish<R: Wait>(&self, rt: &R) -> Result<(), Fault> {
        let mut filing = self.filing.lock(rt);
        self.store_locked(rt, &mut filing)?;
        self.disk.close(&mut filing)
    }

    /// Stores what a call before could not, and looks whether the call's lines can be read.
    fn make_ready<R: Wait>(&self, rt: &R, call: &Call<M>) -> Result<(), Fault> {
        if !fits(self.alloc, call.message())? {
            return Err(Fault::TooLong);
        }
        self.make_up(rt)
    }

    /// Stores what a call before could not.
    fn make_up<R: Wait>(&self, rt: &R) -> Result<(), Fault> {
        match self.is_behind.load(Ordering::SeqCst) {
            true => self.store(rt),
            false => Ok(()),
        }
    }

    /// Makes a call on the switchboard, whose answer is not stored.
    fn make_unstored<R: Wait>(
        &self,
        rt: &R,
        seat: &mut Seat<Led>,
        call: Call<M>,
    ) -> Result<Unstored<Answer<M>>, CallFailed<M>>
        ensures call { IfOk result (λ answer. answer.value.call ≡ call) }
        ensures reply { IfOk result (λ answer. suits call answer.value.reply ≡ true) }
        ensures counted { OnOk result (seat.new ≡ raised seat.old) }
        ensures failed { IfErr result (Fails seat.old seat.new call) }
    {
        match self.make(rt, seat, call) {
            Ok(answer) => Ok(Unstored::of(answer)),
            Err(failed) => Err(failed),
        }
    }

    /// Makes a call on the switchboard. If the journal is full, it makes room first.
    fn make<R: Wait>(
        &self,
        rt: &R,
        seat: &mut Seat<Led>,
        call: Call<M>,
    ) -> Result<Answer<M>, CallFailed<M>>
        ensures call { IfOk result (λ answer. answer.call ≡ call) }
        ensures reply { IfOk result (λ answer. suits call answer.reply ≡ true) }
        ensures counted { OnOk result (seat.new ≡ raised seat.old) }
        ensures failed { IfErr result (Fails seat.old seat.new call) }
    {
        let mut call = call;
        for _ in rt.forever() {
            match self.board.call(rt, seat, call) {
                Ok(answer) => return Ok(answer),
                Err((Refusal::JournalFull, back)) => {
                    if let Err(fault) = self.store(rt) {
                        return Err(Failed::Unmade(fault, back));
                    }
                    call = back;
                }
                Err((refusal, back)) => return Err(Failed::Refused(refusal, back)),
            }
        }
        unreachable!()
    }

    /// Returns what a call returned, once it is stored.
    fn keep<C, T, R: Wait>(&self, rt: &R, value: Unstored<T>) -> Result<T, Failed<C, T>>
        ensures kept { IfOk result (λ kept. kept ≡ value.value) }
        ensures unstored { IfErr result (IsUnstored value.value) }
    {
        let mut filing = self.filing.lock(rt);
        let filing = &mut *filing;
        match self.store_locked(rt, filing) {
            Ok(()) => Ok(value.stored(filing)),
            Err(fault) => Err(value.failed(fault)),
        }
    }

    /// Takes the journal's entries and stores their lines. The caller has locked the filing before the journal, so the lines have
    /// the journal's order. What can't be stored stays in memory.
    fn store_locked<R: Wait>(&self, rt: &R, filing: &mut Filing<M>) -> Result<(), Fault>
        ensures none { OnOk result (filing.new.pending.items ≡ []) }
        ensures stored { OnOk result (filing.new.store.accepted ≤ filing.new.store.stored) }
    {
        let told = self.take_and_store(rt, filing);
        self.is_behind.store(told.is_err(), Ordering::SeqCst);
        told
    }

    fn take_and_store<R: Wait>(&self, rt: &R, filing: &mut Filing<M>) -> Result<(), Fault>
        ensures none { OnOk result (filing.new.pending.items ≡ []) }
        ensures stored { OnOk result (filing.new.store.accepted ≤ filing.new.store.stored) }
    {
        self.enter(filing)?;
        filing.take(self.board.take_journal_open(rt));
        self.enter(filing)?;
        self.disk.store(filing)
    }

    /// Adds the lines of the pending entries to the text. If too many bytes are not synced, it syncs them first.
    fn enter(&self, filing: &mut Filing<M>) -> Result<(), Fault>
        ensures { OnOk result (filing.new.pending.items ≡ []) }
    {
        match filing.enter() {
            Err(Fault::Full) => {}
            told => return told,
        }
        self.disk.sync(filing)?;
        filing.enter()
    }
}
