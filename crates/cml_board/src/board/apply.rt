//! How a call is made: first the tests by which it may fail, and then one function for each kind of call.
ghost use Rattle.std.specs.Prelude.{◌≡◌, ◌≢◌, true, false, MatchOption};
ghost use Rattle.cml_board.specs.{Who, Fits, Applies, Performs, Refuses, HasRoom, entries_in, has_message, outcome_of};

use super::Board;
use super::note::given;
use crate::answer::Answer;
use crate::call::Call;
use crate::entry::Who;
use crate::message::Message;
use crate::outcome::{Outcome, Refusal, Response};
use cml_calls::{Ask, Give};
use cml_log::MessageLog;

impl<M: Message, L: MessageLog<M>> Board<M, L> {
    /// Makes a call for `who`. An answered call adds its entry to the journal. A call that fails or would wait is returned,
    /// and changes nothing. Fails with `NoSuch`, `WrongKind`, `JournalFull` or `NoMemory`.
    #[inline(always)]
    pub fn apply(&mut self, who: Who, call: Call<M>) -> Outcome<M>
        ensures { Applies L.CHUNK M.SURE self.old self.new who call result }
    {
        if let Some(refusal) = self.refusal(&call) {
            return Outcome::Refused(refusal, call);
        }
        // Only a swap has a message and may wait: so a call that waits shares none.
        if matches!(call, Call::Swap(_, _)) && self.would_wait(&call) {
            return Outcome::WouldWait(call);
        }
        let Ok(noted) = call.share(self.alloc) else {
            return self.unshared(call);
        };
        let at = self.entries();
        match self.perform(who, noted) {
            Response::Reply(reply) => Outcome::Answered(Answer::new(call, reply, at)),
            Response::WouldWait(_) => Outcome::WouldWait(call),
            Response::Refused(refusal, _) => Outcome::Refused(refusal, call),
        }
    }

    /// Makes a call for `who`, as `apply` does, and returns the reply alone. The journal keeps the caller's own call, so its
    /// message is shared once less and dropped once less.
    #[inline(always)]
    pub fn call(&mut self, who: Who, call: Call<M>) -> Response<M>
        ensures { Applies L.CHUNK M.SURE self.old self.new who call (outcome_of (entries_in self.old.history) call result) }
    {
        if let Some(refusal) = self.refusal(&call) {
            return Response::Refused(refusal, call);
        }
        self.perform(who, call)
    }

    /// The outcome of a call whose message could not be shared.
    #[inline(never)]
    fn unshared(&self, call: Call<M>) -> Outcome<M>
        requires fits { Fits self.now.history call }
        requires room { HasRoom self.now }
        requires shares { has_message call ≡ true }
        requires unsure { M.SURE ≡ false }
        ensures { (who : Who) → Applies L.CHUNK M.SURE self.now self.now who call result }
    {
        if self.would_wait(&call) {
            return Outcome::WouldWait(call);
        }
        Outcome::Refused(Refusal::NoMemory, call)
    }

    /// Makes a call that can fail only for want of memory. The journal keeps it. Sends and receives, which are most calls, are made
    /// here, so that the caller's code has them alone where it knows which call it makes.
    #[inline(always)]
    fn perform(&mut self, who: Who, call: Call<M>) -> Response<M>
        requires fits { Fits self.old.history call }
        requires room { HasRoom self.old }
        ensures { Performs L.CHUNK M.SURE self.old self.new who call result }
    {
        match call {
            Call::Send(name, message) => {
                given(Give::Send, name, self.put(who, name, message, Give::Send))
            }
            Call::Recv(name) => self.receive(who, name),
            other => self.perform_any(who, other),
        }
    }

    /// Makes a call of any kind in the same way.
    #[inline(never)]
    fn perform_any(&mut self, who: Who, call: Call<M>) -> Response<M>
        requires fits { Fits self.old.history call }
        requires room { HasRoom self.old }
        ensures { Performs L.CHUNK M.SURE self.old self.new who call result }
    {
        match call {
            Call::NewMailbox
            | Call::NewChannel
            | Call::NewPort(_)
            | Call::NewIVar
            | Call::NewMVar => self.make_by(who, call),
            Call::CopyPort(port) => self.copy_port(who, port),
            Call::ClosePort(port) => self.close_port(who, port),
            Call::Send(name, message) => {
                given(Give::Send, name, self.put(who, name, message, Give::Send))
            }
            Call::Cast(name, message) => {
                given(Give::Cast, name, self.put(who, name, message, Give::Cast))
            }
            Call::Recv(name) => self.receive(who, name),
            Call::Poll(name) => self.poll(who, name),
            Call::MVarInit(message) => self.make_full(who, message),
            Call::Put(name, message) => self.fill(who, name, message),
            Call::Get(name) => self.look(who, name, Ask::Get),
            Call::GetPoll(name) => self.look(who, name, Ask::GetPoll),
            Call::Take(name) => self.look(who, name, Ask::Take),
            Call::TakePoll(name) => self.look(who, name, Ask::TakePoll),
            Call::Swap(name, message) => self.swap(who, name, message),
        }
    }

    /// The reason why the call fails, whatever memory there is.
    #[inline(always)]
    fn refusal(&self, call: &Call<M>) -> Option<Refusal>
        ensures { MatchOption result (Fits self.now.history call.now × HasRoom self.now)
            (λ refusal. (refusal ≢ Refusal.NoMemory) × Refuses L.CHUNK M.SURE self.now call.now refusal) }
    {
        if let Some(name) = call.object() {
            let Some(kind) = self.kind(name) else {
                return Some(Refusal::NoSuch);
            };
            if !call.takers().has(kind) {
                return Some(Refusal::WrongKind);
            }
        }
        if self.is_full() {
            return Some(Refusal::JournalFull);
        }
        None
    }
}
