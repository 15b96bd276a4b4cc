//! Calls that make a variable, fill it or read it.
ghost use Rattle.std.specs.Prelude.{◌≡◌, ◌≢◌, true, false, Some, None, option_copied, IfOk, OnErr};
ghost use Rattle.cml_calls.specs.{is_variable, asked};
ghost use Rattle.cml_board.specs.{is_a, held, Fits, asked_call, reads_variable, empties, Performs, HasRoom};

use super::Board;
use super::note::{denied, note};
use super::objects::{add_variable, hold_at};
use crate::call::{Call, Name};
use crate::entry::{Entry, Reply, Who};
use crate::message::Message;
use crate::object::Form;
use crate::outcome::Response;
use cml_calls::Ask;
use cml_log::MessageLog;
use std::alloc::AllocError;

impl<M: Message, L: MessageLog<M>> Board<M, L> {
    /// Makes an m-variable that holds this.
    #[inline(never)]
    pub(super) fn make_full(&mut self, who: Who, message: M) -> Response<M>
        requires { HasRoom self.old }
        ensures { Performs L.CHUNK M.SURE self.old self.new who (Call.MVarInit message) result }
    {
        let Ok(stored) = message.share(self.alloc) else {
            return denied(Call::MVarInit(message));
        };
        let Ok(()) = self.journal.reserve(1) else {
            return denied(Call::MVarInit(message));
        };
        let reply = Name(self.objects.len() as u64);
        let Ok(()) = add_variable(&mut self.objects, Form::Mutable, Some(stored)) else {
            return denied(Call::MVarInit(message));
        };
        let entry = Entry {
            who,
            call: Call::MVarInit(message),
            reply: Reply::Made(reply),
        };
        note(&mut self.journal, entry);
        Response::Reply(Reply::Made(reply))
    }

    /// Puts a message into a variable, unless it is full.
    #[inline(never)]
    pub(super) fn fill(&mut self, who: Who, name: Name, message: M) -> Response<M>
        requires fits { Fits self.old.history (Call.Put name message) }
        requires room { HasRoom self.old }
        ensures { Performs L.CHUNK M.SURE self.old self.new who (Call.Put name message) result }
    {
        if self.content(name).is_some() {
            return self.find_full(who, name, message);
        }
        self.fill_empty(who, name, message)
    }

    fn fill_empty(&mut self, who: Who, name: Name, message: M) -> Response<M>
        requires fits { Fits self.old.history (Call.Put name message) }
        requires empty { held self.old.history name.0 ≡ None }
        requires room { HasRoom self.old }
        ensures { Performs L.CHUNK M.SURE self.old self.new who (Call.Put name message) result }
    {
        let Ok(stored) = message.share(self.alloc) else {
            return denied(Call::Put(name, message));
        };
        let Ok(()) = self.journal.reserve(1) else {
            return denied(Call::Put(name, message));
        };
        let _none = hold_at(&mut self.objects, name, Some(stored));
        let entry = Entry {
            who,
            call: Call::Put(name, message),
            reply: Reply::Done,
        };
        note(&mut self.journal, entry);
        Response::Reply(Reply::Done)
    }

    /// A put on a variable that is full.
    fn find_full(&mut self, who: Who, name: Name, message: M) -> Response<M>
        requires fits { Fits self.old.history (Call.Put name message) }
        requires full { held self.old.history name.0 ≢ None }
        requires room { HasRoom self.old }
        ensures { Performs L.CHUNK M.SURE self.old self.new who (Call.Put name message) result }
    {
        let Ok(()) = self.journal.reserve(1) else {
            return denied(Call::Put(name, message));
        };
        let entry = Entry {
            who,
            call: Call::Put(name, message),
            reply: Reply::Put,
        };
        note(&mut self.journal, entry);
        Response::Reply(Reply::Put)
    }

    /// Returns what a variable holds, and empties it or not.
    #[inline(never)]
    pub(super) fn look(&mut self, who: Who, name: Name, ask: Ask) -> Response<M>
        requires reads { reads_variable ask ≡ true }
        requires fits { Fits self.old.history (asked_call ask name) }
        requires room { HasRoom self.old }
        ensures { Performs L.CHUNK M.SURE self.old self.new who (asked_call ask name) result }
    {
        if self.content(name).is_some() {
            return if leaves_empty(ask) {
                self.empty(who, name, ask)
            } else {
                self.read(who, name, ask)
            };
        }
        if ask.shape().blocks {
            return Response::WouldWait(Call::ask(ask, name));
        }
        self.find_empty(who, name, ask)
    }

    fn read(&mut self, who: Who, name: Name, ask: Ask) -> Response<M>
        requires reads { reads_variable ask ≡ true }
        requires fits { Fits self.old.history (asked_call ask name) }
        requires leaves { empties ask ≡ false }
        requires full { held self.old.history name.0 ≢ None }
        requires room { HasRoom self.old }
        ensures { Performs L.CHUNK M.SURE self.old self.new who (asked_call ask name) result }
    {
        let call = Call::ask(ask, name);
        let Ok(message) = self.share_held(name) else {
            return denied(call);
        };
        let Ok(noted) = message.share(self.alloc) else {
            return denied(call);
        };
        let Ok(()) = self.journal.reserve(1) else {
            return denied(call);
        };
        let entry = Entry {
            who,
            call,
            reply: Reply::Got(noted),
        };
        note(&mut self.journal, entry);
        Response::Reply(Reply::Got(message))
    }

    fn empty(&mut self, who: Who, name: Name, ask: Ask) -> Response<M>
        requires reads { reads_variable ask ≡ true }
        requires fits { Fits self.old.history (asked_call ask name) }
        requires empties { empties ask ≡ true }
        requires full { held self.old.history name.0 ≢ None }
        requires room { HasRoom self.old }
        ensures { Performs L.CHUNK M.SURE self.old self.new who (asked_call ask name) result }
    {
        let call = Call::ask(ask, name);
        let Ok(noted) = self.share_held(name) else {
            return denied(call);
        };
        let Ok(()) = self.journal.reserve(1) else {
            return denied(call);
        };
        let Some(message) = hold_at(&mut self.objects, name, None) else {
            unreachable!()
        };
        let entry = Entry {
            who,
            call,
            reply: Reply::Got(noted),
        };
        note(&mut self.journal, entry);
        Response::Reply(Reply::Got(message))
    }

    /// A poll of an empty variable.
    fn find_empty(&mut self, who: Who, name: Name, ask: Ask) -> Response<M>
        requires reads { reads_variable ask ≡ true }
        requires fits { Fits self.old.history (asked_call ask name) }
        requires polls { (asked ask).blocks ≡ false }
        requires empty { held self.old.history name.0 ≡ None }
        requires room { HasRoom self.old }
        ensures { Performs L.CHUNK M.SURE self.old self.new who (asked_call ask name) result }
    {
        let call = Call::ask(ask, name);
        let Ok(()) = self.journal.reserve(1) else {
            return denied(call);
        };
        let entry = Entry {
            who,
            call,
            reply: Reply::Nothing,
        };
        note(&mut self.journal, entry);
        Response::Reply(Reply::Nothing)
    }

    /// Stores a message in an m-variable and returns what it held.
    #[inline(never)]
    pub(super) fn swap(&mut self, who: Who, name: Name, message: M) -> Response<M>
        requires fits { Fits self.old.history (Call.Swap name message) }
        requires room { HasRoom self.old }
        ensures { Performs L.CHUNK M.SURE self.old self.new who (Call.Swap name message) result }
    {
        if self.content(name).is_some() {
            return self.swap_full(who, name, message);
        }
        Response::WouldWait(Call::Swap(name, message))
    }

    fn swap_full(&mut self, who: Who, name: Name, message: M) -> Response<M>
        requires fits { Fits self.old.history (Call.Swap name message) }
        requires full { held self.old.history name.0 ≢ None }
        requires room { HasRoom self.old }
        ensures { Performs L.CHUNK M.SURE self.old self.new who (Call.Swap name message) result }
    {
        let Ok(stored) = message.share(self.alloc) else {
            return denied(Call::Swap(name, message));
        };
        let Ok(told) = self.share_held(name) else {
            return denied(Call::Swap(name, message));
        };
        let Ok(()) = self.journal.reserve(1) else {
            return denied(Call::Swap(name, message));
        };
        let Some(old) = hold_at(&mut self.objects, name, Some(stored)) else {
            unreachable!()
        };
        let entry = Entry {
            who,
            call: Call::Swap(name, message),
            reply: Reply::Got(told),
        };
        note(&mut self.journal, entry);
        Response::Reply(Reply::Got(old))
    }

    /// What a variable holds.
    fn content(&self, name: Name) -> Option<&M>
        requires { is_a is_variable self.now.history name.0 ≡ true }
        ensures { option_copied result ≡ held self.now.history name.0 }
    {
        self.held(name)?
    }

    /// A message equal to the one that a variable holds.
    fn share_held(&self, name: Name) -> Result<M, AllocError>
        requires stands { is_a is_variable self.now.history name.0 ≡ true }
        requires full { held self.now.history name.0 ≢ None }
        ensures copy { IfOk result (λ message. held self.now.history name.0 ≡ Some message) }
        ensures sure { OnErr result (M.SURE ≡ false) }
    {
        match self.content(name) {
            Some(message) => message.share(self.alloc),
            None => unreachable!(),
        }
    }
}

/// Says whether the call leaves the variable empty that it reads.
fn leaves_empty(ask: Ask) -> bool
    ensures { result ≡ empties ask }
{
    matches!(ask, Ask::Take | Ask::TakePoll)
}
