//! Calls that put a message into a log or take one out of it.
ghost use Rattle.std.specs.Prelude.{◌≡◌, ◌≢◌, true, false, []};
ghost use Rattle.cml_calls.specs.{is_receiver};
ghost use Rattle.cml_board.specs.{is_a, owed, is_open, Fits, given_call, asked_call, adds, takes_next, asks_port, ReadsAt, Performs};
ghost use Rattle.cml_board.specs.{HasRoom, given_response};

use super::Board;
use super::note::{denied, note};
use super::objects::{push_at, take_at};
use crate::call::{Call, Name};
use crate::entry::{Entry, Reply, Who};
use crate::message::Message;
use crate::object::share_first;
use crate::outcome::Response;
use cml_calls::{Ask, Give};
use cml_log::{Key, MessageLog};

impl<M: Message, L: MessageLog<M>> Board<M, L> {
    /// Sends a message to a mailbox, or multicasts it on a channel. The answer is `Done`. Returns the message if it fails for
    /// want of memory.
    #[inline(always)]
    pub(super) fn put(&mut self, who: Who, name: Name, message: M, give: Give) -> Result<(), M>
        requires adds { adds give ≡ true }
        requires fits { Fits self.old.history (given_call give name message) }
        requires room { HasRoom self.old }
        ensures { Performs L.CHUNK M.SURE self.old self.new who (given_call give name message) (given_response give name result) }
    {
        let Ok(stored) = message.share(self.alloc) else {
            return Err(message);
        };
        let Ok(()) = self.journal.reserve(1) else {
            return Err(message);
        };
        let Ok(()) = push_at(&mut self.objects, name, stored) else {
            return Err(message);
        };
        let entry = Entry {
            who,
            call: Call::give(give, name, message),
            reply: Reply::Done,
        };
        note(&mut self.journal, entry);
        Ok(())
    }

    #[inline(always)]
    pub(super) fn receive(&mut self, who: Who, name: Name) -> Response<M>
        requires fits { is_a is_receiver self.old.history name.0 ≡ true }
        requires room { HasRoom self.old }
        ensures { Performs L.CHUNK M.SURE self.old self.new who (Call.Recv name) result }
    {
        let Some((source, key)) = self.cursor(name) else {
            return self.find_closed(who, name, Ask::Recv);
        };
        if self.log(source).owed(key) == 0 {
            return Response::WouldWait(Call::Recv(name));
        }
        self.take(who, name, source, key, Ask::Recv)
    }

    #[inline(never)]
    pub(super) fn poll(&mut self, who: Who, name: Name) -> Response<M>
        requires fits { is_a is_receiver self.old.history name.0 ≡ true }
        requires room { HasRoom self.old }
        ensures { Performs L.CHUNK M.SURE self.old self.new who (Call.Poll name) result }
    {
        let Some((source, key)) = self.cursor(name) else {
            return self.find_closed(who, name, Ask::Poll);
        };
        if self.log(source).owed(key) == 0 {
            return self.find_nothing(who, name);
        }
        self.take(who, name, source, key, Ask::Poll)
    }

    /// A call on a port that was closed before.
    #[inline(never)]
    pub(super) fn find_closed(&mut self, who: Who, name: Name, ask: Ask) -> Response<M>
        requires asks { asks_port ask ≡ true }
        requires fits { Fits self.old.history (asked_call ask name) }
        requires closed { is_open self.old.history name.0 ≡ false }
        requires room { HasRoom self.old }
        ensures { Performs L.CHUNK M.SURE self.old self.new who (asked_call ask name) result }
    {
        let call = Call::ask(ask, name);
        let Ok(()) = self.journal.reserve(1) else {
            return denied(call);
        };
        let entry = Entry {
            who,
            call,
            reply: Reply::Closed,
        };
        note(&mut self.journal, entry);
        Response::Reply(Reply::Closed)
    }

    /// A poll where nothing is owed.
    #[inline(never)]
    fn find_nothing(&mut self, who: Who, name: Name) -> Response<M>
        requires fits { is_a is_receiver self.old.history name.0 ≡ true }
        requires opened { is_open self.old.history name.0 ≡ true }
        requires empty { owed self.old.history name.0 ≡ [] }
        requires room { HasRoom self.old }
        ensures { Performs L.CHUNK M.SURE self.old self.new who (Call.Poll name) result }
    {
        let call = Call::Poll(name);
        let Ok(()) = self.journal.reserve(1) else {
            return denied(call);
        };
        let entry = Entry {
            who,
            call,
            reply: Reply::Nothing,
        };
        note(&mut self.journal, entry);
        Response::Reply(Reply::Nothing)
    }

    /// Takes the first message that is owed.
    #[inline(always)]
    fn take(&mut self, who: Who, name: Name, source: Name, key: Key, ask: Ask) -> Response<M>
        requires takes { takes_next ask ≡ true }
        requires reads { ReadsAt self.old name.0 source.0 key }
        requires owed { owed self.old.history name.0 ≢ [] }
        requires room { HasRoom self.old }
        ensures { Performs L.CHUNK M.SURE self.old self.new who (asked_call ask name) result }
    {
        let call = Call::ask(ask, name);
        let Ok(noted) = share_first(self.log(source), self.alloc, key) else {
            return denied(call);
        };
        let Ok(()) = self.journal.reserve(1) else {
            return denied(call);
        };
        let Ok(message) = take_at(&mut self.objects, self.alloc, source, key, &noted) else {
            return denied(call);
        };
        let entry = Entry {
            who,
            call,
            reply: Reply::Got(noted),
        };
        note(&mut self.journal, entry);
        Response::Reply(Reply::Got(message))
    }
}
